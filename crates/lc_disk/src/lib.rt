//! Areas of a disk: while a device keeps to the model, each call leaves what the model says, and calls and failures
//! are counted.
#![tactic(auto)]

mod area;
mod choice;
mod count;
mod device_fault;
mod fault_witness;
mod file_area;
mod fuse;
mod held_file;
mod laws;
mod mem_area;
mod open_fault;
mod stoppable;
mod tally;
mod when;

pub use area::Area;
pub use choice::Choice;
pub use device_fault::DeviceFault;
pub use fault_witness::{FaultWitness, FileCall, NoWitness};
pub use file_area::{FileArea, open_regular};
pub use fuse::Fuse;
pub use held_file::HeldFile;
pub use laws::{clean_image, image_of_image, images_kept, reads_as_image};
pub use mem_area::MemArea;
pub use open_fault::OpenFault;
pub use stoppable::Stoppable;
pub use tally::Tally;
pub use when::When;
