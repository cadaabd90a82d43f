//! A node's log between two calls: what is reserved, closed, taken, acknowledged and dropped.
#![tactic(auto)]

mod ends;
mod journal;
mod keeping;
mod laws;
mod log;
mod logging;
mod node_piece;
mod publishing;
mod record_end;
mod records;
mod resetting;
mod show_fault;

pub use journal::Journal;
pub use laws::coherent_numbers;
pub use log::Log;
pub use node_piece::NodePiece;
pub use publishing::Published;
pub use record_end::RecordEnd;
pub use records::Records;
pub use show_fault::ShowFault;
