//! The command line: what it asks for is what its words say, and words that have a fault ask for nothing.
#![tactic(auto)]

mod asked;
mod command_line;
mod options;
mod program;
mod run_store;
mod size;
mod wanted;

pub use asked::Asked;
pub use command_line::read_command_line;
pub use run_store::RunStore;
pub use size::Size;
pub use wanted::Wanted;
