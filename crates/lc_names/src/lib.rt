//! A table of names with attributes in the bytes of a segment, and what is asked of it in a transaction.
#![tactic(auto)]

mod ask;
mod deciding;
mod laws;
mod name_answer;
mod name_command;
mod name_entry;
mod name_fault;
mod table;

pub use ask::{Ask, SEGMENT};
pub use laws::names_of_the_map;
pub use name_answer::NameAnswer;
pub use name_command::NameCommand;
pub use name_fault::NameFault;
