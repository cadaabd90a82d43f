//! Text: a line is read as the one command that its words say, and what is written is the text of the answer.
#![tactic(auto)]

mod command;
mod digits;
mod fields;
mod hex;
mod inspector;
mod lines;
mod parsing;
mod records;
mod replies;
mod script_fault;
mod text;
mod tool_fault;
mod write_fault;

pub use command::{Command, Line};
pub use hex::{write_hex, write_page, write_words};
pub use inspector::inspect;
pub use lines::first_line;
pub use parsing::{is_skipped, parse};
pub use records::write_record;
pub use replies::write_reply;
pub use script_fault::ScriptFault;
pub use text::{
    write_closed, write_exists, write_line_number, write_no_memory, write_not_understood,
    write_too_long, write_truncated,
};
pub use tool_fault::ToolFault;
pub use write_fault::WriteFault;
