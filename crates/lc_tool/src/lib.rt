//! Scripts: what is printed is the text of the replies.
#![tactic(auto)]

mod answering;
mod call_replies;
mod checking_json;
mod commands;
mod copying;
mod following;
mod laws;
mod line_list;
mod line_telling;
mod log_file;
mod looking;
mod making;
mod manner;
mod noted;
mod outcome;
mod program;
mod repeating;
mod script_lines;
mod scripts;
mod size_hint;
mod sizing;
mod source;
mod stop;
mod store_report;
mod stores;
mod telling;
mod truncating;
mod verdict;

pub use answering::answer;
pub use checking_json::check_store_json;
pub use copying::copy_store;
pub use lc_text::{ScriptFault, ToolFault, WriteFault, inspect};
pub use log_file::inspect_file;
pub use looking::{check_store, draw_store, dump_page};
pub use manner::Manner;
pub use noted::Noted;
pub use program::run_program;
pub use scripts::run_script;
pub use sizing::{recover_sized, run_sized};
pub use stores::{init_store, recover_store, run_store};
pub use telling::ErrorOutput;
