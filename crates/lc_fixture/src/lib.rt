//! What tests of stores stand on: files in memory that list the calls made on them, areas that others have made, and a
//! writer with little room.
#![tactic(auto)]

mod listed_files;
mod narrow;
mod stores;

pub use listed_files::{FOLDER, Listed, ListedFile, Shelf, Trouble};
pub use narrow::Narrow;
pub use stores::{CLOSED, ONE, SlotText, hello, log_area, segment_area};
