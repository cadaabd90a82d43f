//! What is printed of a store, as lines or as one picture, is the text of what its areas read as, and how it ends is the
//! status.
#![tactic(auto)]

mod checking;
mod drawing;
mod dumping;
mod json;
mod layout;
mod log_bar;
mod page_cell;
mod recovery;
mod segment_field;
mod status;
mod store_picture;
mod style;
mod teller;

pub use checking::check_areas;
pub use drawing::draw_areas;
pub use dumping::dump_areas;
pub use json::{check_areas_json, refuse_json};
pub use log_bar::LogBar;
pub use page_cell::PageCell;
pub use recovery::{ended, recover_areas, recover_told};
pub use segment_field::SegmentField;
pub use status::{DONE, FAULTED, NOT_UNDERSTOOD, REFUSED};
pub use store_picture::{StorePicture, write_picture};
pub use teller::{Silent, Teller};
