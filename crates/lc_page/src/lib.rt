//! Pages in two slots: whatever a stop leaves of a page that is being written, it is the old page or the new one.
#![tactic(auto)]

mod draft;
mod fault;
mod laws;
mod limits;
mod page_entry;
mod page_text;
mod page_vector;
mod page_write;
mod reading;
mod slot;
mod writing;

pub use draft::Draft;
pub use fault::PageFault;
pub use laws::{
    keeps_settled, other_page_keeps, others_keep, page_under_way, same_images_beside,
    same_page_beside, settled_from_images, settled_images, settled_reads, settled_when_clean,
    sync_keeps,
};
pub use limits::{GREATEST_SEQUENCE, PAGE_BYTES, SLOT_BYTES, has_page, is_sequence};
pub use page_entry::PageEntry;
pub use page_text::PageText;
pub use page_vector::PageVector;
pub use page_write::{Begun, Closed, ClosingGate, Filled, Filling, OpeningGate, PageWrite};
pub use reading::{page_bytes, read_page};
pub use slot::Slot;
pub use writing::Writing;
