//! Transactions: the images and the record are the transaction's effect.
#![tactic(auto)]

mod beginning;
mod changing;
mod ending;
mod holders;
mod image;
mod images;
mod laws;
mod lock_mode;
mod locking;
mod one_segment;
mod prepared;
mod preparing;
mod readers;
mod recording;
mod tx;
mod tx_fault;

pub use holders::Holders;
pub use image::Image;
pub use images::Images;
pub use laws::{
    begun, bytes_written, content_is_back, few_segments, keep_beside, kept_is_set, nothing_is_set,
    one_ascending_list, one_record, range_set, read_shows_content, runs_are_ranges, runs_beside,
    same_images, set_positions, stands_beside, who_is_free,
};
pub use locking::set_of;
pub use one_segment::OneSegment;
pub use prepared::Prepared;
pub use readers::Readers;
pub use tx::Tx;
pub use tx_fault::TxFault;
