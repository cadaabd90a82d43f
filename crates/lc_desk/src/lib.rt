//! A node's segments, the open transactions of its threads, and the page writes that are under way.
#![tactic(auto)]

mod beginnings;
mod desk;
mod doing;
mod ending;
mod here;
mod laws;
mod log_end;
mod page_progress;
mod page_state;
mod page_writes;
mod pages;
mod refused;
mod seat;
mod segment_copy;
mod segment_piece;
mod segment_pieces;
mod tokens;
mod transactions;

pub use desk::Desk;
pub use doing::Doing;
pub use ending::Ending;
pub use here::Here;
pub use log_end::LogEnd;
pub use page_progress::PageProgress;
pub use page_state::PageState;
pub use page_writes::page_in;
pub use pages::Pages;
pub use seat::Seat;
pub use segment_copy::SegmentCopy;
pub use segment_piece::SegmentPiece;
pub use segment_pieces::SegmentPieces;
