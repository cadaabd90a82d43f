//! What tests of running nodes stand on: what a caller does with its seat, areas whose bytes outlive them, and stores
//! that were recovered.
#![tactic(auto)]

mod seats;
mod shared;
mod stores;

pub use seats::{Open, TRIES, confirm, get, put, put_and_confirm};
pub use shared::{SharedArea, Shelf};
pub use stores::{LOG_BYTES, SEGMENT_BYTES, WORDS, recovered};
