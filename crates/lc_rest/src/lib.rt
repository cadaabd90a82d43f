//! A cluster at rest: its records merge into one order, and where what it left passes each test, it stands for one
//! sound state of the machine, whose value is what all records make of the pages.
#![tactic(auto)]

mod adopt_fault;
mod cluster_part;
mod holder;
mod image_test;
mod laws;
mod log_test;
mod merge;
mod node_part;
mod numbers_test;
mod order;
mod parts;
mod reading;
mod replay;
mod segment_part;
mod segment_read;
mod stable;
mod token_test;

pub use adopt_fault::AdoptFault;
pub use cluster_part::ClusterPart;
pub use holder::Holder;
pub use image_test::comes_up;
pub use laws::{
    dropped_front, merged_in_order, no_order, own_records, passed, played_pages, stands_for,
};
pub use log_test::{keeps_known, keeps_own};
pub use merge::merge_records;
pub use node_part::NodePart;
pub use numbers_test::keeps_numbers;
pub use order::in_order;
pub use parts::Parts;
pub use reading::read_bytes;
pub use replay::replay_segment;
pub use segment_part::SegmentPart;
pub use segment_read::SegmentRead;
pub use stable::{replay_up_to, stable_number};
pub use token_test::{first_number, keeps_token};
