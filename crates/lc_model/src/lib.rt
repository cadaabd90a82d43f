//! The plain machine: what may be asked of a store, what it may answer, and which answers are right.
#![tactic(auto)]

pub mod disks;
mod event;
pub mod examples;
pub mod examples_of_locks;
pub mod examples_of_merges;
pub mod examples_of_nothing;
pub mod examples_of_one;
pub mod examples_of_pages;
pub mod examples_of_refusals;
pub mod examples_of_stops;
pub mod laws;
pub mod merge;
mod refusal;
mod reply;
pub mod runs;

pub use event::Event;
pub use refusal::Refusal;
pub use reply::Reply;
