//! One node's log: whatever a stop leaves of it reads as the stable records, or as these and the whole group.
#![tactic(auto)]

mod closing;
mod failed;
mod first_gate;
mod found;
mod idle;
mod in_place;
mod laws;
mod opened;
mod synced;
mod walking;
mod walking_back;
mod written;

pub use closing::Closing;
pub use failed::Failed;
pub use first_gate::{begins_open, close_first_gate, settle_first_gate};
pub use found::Walk;
pub use idle::Idle;
pub use in_place::{RecordPlaces, walk_in_place};
pub use laws::{
    begins_at_rest, each_span, images_at_gate, images_at_rest, one_text, same_spans, some_text,
};
pub use opened::Opened;
pub use synced::Synced;
pub use walking::{text_len, walk, words_in};
pub use walking_back::walk_back;
pub use written::Written;

/// A node's log. It is made, and waits, at rest; the calls of a flush and of a reset lead through a type each.
pub type NodeLog<D> = Idle<D>;
