//! What a run of several events comes to.
use lc_model::Reply;

/// What became of a list of events.
#[derive(Drop)]
pub struct RunResult {
    /// Of the events that were answered, in their order.
    pub replies: Vec<Reply>,
    /// Whether the event after them was given up for want of memory.
    pub out_of_memory: bool,
}
