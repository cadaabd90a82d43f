//! What the logs and the pages of a store make together.
use crate::redo_range::RedoRange;

/// What the logs and the pages of a store make together: the number of each segment, from segment 1 on, and which
/// records are to be put on which pages, ascending by segment, page and number.
#[derive(Drop)]
pub(crate) struct Merged {
    pub(crate) numbers: Vec<u64>,
    pub(crate) changes: Vec<RedoRange>,
}
