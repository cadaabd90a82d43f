//! A number under a lock.

/// The number that a record has under a segment's lock.
#[derive(Clone, Copy, PartialEq, Eq, PartialOrd, Ord)]
pub(crate) struct LockNumber {
    pub(crate) segment: u32,
    pub(crate) seq: u64,
}
