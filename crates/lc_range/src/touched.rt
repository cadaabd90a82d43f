//! Where a range goes among a set's runs.
use crate::Range;

/// Where a range goes: the runs in front of `start` lie before it, and those from there up to `end` are to be replaced
/// by `run`.
#[derive(Clone, Copy)]
pub struct Touched {
    pub range: Range,
    pub start: usize,
    pub end: usize,
    pub run: Range,
}
