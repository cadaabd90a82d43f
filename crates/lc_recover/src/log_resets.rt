//! The logs, being emptied.
ghost use Rattle.std.specs.Prelude.{◌≡◌, ◌≤◌};

use crate::segment_pages::SegmentPages;
use lc_record::Items;

/// How many device calls the reset of a log takes.
pub(crate) const LOG_CALLS: u64 = 2;

/// The logs, being emptied one after another.
#[derive(Drop)]
pub(crate) struct LogResets {
    pub(crate) logs: Vec<Items<u64>>,
    pub(crate) segments: Vec<SegmentPages>,
    pub(crate) numbers: Vec<u64>,
    /// How many pages were written.
    pub(crate) written: u64,
    /// How many logs are empty.
    pub(crate) next: usize,
    /// Whether the gate of the next one is written.
    pub(crate) is_closing: bool,
}

impl LogResets {
    ghost use Rattle.lc_recover.specs.Steps.{resets_done};

    /// How many calls of the resets are done.
    pub(crate) fn calls(&self) -> u64
        requires { self.now.next ≤ 8 }
        ensures { result ≡ resets_done self.now }
    {
        let closed = if self.is_closing { 1 } else { 0 };
        LOG_CALLS * self.next as u64 + closed
    }
}
