//! How much a part takes.
ghost use Rattle.std.specs.Prelude.{◌≡◌, ◌-◌, ◌^◌, length, min};
ghost use Rattle.lc_range.specs.RangeSet.{total_len};
ghost use Rattle.lc_applied.specs.AppliedParts.{runs_of};

use lc_range::Range;

/// How many runs, and how many bytes.
#[derive(Clone, Copy)]
pub(crate) struct RunTotals {
    pub(crate) runs: usize,
    pub(crate) bytes: usize,
}

impl RunTotals {
    /// How many of these runs are of a segment, and how many bytes these have, or the greatest number.
    pub(crate) fn of(segment: u32, runs: &[Range]) -> Self
        ensures runs { result.runs ≡ length (runs_of segment runs.now) }
        ensures bytes { result.bytes ≡ min (2 ^ 64 - 1) (total_len (runs_of segment runs.now)) }
    {
        let mut size = RunTotals { runs: 0, bytes: 0 };
        for run in runs {
            if run.segment == segment {
                size.runs += 1;
                size.bytes = size.bytes.saturating_add(run.len as usize);
            }
        }
        size
    }
}
