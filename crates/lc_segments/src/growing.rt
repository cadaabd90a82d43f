//! The applied parts of a segment grow with each record, until they are folded.
ghost use Rattle.std.specs.Prelude.{◌≡◌, ◌*◌, ◌-◌, ◌^◌, ◌≤◌, ◌+◌, length, min};
ghost use Rattle.lc_applied.specs.AppliedParts.{runs_of};
ghost use Rattle.lc_segments.specs.Growing.{entry_size, folded, part_size, runs_size, parts_size, HasGrown};

use crate::seg_side::SegSide;
use lc_disk::Area;
use lc_range::Range;
use lc_record::Part;

// What a part takes, and what each of its ranges takes beside its bytes: its struct, and some for the allocator.
const ENTRY_BYTES: usize = 48;

// How many times the segment's bytes its applied parts may take.
const MOST_TIMES: usize = 2;

/// How many bytes the part takes that these runs have of a segment, or the greatest number.
pub(crate) fn size_of_runs(segment: u32, runs: &[Range]) -> usize
    ensures { result ≡ min (2 ^ 64 - 1) (entry_size + runs_size (runs_of segment runs.now)) }
{
    let mut size = ENTRY_BYTES;
    for run in runs {
        if run.segment == segment {
            size = size
                .saturating_add(ENTRY_BYTES)
                .saturating_add(run.len as usize);
        }
    }
    size
}

// How many bytes a part takes, or the greatest number.
pub(crate) fn size_of_part(part: &Part) -> usize
    ensures { result ≡ min (2 ^ 64 - 1) (part_size part.now) }
{
    let mut size = ENTRY_BYTES;
    for range in part.ranges.as_slice() {
        let len = range.bytes.as_slice().len();
        size = size.saturating_add(ENTRY_BYTES).saturating_add(len);
    }
    size
}

impl<D: Area + Drop> SegSide<D> {
    /// Folds the applied parts exactly where they take more than twice the segment's bytes, so that afterwards they
    /// never do. It takes no memory.
    pub fn fold_grown(&mut self)
        ensures same { parts_size self.old.applied ≤ 2 * length self.old.base → self.new ≡ self.old }
        ensures grown { HasGrown self.old → self.new ≡ record (folded self.old) { runs_room = self.new.runs_room } }
        ensures few { parts_size self.new.applied ≤ 2 * length self.new.base }
    {
        if self.stored > MOST_TIMES * self.base.bytes().len() {
            self.fold();
        }
    }
}
