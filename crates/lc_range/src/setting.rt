//! A range that is set: its old bytes are kept and it is added, both at the place that one search has found.
ghost use Rattle.std.specs.Prelude.{◌≡◌, ◌≢◌, ◌⊎◌, ◌↔◌, ◌+◌, ◌-◌, ◌^◌, ◌<◌, ◌≤◌, ℕ, [], ◌∷◌, length, min, slice_index};
ghost use Rattle.std.specs.Prelude.{Err, IfErr, OnOk, OnErr};
ghost use Rattle.lc_range.specs.RangeSet.{AddsPositions, CountsOutside, MissesSome, NeedsRunsAbove};
ghost use Rattle.lc_range.specs.Copies.{copy_at};
ghost use Rattle.lc_range.specs.Undo.{AddsCopies, KeepsOld, LiesBelow, NeedsBytesAbove, NeedsCopiesAbove, bytes_kept};
ghost use Rattle.lc_range.specs.Undo.{first_bytes};

use crate::runs::touched;
use crate::{Range, RangeFault, RangeSet, Undo};

impl RangeSet {
    /// Keeps the bytes of `len` positions of a segment from `offset` on that are not in the set, as the segment's image
    /// has them (`Undo::keep_old`), and adds the positions (`add`). Their place among the runs is looked for once.
    /// Idea: RVM's set-range (Satyanarayanan et al., TOCS 1994).
    ///
    /// # Errors
    ///
    /// `TooManyRanges`, and `NoMemory`, looked at in this order. The set and what is kept are then as before.
    pub fn add_kept(
        &mut self,
        undo: &mut Undo,
        segment: u32,
        offset: u32,
        len: u32,
        image: &[u8],
    ) -> Result<(), RangeFault>
        requires some { 0 < len }
        requires within { offset + len ≤ min (length image.now) (2 ^ 32 - 1) }
        ensures adds { OnOk result (AddsPositions self.old segment offset len self.new) }

        // What is kept is that of `keep_old` with the set as it was.
        ensures kept { OnOk result (KeepsOld undo.old self.old segment offset len (slice_index image.now) undo.new) }
        ensures front { OnOk result (first_bytes (bytes_kept undo.old) undo.new ≡ undo.old) }
        ensures count { OnOk result ((n : ℕ) × CountsOutside self.old segment offset len n
            × (bytes_kept undo.new ≡ bytes_kept undo.old + n)) }
        ensures copies { OnOk result (AddsCopies undo.old self.old segment offset len undo.new) }
        ensures below { OnOk result ((s bound : ℕ) → LiesBelow undo.old s bound
            → (s ≡ segment → offset + len ≤ bound) → LiesBelow undo.new s bound) }

        ensures err { OnErr result (self.new ≡ self.old) }
        ensures err_kept { OnErr result (undo.new ≡ undo.old) }
        ensures too_many { (result ≡ Err RangeFault.TooManyRanges) ↔ NeedsRunsAbove 64 self.old segment offset len }

        // Memory is wanted only for a position that is new, and a ninth run or copy or more than 64 bytes.
        ensures no_memory { result ≡ Err RangeFault.NoMemory → MissesSome self.old segment offset len }
        ensures needs { result ≡ Err RangeFault.NoMemory → NeedsRunsAbove 8 self.old segment offset len
            ⊎ (NeedsCopiesAbove 8 undo.old self.old segment offset len
            ⊎ NeedsBytesAbove 64 undo.old self.old segment offset len) }

        ensures empty { result ≢ Err RangeFault.EmptyRange }
        ensures outside { result ≢ Err RangeFault.OutOfSegment }
    {
        let range = Range {
            segment,
            offset,
            len,
        };
        if self.ranges().is_empty() && undo.copies() == 0 {
            return self.add_first(undo, range, image);
        }
        let place = touched(self.ranges(), &range);
        if !self.has_room(&place) {
            return Err(RangeFault::TooManyRanges);
        }
        let kept = undo.len();
        if undo.keep_at(self, &place, image).is_err() {
            return Err(RangeFault::NoMemory);
        }
        if self.put(&place).is_err() {
            undo.truncate(kept);
            return Err(RangeFault::NoMemory);
        }
        Ok(())
    }

    // Keeps the bytes of a range and adds it, where nothing is set and nothing is kept. There is nothing to search.
    fn add_first(&mut self, undo: &mut Undo, range: Range, image: &[u8]) -> Result<(), RangeFault>
        requires none { self.old ≡ [] }
        requires none_kept { undo.old ≡ [] }
        requires some { 1 ≤ range.len }
        requires within { range.offset + range.len ≤ min (length image.now) (2 ^ 32 - 1) }
        ensures adds { OnOk result (self.new ≡ range ∷ []) }
        ensures keeps { OnOk result (undo.new ≡ copy_at image.now range ∷ []) }
        ensures err { OnErr result (self.new ≡ self.old) }
        ensures err_kept { OnErr result (undo.new ≡ undo.old) }
        ensures needs { OnErr result (64 < range.len) }
        ensures faults { IfErr result (λ fault. fault ≡ RangeFault.NoMemory) }
    {
        if undo.keep_first(range, image).is_err() {
            return Err(RangeFault::NoMemory);
        }
        self.put_first(range);
        Ok(())
    }
}
