//! The positions that a transaction has set.
ghost use Rattle.std.specs.Prelude.{◌≡◌, ◌+◌, ◌-◌, ◌^◌, ◌<◌, ◌≤◌, ◌↔◌, ℕ, [], ◌∷◌, false, length, Err, IsTrue, OnOk};
ghost use Rattle.std.specs.Prelude.{OnErr};
ghost use Rattle.lc_range.specs.Touched.{IsTouched};
ghost use Rattle.lc_range.specs.RangeSet.{Has, IsCanonical, EndWithin, AddsPositions, MissesSome, NeedsRunsAbove};
ghost use Rattle.lc_range.specs.Walk.{merged};

use crate::runs::{remove_all, replace, some_holds, touched};
use crate::touched::Touched;
use crate::{Range, RangeFault};
use smallvec::SmallVec;
use std::alloc::{AllocError, Global};
use std::marker::Model;

const MAX_RUNS: usize = 64;

/// A set of positions of segments, which contracts see as the list of its runs: ascending by segment and offset,
/// none empty, with a gap between two of one segment. `Has` says which positions are in it. It has 64 runs at most,
/// and takes no memory for 8. Idea: RVM's set ranges (Satyanarayanan et al., TOCS 1994), merged as in its
/// intra-transaction optimization.
#[derive(Drop)]
pub struct RangeSet {
    runs: SmallVec<Range, 8>,
}

impl Model for RangeSet {
    ghost use Rattle.std.specs.Prelude.{List};
    ghost use Rattle.lc_range.specs.declared.range.Range.{Range};

    ghost Value = { List Range };

    ghost use Rattle.lc_range.specs.RangeSet.{IsSet};

    ghost view = { λ a. a.runs.items };

    ghost invariant = { λ a. IsSet a.runs };
}

impl RangeSet {
    /// The empty set, which takes no memory.
    pub fn new(alloc: Global) -> Self
        ensures { result ≡ [] }
    {
        RangeSet {
            runs: SmallVec::new(alloc),
        }
    }

    /// No position is in the set any more. The memory that its runs have taken is kept for others.
    pub fn clear(&mut self)
        ensures { self.new ≡ [] }
    {
        remove_all(&mut self.runs);
    }

    /// Adds `len` positions, in bytes, of a segment of `segment_len` bytes, from `offset` on. Runs that overlap or
    /// touch become one. A binary search finds its place, and only the runs that it touches are looked at from there
    /// on. It takes memory only where a ninth run or a later one comes.
    ///
    /// # Errors
    ///
    /// `EmptyRange`, `OutOfSegment` and `TooManyRanges`, looked at in this order, and `NoMemory`. The set is then as
    /// before.
    pub fn add(
        &mut self,
        segment: u32,
        segment_len: u32,
        offset: u32,
        len: u32,
    ) -> Result<(), RangeFault>
        ensures ok { OnOk result (AddsPositions self.old segment offset len self.new) }
        ensures canonical { OnOk result (IsCanonical self.new) }
        ensures err { OnErr result (self.new ≡ self.old) }

        ensures empty { (result ≡ Err RangeFault.EmptyRange) ↔ (len ≡ 0) }
        ensures outside { (result ≡ Err RangeFault.OutOfSegment) ↔ ((0 < len) × (segment_len < offset + len)) }
        ensures too_many { (result ≡ Err RangeFault.TooManyRanges)
            ↔ ((0 < len) × (offset + len ≤ segment_len) × NeedsRunsAbove 64 self.old segment offset len) }

        // Memory is wanted only for one run more, beside 8 at least.
        ensures no_memory { result ≡ Err RangeFault.NoMemory
            → (8 ≤ length self.old) × NeedsRunsAbove (length self.old) self.old segment offset len }
        ensures misses { result ≡ Err RangeFault.NoMemory → MissesSome self.old segment offset len }
    {
        if len == 0 {
            return Err(RangeFault::EmptyRange);
        }
        if u64::from(offset) + u64::from(len) > u64::from(segment_len) {
            return Err(RangeFault::OutOfSegment);
        }
        let range = Range {
            segment,
            offset,
            len,
        };
        let place = touched(self.ranges(), &range);
        if !self.has_room(&place) {
            return Err(RangeFault::TooManyRanges);
        }
        if self.put(&place).is_err() {
            return Err(RangeFault::NoMemory);
        }
        Ok(())
    }

    /// Whether at most 64 runs stand with the range that has this place.
    pub(crate) fn has_room(&self, place: &Touched) -> bool
        requires { IsTouched self.now place.now }
        ensures { IsTrue result ↔ (length (merged place.now.range self.now) ≤ 64) }
    {
        place.start < place.end || self.runs.len() < MAX_RUNS
    }

    /// Adds the range that has this place. Where there is no memory for one run more, the set is as before.
    pub(crate) fn put(&mut self, place: &Touched) -> Result<(), AllocError>
        requires place { IsTouched self.old place.now }
        requires some { 1 ≤ place.now.range.len }
        requires end { place.now.range.offset + place.now.range.len < 2 ^ 32 }
        requires room { length (merged place.now.range self.old) ≤ 64 }
        ensures ok { OnOk result (self.new ≡ merged place.now.range self.old) }
        ensures err { OnErr result (self.new ≡ self.old) }
        ensures memory { OnErr result ((8 ≤ length self.old)
            × (length self.old < length (merged place.now.range self.old))) }
    {
        if place.start < place.end {
            replace(&mut self.runs, place.start, place.end, place.run);
            return Ok(());
        }
        if self.runs.insert(place.start, place.run).is_err() {
            return Err(AllocError);
        }
        Ok(())
    }

    /// Adds a range to an empty set. It takes no memory.
    pub(crate) fn put_first(&mut self, range: Range)
        requires none { self.old ≡ [] }
        requires some { 1 ≤ range.len }
        requires end { range.offset + range.len < 2 ^ 32 }
        ensures { self.new ≡ range ∷ [] }
    {
        self.runs.push_reserved(range);
    }

    /// Whether each of `len` positions of a segment, from `offset` on, is in the set.
    pub fn covers(&self, segment: u32, offset: u32, len: u32) -> bool
        ensures { IsTrue result ↔ ((k : ℕ) → offset ≤ k → k < offset + len → Has self.now segment k) }
    {
        let range = Range {
            segment,
            offset,
            len,
        };
        len == 0 || some_holds(self.runs.as_slice(), &range)
    }

    /// The runs, ascending by segment and offset, disjoint, and none next to another of its segment.
    pub fn ranges(&self) -> &[Range]
        ensures runs { result.now ≡ self.now }
        ensures canonical { IsCanonical self.now }
        ensures few { length self.now ≤ 64 }
        ensures ends { EndWithin self.now (2 ^ 32 - 1) }
    {
        self.runs.as_slice()
    }

    /// Whether no position is in the set.
    pub fn is_empty(&self) -> bool
        ensures { IsTrue result ↔ ((s k : ℕ) → ¬ Has self.now s k) }
    {
        self.runs.is_empty()
    }
}
