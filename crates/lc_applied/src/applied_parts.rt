//! The parts of records that were applied at a segment.
ghost use Rattle.std.specs.Prelude.{◌≡◌, ◌==◌, ◌↔◌, ◌+◌, ◌-◌, ◌^◌, ◌<◌, ◌≤◌, ◌++◌, ◌∷◌, [], length, IsTrue, OnOk};
ghost use Rattle.std.specs.Prelude.{OnErr};
ghost use Rattle.lc_range.specs.RangeSet.{EndWithin, total_len};
ghost use Rattle.lc_applied.specs.AppliedParts.{HasRoom, HasRoomFor, laid_parts, part_of_runs, runs_of};

use crate::applied_part::AppliedPart;
use crate::run_totals::RunTotals;
use crate::runs::add_runs;
use lc_range::Range;
use lc_record::Part;
use lc_tx::Image;
use std::alloc::{AllocError, Global};
use std::marker::Model;

/// The parts of records that were applied at a segment, one after another. Of a part that was made here, the runs and
/// their bytes lie after those of the parts before it, in lists that live on. So it takes no block of memory of its
/// own. A part that came from a peer is kept as it is. This project's own.
#[derive(Drop)]
pub struct AppliedParts {
    entries: Vec<AppliedPart>,
    runs: Vec<Range>,
    bytes: Vec<u8>,
}

impl Model for AppliedParts {
    ghost use Rattle.std.specs.Prelude.{◌-◌, vec_len, vec_capacity};
    ghost use Rattle.lc_applied.specs.AppliedParts.{Applied};

    ghost Value = { Applied };

    ghost use Rattle.lc_applied.specs.AppliedPart.{parts_of, AreUsedUp};

    ghost view = { λ a. record {
      parts = parts_of a.entries.items a.runs.items a.bytes.items;
      room = vec_capacity a.entries;
      runs_left = vec_capacity a.runs - vec_len a.runs;
      bytes_left = vec_capacity a.bytes - vec_len a.bytes;
    } };

    ghost invariant = { λ a. AreUsedUp a.entries.items a.runs.items a.bytes.items };
}

impl AppliedParts {
    /// No part. It takes no memory.
    pub fn new(alloc: Global) -> Self
        ensures parts { result.parts ≡ [] }
        ensures room { result.room ≡ 0 }
        ensures runs_left { result.runs_left ≡ 0 }
        ensures bytes_left { result.bytes_left ≡ 0 }
    {
        AppliedParts {
            entries: Vec::new(alloc),
            runs: Vec::new(alloc),
            bytes: Vec::new(alloc),
        }
    }

    /// How many parts there are.
    pub fn len(&self) -> usize
        ensures { result ≡ length self.now.parts }
    {
        self.entries.len()
    }

    /// Whether there is no part.
    pub fn is_empty(&self) -> bool
        ensures { result ≡ (length self.now.parts == 0) }
    {
        self.entries.is_empty()
    }

    /// Makes room for so many parts more. It asks for memory exactly where there is less room, and then for more the
    /// more parts there are already.
    ///
    /// # Errors
    ///
    /// `AllocError` where memory is wanted. Nothing has changed.
    pub fn reserve(&mut self, more: usize) -> Result<(), AllocError>
        ensures kept { self.new ≡ record self.old { room = self.new.room } }
        ensures room { self.old.room ≤ self.new.room }
        ensures made { OnOk result (length self.new.parts + more ≤ self.new.room) }
        ensures there { length self.old.parts + more ≤ self.old.room → self.new ≡ self.old }
        ensures refused { OnErr result ((self.old.room < length self.old.parts + more) × (self.new ≡ self.old)) }
    {
        if more <= self.entries.capacity() - self.entries.len() {
            return Ok(());
        }
        self.entries.reserve(more)
    }

    /// Makes room for the part that these runs have of a segment. It asks for memory exactly where there is less room.
    ///
    /// # Errors
    ///
    /// `AllocError` where memory is wanted. The parts are as before, and there is no less room.
    pub fn reserve_runs(&mut self, segment: u32, runs: &[Range]) -> Result<(), AllocError>
        ensures parts { self.new.parts ≡ self.old.parts }
        ensures room { self.old.room ≤ self.new.room }
        ensures runs_left { self.old.runs_left ≤ self.new.runs_left }
        ensures bytes_left { self.old.bytes_left ≤ self.new.bytes_left }
        ensures made { OnOk result (HasRoomFor segment runs.now self.new) }
        ensures there { HasRoomFor segment runs.now self.old → self.new ≡ self.old }
        ensures refused { OnErr result (HasRoomFor segment runs.now self.old → ⊥) }
    {
        let size = RunTotals::of(segment, runs);
        if self.has_room(size) {
            return Ok(());
        }
        self.grow(size)
    }

    // Whether there is room for a part of this size.
    fn has_room(&self, size: RunTotals) -> bool
        ensures room { IsTrue result ↔ HasRoom size.runs size.bytes self.now }
        ensures small { self.now.bytes_left < 2 ^ 63 }
    {
        if self.entries.len() == self.entries.capacity() {
            return false;
        }
        let runs_left = self.runs.capacity() - self.runs.len();
        let bytes_left = self.bytes.capacity() - self.bytes.len();
        size.runs <= runs_left && size.bytes <= bytes_left
    }

    // Makes room for a part of this size.
    fn grow(&mut self, size: RunTotals) -> Result<(), AllocError>
        ensures parts { self.new.parts ≡ self.old.parts }
        ensures room { self.old.room ≤ self.new.room }
        ensures runs_left { self.old.runs_left ≤ self.new.runs_left }
        ensures bytes_left { self.old.bytes_left ≤ self.new.bytes_left }
        ensures made { OnOk result (HasRoom size.runs size.bytes self.new) }
        ensures small { self.new.bytes_left < 2 ^ 63 }
    {
        self.entries.reserve(1)?;
        self.runs.reserve(size.runs)?;
        self.bytes.reserve(size.bytes)
    }

    /// Adds a part, for which there is room, as it is. It takes no memory.
    pub fn push(&mut self, part: Part)
        requires { length self.old.parts < self.old.room }
        ensures { self.new ≡ record self.old { parts = self.old.parts ++ part ∷ [] } }
    {
        self.entries.push_reserved(AppliedPart::Given(part));
    }

    /// Adds the part that these runs have of a segment, under a number, with the bytes that the segment's image has in
    /// them. There is room for it, so it takes no memory.
    pub fn push_runs(&mut self, segment: u32, seq: u64, runs: &[Range], image: &[u8])
        requires room { HasRoomFor segment runs.now self.old }
        requires within { EndWithin (runs_of segment runs.now) (length image.now) }
        ensures parts { self.new.parts ≡ self.old.parts ++ part_of_runs segment seq runs.now image.now ∷ [] }
        ensures room { self.new.room ≡ self.old.room }
        ensures runs_left { self.new.runs_left ≡ self.old.runs_left - length (runs_of segment runs.now) }
        ensures bytes_left { self.old.bytes_left ≤ self.new.bytes_left + total_len (runs_of segment runs.now) }
    {
        let count = add_runs(&mut self.runs, &mut self.bytes, segment, runs, image);
        let own = AppliedPart::Own {
            segment,
            seq,
            runs: count,
        };
        self.entries.push_reserved(own);
    }

    /// Lays the bytes of the parts over those of an image, the first part first. What reaches past them is left out. It
    /// takes no memory.
    pub fn lay_on(&self, image: &mut Image)
        ensures bytes { image.new.bytes.items ≡ laid_parts self.now.parts image.old.bytes.items }
        ensures holders { image.new.holders ≡ image.old.holders }
    {
        let mut runs = self.runs.as_slice();
        let mut bytes = self.bytes.as_slice();
        for entry in self.entries.as_slice() {
            (runs, bytes) = entry.lay_on(runs, bytes, image);
        }
    }

    /// No part is kept any more. The memory of the lists is kept for others.
    pub fn clear(&mut self)
        ensures parts { self.new.parts ≡ [] }
        ensures room { self.new.room ≡ self.old.room }
        ensures runs_left { self.old.runs_left ≤ self.new.runs_left }
        ensures bytes_left { self.old.bytes_left ≤ self.new.bytes_left }
    {
        self.entries.clear();
        self.runs.clear();
        self.bytes.clear();
    }
}
