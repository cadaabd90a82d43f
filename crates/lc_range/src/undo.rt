//! The old bytes of a transaction, which an abort puts back.
ghost use Rattle.std.specs.Prelude.{◌≡◌, ◌⊎◌, ◌+◌, ◌-◌, ◌^◌, ◌<◌, ◌≤◌, ℕ, [], ◌∷◌, length, min, slice_index, unwrap_or};
ghost use Rattle.std.specs.Prelude.{OnOk, OnErr};
ghost use Rattle.lc_range.specs.RangeSet.{CountsOutside, EndWithin, IsCanonical, MissesSome};
ghost use Rattle.lc_range.specs.Undo.{AddsCopies, KeepsOld, LiesBelow, NeedsBytesAbove, NeedsCopiesAbove, TakeMemory};
ghost use Rattle.lc_range.specs.Undo.{bytes_kept, first_bytes, kept};
ghost use Rattle.lc_range.specs.Copies.{copy_at, with_copies};
ghost use Rattle.lc_range.specs.Walk.{parts_of, piece};
ghost use Rattle.lc_range.specs.Touched.{IsTouched};

use crate::copies::{add, cut_back, put_back};
use crate::runs::{remove_all, touched};
use crate::touched::Touched;
use crate::{Range, RangeSet};
use smallvec::SmallVec;
use std::alloc::{AllocError, Global};
use std::marker::Model;

/// Copies of old bytes, which contracts see as a list of copies in the order in which they were made. `kept` says
/// which byte is kept of a position: that of the first copy that has it. Bytes that continue the last copy are added
/// to it. It takes no memory for 8 copies of 64 bytes in all, for which it is 192 bytes large.
/// Idea: the old values that RVM keeps in memory for an abort (Satyanarayanan et al., TOCS 1994).
#[derive(Drop)]
pub struct Undo {
    ranges: SmallVec<Range, 8>,
    bytes: SmallVec<u8, 64>,
}

impl Model for Undo {
    ghost use Rattle.std.specs.Prelude.{List};
    ghost use Rattle.lc_range.specs.Undo.{OldBytes};

    ghost Value = { List OldBytes };

    ghost use Rattle.lc_range.specs.Copies.{AreKept, copies_of};

    ghost view = { λ a. copies_of a.ranges.items a.bytes.items };

    ghost invariant = { λ a. AreKept a.ranges a.bytes };
}

impl Undo {
    /// Nothing is kept, and no memory is taken.
    pub fn new(alloc: Global) -> Self
        ensures { result ≡ [] }
    {
        Undo {
            ranges: SmallVec::new(alloc),
            bytes: SmallVec::new(alloc),
        }
    }

    /// Nothing is kept any more. The memory that the copies have taken is kept for others.
    pub fn clear(&mut self)
        ensures { self.new ≡ [] }
    {
        remove_all(&mut self.ranges);
        self.bytes.clear();
    }

    /// Keeps the bytes of `len` positions of a segment from `offset` on that are not in the set, as the segment's image
    /// has them. What was kept before stays. As in a `RangeSet`, no range ends beyond 2^32 - 1.
    ///
    /// # Errors
    ///
    /// Where there is no memory; what is kept is then as before. Memory is wanted only where there is a byte to keep,
    /// and more than 8 copies would be there with it or more than 64 bytes.
    pub fn keep_old(
        &mut self,
        set: &RangeSet,
        segment: u32,
        offset: u32,
        len: u32,
        image: &[u8],
    ) -> Result<(), AllocError>
        requires { offset + len ≤ min (length image.now) (2 ^ 32 - 1) }

        // Of each position: what was kept; else the image's byte, in the range and outside of the set; else nothing.
        ensures kept { OnOk result
            (KeepsOld self.old set.now segment offset len (slice_index image.now) self.new) }

        // The bytes that were there stand in front, in the same copies.
        ensures front { OnOk result (first_bytes (bytes_kept self.old) self.new ≡ self.old) }

        // Only those bytes are copied.
        ensures count { OnOk result ((n : ℕ) × CountsOutside set.now segment offset len n
            × (bytes_kept self.new ≡ bytes_kept self.old + n)) }

        // Bytes in a row are one copy, and go to the last one where they continue it.
        ensures copies { OnOk result (AddsCopies self.old set.now segment offset len self.new) }

        // What is kept stays below a bound, if the range does.
        ensures below { OnOk result ((s bound : ℕ) → LiesBelow self.old s bound
            → (s ≡ segment → offset + len ≤ bound) → LiesBelow self.new s bound) }

        ensures err { OnErr result (self.new ≡ self.old) }

        // Memory is wanted only for a copy, beside 8 at least or 64 bytes.
        ensures memory { OnErr result (MissesSome set.now segment offset len) }
        ensures needs { OnErr result (NeedsCopiesAbove 8 self.old set.now segment offset len
            ⊎ NeedsBytesAbove 64 self.old set.now segment offset len) }
    {
        let range = Range {
            segment,
            offset,
            len,
        };
        let place = touched(set.ranges(), &range);
        self.keep_at(set, &place, image)
    }

    /// Keeps the old bytes of the range that has this place among the runs of the set, as `keep_old` does.
    pub(crate) fn keep_at(
        &mut self,
        set: &RangeSet,
        place: &Touched,
        image: &[u8],
    ) -> Result<(), AllocError>
        requires place { IsTouched set.now place.now }
        requires within { place.now.range.offset + place.now.range.len ≤ min (length image.now) (2 ^ 32 - 1) }
        ensures kept { OnOk result
            (KeepsOld self.old set.now place.now.range.segment place.now.range.offset place.now.range.len
            (slice_index image.now) self.new) }
        ensures front { OnOk result (first_bytes (bytes_kept self.old) self.new ≡ self.old) }
        ensures count { OnOk result ((n : ℕ)
            × CountsOutside set.now place.now.range.segment place.now.range.offset place.now.range.len n
            × (bytes_kept self.new ≡ bytes_kept self.old + n)) }
        ensures copies { OnOk result
            (AddsCopies self.old set.now place.now.range.segment place.now.range.offset place.now.range.len self.new) }
        ensures below { OnOk result ((s bound : ℕ) → LiesBelow self.old s bound
            → (s ≡ place.now.range.segment → place.now.range.offset + place.now.range.len ≤ bound)
            → LiesBelow self.new s bound) }
        ensures err { OnErr result (self.new ≡ self.old) }
        ensures memory { OnErr result
            (MissesSome set.now place.now.range.segment place.now.range.offset place.now.range.len) }
        ensures needs { OnErr result
            (NeedsCopiesAbove 8 self.old set.now place.now.range.segment place.now.range.offset place.now.range.len
            ⊎ NeedsBytesAbove 64 self.old set.now place.now.range.segment place.now.range.offset place.now.range.len) }
    {
        let before = self.len();
        let done = self.keep_outside(set.ranges(), place, image);
        if done.is_err() {
            self.truncate(before);
        }
        done
    }

    /// Keeps the bytes of a range where nothing is kept yet. It takes no memory for 64 bytes.
    pub(crate) fn keep_first(&mut self, range: Range, image: &[u8]) -> Result<(), AllocError>
        requires none { self.old ≡ [] }
        requires some { 1 ≤ range.len }
        requires within { range.offset + range.len ≤ length image.now }
        ensures ok { OnOk result (self.new ≡ copy_at image.now range ∷ []) }
        ensures err { OnErr result (self.new ≡ self.old) }
        ensures needs { OnErr result (64 < range.len) }
    {
        let start = range.offset as usize;
        self.bytes
            .extend_from_slice(&image[start..start + range.len as usize])?;
        self.ranges.push_reserved(range);
        Ok(())
    }

    // Keeps the bytes of the range that has this place, at the positions that no run has.
    fn keep_outside(
        &mut self,
        runs: &[Range],
        place: &Touched,
        image: &[u8],
    ) -> Result<(), AllocError>
        requires canonical { IsCanonical runs.now }
        requires ends { EndWithin runs.now (2 ^ 32 - 1) }
        requires place { IsTouched runs.now place.now }
        requires within { place.now.range.offset + place.now.range.len ≤ min (length image.now) (2 ^ 32 - 1) }
        ensures ok { OnOk result (self.new ≡ with_copies self.old image.now (parts_of place.now.range runs.now)) }
        ensures front { (n : ℕ) → n ≤ bytes_kept self.old → first_bytes n self.new ≡ first_bytes n self.old }
        ensures memory { OnErr result (1 ≤ length (parts_of place.now.range runs.now)) }
        ensures needs { OnErr result (TakeMemory (with_copies self.old image.now (parts_of place.now.range runs.now))) }
    {
        let range = place.range;
        let mut from = range.offset;
        for run in &runs[place.start..] {
            if range.is_before(run) {
                break;
            }
            self.keep(range.segment, from, run.offset, image)?;
            from = run.offset + run.len;
        }
        self.keep(range.segment, from, range.offset + range.len, image)
    }

    // Keeps the bytes of the positions from one on up to another, if there are some.
    fn keep(&mut self, segment: u32, from: u32, to: u32, image: &[u8]) -> Result<(), AllocError>
        requires { to ≤ length image.now }
        ensures ok { OnOk result (self.new ≡ with_copies self.old image.now (piece segment from to)) }
        ensures err { OnErr result (self.new ≡ self.old) }
        ensures memory { OnErr result (from < to) }
        ensures needs { OnErr result (TakeMemory (with_copies self.old image.now (piece segment from to))) }
    {
        if from < to {
            let range = Range {
                segment,
                offset: from,
                len: to - from,
            };
            add(
                &mut self.ranges,
                &mut self.bytes,
                range,
                &image[from as usize..to as usize],
            )?;
        }
        Ok(())
    }

    /// How many copies there are.
    pub fn copies(&self) -> usize
        ensures { result ≡ length self.now }
    {
        self.ranges.len()
    }

    /// How many bytes are kept.
    pub fn len(&self) -> usize
        ensures bytes { result ≡ bytes_kept self.now }
        ensures all { first_bytes result self.now ≡ self.now }
    {
        self.bytes.len()
    }

    /// Keeps the first `len` bytes alone, or all where there are fewer. It takes no memory.
    pub fn truncate(&mut self, len: usize)
        ensures { self.new ≡ first_bytes len self.old }
    {
        cut_back(&mut self.ranges, self.bytes.len(), len);
        self.bytes.truncate(len);
    }

    /// Puts the bytes that are kept of a segment back into its image. It takes no memory.
    pub fn restore(&self, segment: u32, image: &mut [u8])
        requires { LiesBelow self.now segment (length image.old) }
        ensures len { length image.new ≡ length image.old }
        ensures bytes { (k : ℕ) → slice_index image.new k
            ≡ unwrap_or (kept self.now segment k) (slice_index image.old k) }
    {
        put_back(
            self.ranges.as_slice(),
            self.bytes.as_slice(),
            segment,
            image,
        );
    }
}
