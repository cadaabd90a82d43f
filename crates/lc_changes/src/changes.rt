//! What an open transaction has changed of images that its caller keeps.
ghost use Rattle.std.specs.Prelude.{◌≡◌, ◌↔◌, ◌+◌, ◌<◌, ◌≤◌, ◌++◌, ℕ, [], length, slice_index, unwrap_or};
ghost use Rattle.std.specs.Prelude.{IfErr, IsOk, IsTrue, OnErr, OnOk};
ghost use Rattle.lc_record.specs.Content.{put};
ghost use Rattle.lc_range.specs.RangeSet.{AddsPositions, EndWithin, IsCanonical, MissesSome, NeedsRunsAbove};
ghost use Rattle.lc_range.specs.Undo.{KeepsOld, kept};
ghost use Rattle.lc_changes.specs.Setting.{is_of_set, is_of_write, AreSet, RangeTakesMemory};
ghost use Rattle.lc_changes.specs.Gathering.{bytes_at};

use crate::gathering::add_bytes;
use lc_range::{Range, RangeFault, RangeSet, Undo};
use lc_tx::TxFault;
use std::alloc::{AllocError, Global};
use std::marker::Model;

/// What an open transaction has changed of images that its caller keeps: the positions that it set, the bytes that
/// these had, and, once gathered for a commit, those that they have. An image is the bytes of a segment, as a plain
/// array; all of them have one length. Idea: RVM, whose transactions work in the program's memory (Satyanarayanan et
/// al., TOCS 1994).
#[derive(Drop)]
pub struct Changes {
    set: RangeSet,
    undo: Undo,
    image_len: u32,
    values: Vec<u8>,
}

impl Model for Changes {
    ghost use Rattle.lc_changes.specs.ChangesView.{ChangesView};

    ghost Value = { ChangesView };

    ghost use Rattle.lc_changes.specs.Changes.{changes_view, IsChanges};

    ghost view = { changes_view };

    ghost invariant = { IsChanges };
}

impl Changes {
    /// Nothing is set, in images of so many bytes. It takes no memory.
    pub fn new(alloc: Global, image_len: u32) -> Changes
        ensures { result ≡ record { set = []; undo = []; image_len = image_len; values = [] } }
    {
        Changes {
            set: RangeSet::new(alloc),
            undo: Undo::new(alloc),
            image_len,
            values: Vec::new(alloc),
        }
    }

    /// How many bytes an image has.
    pub fn image_len(&self) -> u32
        ensures { result ≡ self.now.image_len }
    {
        self.image_len
    }

    /// The ranges that are set, ascending by segment and offset, each at least one byte long, at most 64.
    pub fn ranges(&self) -> &[Range]
        ensures ranges { result.now ≡ self.now.set }
        ensures canonical { IsCanonical self.now.set }
        ensures few { length self.now.set ≤ 64 }
        ensures ends { EndWithin self.now.set self.now.image_len }
    {
        self.set.ranges()
    }

    /// The bytes that were gathered, one range after another.
    pub fn values(&self) -> &[u8]
        ensures { result.now ≡ self.now.values }
    {
        self.values.as_slice()
    }

    /// Sets `len` bytes of a segment's image from `offset` on: the transaction may change them, and an abort gives back
    /// those that they had. Ranges that overlap or touch become one. Idea: RVM's set-range (Satyanarayanan et al., TOCS
    /// 1994).
    ///
    /// # Errors
    ///
    /// `EmptyRange`, `OutOfSegment` and `TooManyRanges`, looked at in this order, and `NoMemory`, only where some byte
    /// of the range was not set, and more than 8 runs or 8 copies or 64 old bytes would be there with it. All is then
    /// as before.
    pub fn set_range(
        &mut self,
        segment: u32,
        image: &[u8],
        offset: u32,
        len: u32,
    ) -> Result<(), TxFault>
        requires { length image.now ≡ self.old.image_len }
        ensures sets { OnOk result (AddsPositions self.old.set segment offset len self.new.set) }
        ensures kept { OnOk result (KeepsOld self.old.undo self.old.set segment offset len (slice_index image.now)
            self.new.undo) }
        ensures image_len { self.new.image_len ≡ self.old.image_len }
        ensures values { self.new.values ≡ self.old.values }
        ensures err { OnErr result (self.new ≡ self.old) }
        ensures empty { (result ≡ Err TxFault.EmptyRange) ↔ (len ≡ 0) }
        ensures outside { (result ≡ Err TxFault.OutOfSegment) ↔ ((0 < len) × (self.old.image_len < offset + len)) }
        ensures too_many { (result ≡ Err TxFault.TooManyRanges) ↔ ((0 < len) × (offset + len ≤ self.old.image_len)
            × NeedsRunsAbove 64 self.old.set segment offset len) }
        ensures no_memory { result ≡ Err TxFault.NoMemory → (0 < len) × (offset + len ≤ self.old.image_len)
            × (¬ NeedsRunsAbove 64 self.old.set segment offset len) × MissesSome self.old.set segment offset len }

        // Nor is memory wanted for 8 runs, and 8 copies of 64 old bytes in all.
        ensures needs { result ≡ Err TxFault.NoMemory
            → RangeTakesMemory self.old.set self.old.undo segment offset len }
        ensures faults { IfErr result (λ fault. IsTrue (is_of_set fault)) }
    {
        if len == 0 {
            return Err(TxFault::EmptyRange);
        }
        if u64::from(offset) + u64::from(len) > u64::from(self.image_len) {
            return Err(TxFault::OutOfSegment);
        }
        match self
            .set
            .add_kept(&mut self.undo, segment, offset, len, image)
        {
            Ok(()) => Ok(()),
            Err(RangeFault::TooManyRanges) => Err(TxFault::TooManyRanges),
            Err(RangeFault::NoMemory) => Err(TxFault::NoMemory),
            Err(RangeFault::EmptyRange) => unreachable!(),
            Err(RangeFault::OutOfSegment) => unreachable!(),
        }
    }

    /// Writes bytes over those of a segment's image from `offset` on, each at a position that is set. It takes no
    /// memory.
    ///
    /// # Errors
    ///
    /// `OutOfSegment` and `NoRange`, looked at in this order. The image is then as before.
    pub fn write(
        &self,
        segment: u32,
        image: &mut [u8],
        offset: u32,
        bytes: &[u8],
    ) -> Result<(), TxFault>
        requires { length image.old ≡ self.now.image_len }
        ensures written { OnOk result (image.new ≡ put offset bytes.now image.old) }
        ensures ok { IsOk result ↔ ((offset + length bytes.now ≤ self.now.image_len)
            × AreSet self.now.set segment offset (length bytes.now)) }
        ensures outside { (result ≡ Err TxFault.OutOfSegment) ↔ (self.now.image_len < offset + length bytes.now) }
        ensures no_range { (result ≡ Err TxFault.NoRange) ↔ ((offset + length bytes.now ≤ self.now.image_len)
            × ¬ AreSet self.now.set segment offset (length bytes.now)) }
        ensures err { OnErr result (image.new ≡ image.old) }
        ensures faults { IfErr result (λ fault. IsTrue (is_of_write fault)) }
    {
        let start = offset as usize;
        let len = bytes.len();
        let image_len = self.image_len as usize;
        if len > image_len || start > image_len - len {
            return Err(TxFault::OutOfSegment);
        }
        if !self.set.covers(segment, offset, len as u32) {
            return Err(TxFault::NoRange);
        }
        image[start..start + len].copy_from_slice(bytes);
        Ok(())
    }

    /// Puts back the bytes that a segment's image had before the transaction. It takes no memory.
    pub fn restore(&self, segment: u32, image: &mut [u8])
        requires { length image.old ≡ self.now.image_len }
        ensures len { length image.new ≡ length image.old }
        ensures bytes { (k : ℕ) → slice_index image.new k
            ≡ unwrap_or (kept self.now.undo segment k) (slice_index image.old k) }
    {
        self.undo.restore(segment, image);
    }

    /// Nothing is set any more, and nothing kept or gathered. The memory is kept for the next transaction.
    pub fn clear(&mut self)
        ensures { self.new ≡ record { set = []; undo = []; image_len = self.old.image_len; values = [] } }
    {
        self.set.clear();
        self.undo.clear();
        self.values.clear();
    }

    /// Forgets what was gathered. The memory is kept.
    pub fn gather_none(&mut self)
        ensures { self.new ≡ record self.old { values = [] } }
    {
        self.values.clear();
    }

    /// Adds the bytes that a segment's image has at the ranges that are set there, ascending, to those that were
    /// gathered. A commit wants those of each segment, gathered once, in ascending order.
    ///
    /// # Errors
    ///
    /// Where there is no memory. All is then as before.
    pub fn gather(&mut self, segment: u32, image: &[u8]) -> Result<(), AllocError>
        requires { length image.now ≡ self.old.image_len }
        ensures ok { OnOk result (self.new
            ≡ record self.old { values = self.old.values ++ bytes_at segment image.now self.old.set }) }
        ensures err { OnErr result (self.new ≡ self.old) }
        ensures memory { OnErr result (0 < length (bytes_at segment image.now self.old.set)) }
    {
        let before = self.values.len();
        let done = add_bytes(&mut self.values, self.set.ranges(), segment, image);
        if done.is_err() {
            self.values.truncate(before);
        }
        done
    }
}
