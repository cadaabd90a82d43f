//! The changes of a transaction.
ghost use Rattle.std.specs.Prelude.{◌≡◌, ◌≢◌, ◌↔◌, ◌+◌, ◌-◌, ◌^◌, ◌<◌, ◌≤◌, ℕ, IsTrue, IsOk, length, take, drop, min};
ghost use Rattle.std.specs.Prelude.{slice_index, Some, None, IfOk, OnOk, OnErr, IfErr};
ghost use Rattle.lc_record.specs.Transaction.{is_member};
ghost use Rattle.lc_range.specs.RangeSet.{AddsPositions, EndWithin, IsCanonical, MissesSome, NeedsRunsAbove};
ghost use Rattle.lc_range.specs.Undo.{KeepsOld, LiesBelow};
ghost use Rattle.lc_tx.specs.Images.{IsSame, IsWritten, bytes_of};
ghost use Rattle.lc_tx.specs.Fault.{is_of_lock, is_of_set_range, is_of_read};
ghost use Rattle.lc_tx.specs.Tx.{AreSet, Holds, KeepsSetAlone, Locked, RangeTakesMemory, Reads, RunsOn, SetsRange};

use crate::image::lay;
use crate::lock_mode::LockMode;
use crate::{Images, Tx, TxFault};
use lc_range::{Range, RangeFault, RangeSet};
use std::alloc::Global;

// Whether a number is among these. One alone is looked at straight.
fn is_among(numbers: &[u32], number: u32) -> bool
    ensures { result ≡ is_member number numbers.now }
{
    if let [only] = numbers {
        return *only == number;
    }
    numbers.contains(&number)
}

// Whether so many bytes from an offset on lie among these.
fn lies_within(bytes: &[u8], offset: u32, len: usize) -> bool
    ensures { IsTrue result ↔ (offset + len ≤ length bytes.now) }
{
    len <= bytes.len() && offset as usize <= bytes.len() - len
}

// The bytes of a range of these. None take no memory.
fn copy_of(alloc: Global, bytes: &[u8], offset: u32, len: u32) -> Result<Vec<u8>, TxFault>
    ensures copied { IfOk result (λ v. v.items ≡ take len (drop offset bytes.now)) }
    ensures outside { (result ≡ Err TxFault.OutOfSegment) ↔ (length bytes.now < offset + len) }
    ensures locked { result ≢ Err TxFault.NotLocked }
    ensures no_memory { result ≡ Err TxFault.NoMemory → (0 < len) × (offset + len ≤ length bytes.now) }
    ensures faults { IfErr result (λ fault. IsTrue (is_of_read fault)) }
{
    if !lies_within(bytes, offset, len as usize) {
        return Err(TxFault::OutOfSegment);
    }
    if len == 0 {
        return Ok(Vec::new(alloc));
    }
    let start = offset as usize;
    Vec::from_slice(alloc, &bytes[start..start + len as usize]).map_err(|_| TxFault::NoMemory)
}

impl Tx {
    /// The thread that runs it.
    pub fn thread(&self) -> u16
        ensures { result ≡ self.now.thread }
    {
        self.thread
    }

    /// The segments that it locked for writing, ascending.
    pub fn locked(&self) -> &[u32]
        ensures { result.now ≡ self.now.locked.items }
    {
        self.locked.as_slice()
    }

    /// The segments that it locked for reading, ascending.
    pub fn reading(&self) -> &[u32]
        ensures { result.now ≡ self.now.reading.items }
    {
        self.reading.as_slice()
    }

    /// The positions that it set.
    pub fn set(&self) -> &RangeSet
        ensures { result.now ≡ self.now.set }
    {
        &self.set
    }

    /// The ranges that are set, ascending by segment and offset, each at least one byte long, at most 64.
    pub fn ranges(&self) -> &[Range]
        ensures ranges { result.now ≡ self.now.set }
        ensures canonical { IsCanonical self.now.set }
        ensures few { length self.now.set ≤ 64 }
        ensures ends { EndWithin self.now.set (2 ^ 32 - 1) }
    {
        self.set.ranges()
    }

    // How it locked a segment, if it did.
    fn mode_of(&self, segment: u32) -> Option<LockMode>
        ensures writing { (result ≡ Some LockMode.Exclusive) ↔ Locked self.now segment }
        ensures reading { (result ≡ Some LockMode.Shared) ↔ (Reads self.now segment × ¬ Locked self.now segment) }
        ensures none { (result ≡ None) ↔ ¬ Holds self.now segment }
    {
        if is_among(self.locked(), segment) {
            return Some(LockMode::Exclusive);
        }
        if is_among(self.reading(), segment) {
            return Some(LockMode::Shared);
        }
        None
    }

    // Whether each of so many positions of a segment, from an offset on, is set.
    fn is_set(&self, segment: u32, offset: u32, len: usize) -> bool
        ensures { IsTrue result ↔ AreSet self.now segment offset len }
    {
        let Ok(len) = u32::try_from(len) else {
            // No run has so many.
            let _runs = self.set.ranges();
            return false;
        };
        self.set.covers(segment, offset, len)
    }

    // Sets a range of a segment that has these bytes.
    fn set_bytes(
        &mut self,
        bytes: &[u8],
        segment: u32,
        offset: u32,
        len: u32,
    ) -> Result<(), TxFault>
        requires { 0 < len }
        ensures thread { self.new.thread ≡ self.old.thread }
        ensures locked { self.new.locked ≡ self.old.locked }
        ensures reading { self.new.reading ≡ self.old.reading }
        ensures adds { OnOk result (AddsPositions self.old.set segment offset len self.new.set) }
        ensures keeps { OnOk result (KeepsOld self.old.undo self.old.set segment offset len
            (slice_index bytes.now) self.new.undo) }
        ensures below { OnOk result ((s bound : ℕ) → LiesBelow self.old.undo s bound
            → (s ≡ segment → length bytes.now ≤ bound) → LiesBelow self.new.undo s bound) }
        ensures alone { OnOk result (KeepsSetAlone self.old → KeepsSetAlone self.new) }
        ensures inside { OnOk result (offset + len ≤ length bytes.now) }
        ensures err { OnErr result (self.new ≡ self.old) }
        ensures outside { (result ≡ Err TxFault.OutOfSegment) ↔ (min (length bytes.now) (2 ^ 32 - 1) < offset + len) }
        ensures too_many { (result ≡ Err TxFault.TooManyRanges)
            ↔ ((offset + len ≤ min (length bytes.now) (2 ^ 32 - 1))
            × NeedsRunsAbove 64 self.old.set segment offset len) }
        ensures no_memory { result ≡ Err TxFault.NoMemory → (offset + len ≤ min (length bytes.now) (2 ^ 32 - 1))
            × (¬ NeedsRunsAbove 64 self.old.set segment offset len) × MissesSome self.old.set segment offset len }
        ensures needs { result ≡ Err TxFault.NoMemory → RangeTakesMemory self.old segment offset len }
        ensures not_locked { result ≢ Err TxFault.NotLocked }
        ensures writable { (s : ℕ) → result ≢ Err (TxFault.ReadOnly s) }
        ensures empty { result ≢ Err TxFault.EmptyRange }
        ensures faults { IfErr result (λ fault. IsTrue (is_of_set_range fault)) }
    {
        if !lies_within(bytes, offset, len as usize) || offset.checked_add(len).is_none() {
            return Err(TxFault::OutOfSegment);
        }
        match self
            .set
            .add_kept(&mut self.undo, segment, offset, len, bytes)
        {
            Ok(()) => Ok(()),
            Err(RangeFault::TooManyRanges) => Err(TxFault::TooManyRanges),
            Err(RangeFault::NoMemory) => Err(TxFault::NoMemory),
            Err(RangeFault::EmptyRange) => unreachable!(),
            Err(RangeFault::OutOfSegment) => unreachable!(),
        }
    }

    // Whether it may set a range of this length in a segment, whatever bytes that has.
    fn check_range(&self, segment: u32, len: u32) -> Result<(), TxFault>
        ensures ok { IsOk result ↔ (Locked self.now segment × (0 < len)) }
        ensures not_locked { (result ≡ Err TxFault.NotLocked) ↔ ¬ Holds self.now segment }
        ensures read_only { (s : ℕ) → (result ≡ Err (TxFault.ReadOnly s))
            ↔ (Reads self.now segment × (¬ Locked self.now segment) × (s ≡ segment)) }
        ensures empty { (result ≡ Err TxFault.EmptyRange) ↔ (Locked self.now segment × (len ≡ 0)) }
        ensures faults { IfErr result (λ fault. IsTrue (is_of_lock fault)) }
    {
        match self.mode_of(segment) {
            None => Err(TxFault::NotLocked),
            Some(LockMode::Shared) => Err(TxFault::ReadOnly { segment }),
            Some(LockMode::Exclusive) if len == 0 => Err(TxFault::EmptyRange),
            Some(LockMode::Exclusive) => Ok(()),
        }
    }

    /// Sets `len` bytes of a segment from `offset` on: the transaction may write them, and an abort gives back the
    /// bytes that they had. Ranges that overlap or touch become one. Idea: RVM's set-range (Satyanarayanan et al.,
    /// TOCS 1994).
    ///
    /// # Errors
    ///
    /// `NotLocked`, `ReadOnly`, `EmptyRange`, `OutOfSegment` and `TooManyRanges`, looked at in this order, and
    /// `NoMemory`, only where some byte of the range was not set, and more than 8 runs or 8 copies or 64 old bytes
    /// would be there with it. No range ends beyond 2^32 - 1. The transaction is then as before.
    pub fn set_range<I: Images>(
        &mut self,
        images: &mut I,
        segment: u32,
        offset: u32,
        len: u32,
    ) -> Result<(), TxFault>
        requires runs { RunsOn I.Images images.old self.old }
        ensures sets { OnOk result (SetsRange I.Images images.old self.old segment offset len self.new) }
        ensures images { IsSame I.Images images.old images.new }
        ensures runs { RunsOn I.Images images.new self.new }
        ensures err { OnErr result (self.new ≡ self.old) }
        ensures not_locked { (result ≡ Err TxFault.NotLocked) ↔ ¬ Holds self.old segment }
        ensures read_only { (s : ℕ) → (result ≡ Err (TxFault.ReadOnly s)) ↔ (Reads self.old segment × (s ≡ segment)) }
        ensures empty { (result ≡ Err TxFault.EmptyRange) ↔ (Locked self.old segment × (len ≡ 0)) }
        ensures outside { (result ≡ Err TxFault.OutOfSegment) ↔ (Locked self.old segment × (0 < len)
            × (min (length (bytes_of I.Images images.old segment)) (2 ^ 32 - 1) < offset + len)) }
        ensures too_many { (result ≡ Err TxFault.TooManyRanges) ↔ (Locked self.old segment × (0 < len)
            × (offset + len ≤ min (length (bytes_of I.Images images.old segment)) (2 ^ 32 - 1))
            × NeedsRunsAbove 64 self.old.set segment offset len) }

        // Memory is wanted only where none of these is the case, and some byte was not set.
        ensures no_memory { result ≡ Err TxFault.NoMemory → Locked self.old segment × (0 < len)
            × (offset + len ≤ min (length (bytes_of I.Images images.old segment)) (2 ^ 32 - 1))
            × (¬ NeedsRunsAbove 64 self.old.set segment offset len) × MissesSome self.old.set segment offset len }

        // Nor is it for 8 runs, and 8 copies of 64 old bytes in all.
        ensures needs { result ≡ Err TxFault.NoMemory → RangeTakesMemory self.old segment offset len }
        ensures faults { IfErr result (λ fault. IsTrue (is_of_set_range fault)) }
    {
        self.check_range(segment, len)?;
        let image = images.image(segment);
        self.set_bytes(image.bytes(), segment, offset, len)
    }

    // Whether the bytes of a write lie in the segment's, and are set.
    fn check_write(
        &self,
        image: &[u8],
        segment: u32,
        offset: u32,
        len: usize,
    ) -> Result<(), TxFault>
        ensures ok { IsOk result ↔ ((offset + len ≤ length image.now) × AreSet self.now segment offset len) }
        ensures outside { (result ≡ Err TxFault.OutOfSegment) ↔ (length image.now < offset + len) }
        ensures no_range { (result ≡ Err TxFault.NoRange)
            ↔ ((offset + len ≤ length image.now) × ¬ AreSet self.now segment offset len) }
        ensures not_locked { result ≢ Err TxFault.NotLocked }
        ensures writable { (s : ℕ) → result ≢ Err (TxFault.ReadOnly s) }
        ensures no_memory { result ≢ Err TxFault.NoMemory }
    {
        if !lies_within(image, offset, len) {
            return Err(TxFault::OutOfSegment);
        }
        if !self.is_set(segment, offset, len) {
            return Err(TxFault::NoRange);
        }
        Ok(())
    }

    /// Writes bytes over those of a segment from `offset` on, each at a position that it set. It takes no memory.
    ///
    /// # Errors
    ///
    /// `NotLocked`, `ReadOnly`, `OutOfSegment` and `NoRange`, looked at in this order. The images are then as before.
    pub fn write<I: Images>(
        &self,
        images: &mut I,
        segment: u32,
        offset: u32,
        bytes: &[u8],
    ) -> Result<(), TxFault>
        requires runs { RunsOn I.Images images.old self.now }
        ensures written { OnOk result (IsWritten I.Images images.old segment offset bytes.now images.new) }
        ensures runs { RunsOn I.Images images.new self.now }
        ensures err { OnErr result (IsSame I.Images images.old images.new) }
        ensures ok { IsOk result ↔ (Locked self.now segment
            × (offset + length bytes.now ≤ length (bytes_of I.Images images.old segment))
            × AreSet self.now segment offset (length bytes.now)) }
        ensures not_locked { (result ≡ Err TxFault.NotLocked) ↔ ¬ Holds self.now segment }
        ensures read_only { (s : ℕ) → (result ≡ Err (TxFault.ReadOnly s)) ↔ (Reads self.now segment × (s ≡ segment)) }
        ensures outside { (result ≡ Err TxFault.OutOfSegment) ↔ (Locked self.now segment
            × (length (bytes_of I.Images images.old segment) < offset + length bytes.now)) }
        ensures no_range { (result ≡ Err TxFault.NoRange) ↔ (Locked self.now segment
            × (offset + length bytes.now ≤ length (bytes_of I.Images images.old segment))
            × ¬ AreSet self.now segment offset (length bytes.now)) }
        ensures no_memory { result ≢ Err TxFault.NoMemory }
    {
        // What is set is locked for writing, and lies in the segment.
        if !bytes.is_empty() && self.is_set(segment, offset, bytes.len()) {
            images.image(segment).set(offset, bytes);
            return Ok(());
        }
        match self.mode_of(segment) {
            None => return Err(TxFault::NotLocked),
            Some(LockMode::Shared) => return Err(TxFault::ReadOnly { segment }),
            Some(LockMode::Exclusive) => {}
        }
        let image = images.image(segment);
        self.check_write(image.bytes(), segment, offset, bytes.len())?;
        lay(image.bytes.as_mut_slice(), offset, bytes);
        Ok(())
    }

    /// The `len` bytes of a segment from `offset` on, which it locked for writing or for reading.
    ///
    /// # Errors
    ///
    /// `NotLocked` and `OutOfSegment`, looked at in this order, and `NoMemory`, which no bytes want.
    pub fn read<I: Images>(
        &self,
        alloc: Global,
        images: &mut I,
        segment: u32,
        offset: u32,
        len: u32,
    ) -> Result<Vec<u8>, TxFault>
        requires runs { RunsOn I.Images images.old self.now }
        ensures bytes { IfOk result (λ v. v.items ≡ take len (drop offset (bytes_of I.Images images.old segment))) }
        ensures images { IsSame I.Images images.old images.new }
        ensures runs { RunsOn I.Images images.new self.now }
        ensures not_locked { (result ≡ Err TxFault.NotLocked) ↔ ¬ Holds self.now segment }
        ensures outside { (result ≡ Err TxFault.OutOfSegment) ↔ (Holds self.now segment
            × (length (bytes_of I.Images images.old segment) < offset + len)) }
        ensures no_memory { result ≡ Err TxFault.NoMemory → Holds self.now segment × (0 < len)
            × (offset + len ≤ length (bytes_of I.Images images.old segment)) }
        ensures faults { IfErr result (λ fault. IsTrue (is_of_read fault)) }
    {
        if self.mode_of(segment).is_none() {
            return Err(TxFault::NotLocked);
        }
        let image = images.image(segment);
        copy_of(alloc, image.bytes(), offset, len)
    }
}
