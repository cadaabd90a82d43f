//! An area in memory, which never fails.
ghost use Rattle.std.specs.Prelude.{◌≡◌, ◌+◌, ◌≤◌, ◌<◌, ◌^◌, ℕ, Bool, true, false, [], length, replicate};
ghost use Rattle.std.specs.Prelude.{slice_index_or, take, drop, Ok, IfOk, OnErr};
ghost use Rattle.std.proofs.Common.{rules};
ghost use Rattle.lc_disk.specs.Area.{IsImage, IsSameOutside, BecomeDirty, IsClean, overlaid};
ghost use Rattle.lc_disk.specs.Span.{IsSpan};
ghost use Rattle.lc_disk.specs.Stop.{left_by_stop};
ghost use Rattle.lc_disk.specs.Tally.{tallied};

use crate::{Area, Choice, DeviceFault, Stoppable, Tally};
use std::alloc::{AllocError, Global};
use std::ops::Range;

/// Bytes in memory, always honest: what a read gives, what stood there after the last sync, and which positions were
/// written since. `new` and `from_bytes` take memory, and no other call does.
#[derive(Drop)]
pub struct MemArea {
    bytes: Vec<u8>,
    stable: Vec<u8>,
    dirty: Vec<bool>,
    // From the first dirty position to the place after the last.
    span: Range<usize>,
    calls: Tally,
    ghost fits: { (k : ℕ) → slice_index_or bytes.items k 0 < 256 },
    ghost same_stable: { length stable.items ≡ length bytes.items },
    ghost same_dirty: { length dirty.items ≡ length bytes.items },
    // What is not dirty is stable as it reads.
    ghost settled: { (k : ℕ) → slice_index_or dirty.items k false ≡ false
        → slice_index_or stable.items k 0 ≡ slice_index_or bytes.items k 0 },
    ghost spans: { IsSpan span.start span.end (λ k. slice_index_or dirty.items k false) },
    ghost within: { span.end ≤ length bytes.items },
}

impl MemArea {
    ghost use Rattle.lc_disk.specs.MemArea.{memory_calls, memory_dirty, memory_now, memory_stable, KeepsMemory};

    /// Zeros, all of them stable.
    pub fn new(alloc: Global, len: usize) -> Result<Self, AllocError>
        ensures bytes { IfOk result (λ m. memory_now m ≡ replicate len 0) }
        ensures stable { IfOk result (λ m. memory_stable m ≡ replicate len 0) }
        ensures clean { IfOk result (λ m. (k : ℕ) → memory_dirty m k ≡ false) }
        ensures calls { IfOk result (λ m. memory_calls m ≡ 0) }
        ensures memory { OnErr result (0 < len) }
    {
        Ok(MemArea {
            bytes: filled(alloc, 0, len)?,
            stable: filled(alloc, 0, len)?,
            dirty: filled(alloc, false, len)?,
            span: 0..0,
            calls: Tally::new(),
        })
    }

    /// These bytes, all of them stable.
    pub fn from_bytes(alloc: Global, bytes: &[u8]) -> Result<Self, AllocError>
        ensures bytes { IfOk result (λ m. memory_now m ≡ bytes.now) }
        ensures stable { IfOk result (λ m. memory_stable m ≡ bytes.now) }
        ensures clean { IfOk result (λ m. (k : ℕ) → memory_dirty m k ≡ false) }
        ensures calls { IfOk result (λ m. memory_calls m ≡ 0) }
        ensures memory { OnErr result (0 < length bytes.now) }
    {
        Ok(MemArea {
            bytes: copied(alloc, bytes)?,
            stable: copied(alloc, bytes)?,
            dirty: filled(alloc, false, bytes.len())?,
            span: 0..0,
            calls: Tally::new(),
        })
    }

    /// What a read gives, in place.
    pub fn bytes(&self) -> &[u8]
        ensures { result.now ≡ memory_now self.now }
    {
        self.bytes.as_slice()
    }

    /// Makes `len` positions from one on dirty, and changes no byte.
    pub fn spoil(&mut self, at: usize, len: usize)
        requires { at + len ≤ length (memory_now self.old) }
        ensures same { memory_now self.new ≡ memory_now self.old }
        ensures same_stable { memory_stable self.new ≡ memory_stable self.old }
        ensures dirtied { BecomeDirty at len (memory_dirty self.old) (memory_dirty self.new) }
        ensures calls { memory_calls self.new ≡ memory_calls self.old }
    {
        mark(&mut self.dirty, at, len);
        self.span = widened(&self.span, at, len);
    }

    // Makes each byte stable as it reads. It looks at the span alone.
    fn make_stable(&mut self)
        ensures same { memory_now self.new ≡ memory_now self.old }
        ensures stable { memory_stable self.new ≡ memory_now self.old }
        ensures clean { (k : ℕ) → memory_dirty self.new k ≡ false }
        ensures calls { memory_calls self.new ≡ memory_calls self.old }
    {
        let (start, end) = (self.span.start, self.span.end);
        settle(&mut self.stable, &self.bytes, start, end);
        clear(&mut self.dirty, start, end);
        self.span = 0..0;
    }
}

impl Area for MemArea {
    ghost use Rattle.lc_disk.specs.MemArea.{memory_calls, memory_dirty, memory_now, memory_stable, KeepsMemory};

    ghost now = { λ m. m.bytes.items };

    ghost dirty = { λ m k. slice_index_or m.dirty.items k false };

    ghost calls = { λ m. tallied m.calls };

    ghost failures = { λ m. 0 };

    ghost honest = { λ m. true };

    ghost reads_bytes = { λ m honest k. m.fits k };

    ghost len_fits = { Prim.search rules };

    fn len(&self) -> usize {
        self.bytes.len()
    }

    fn read(&mut self, at: usize, buffer: &mut [u8]) -> Result<(), DeviceFault>
        requires { at + length buffer.old ≤ length (memory_now self.old) }
        ensures done { result ≡ Ok tt }
        ensures bytes { buffer.new ≡ take (length buffer.old) (drop at (memory_now self.old)) }
        ensures same { KeepsMemory self.old self.new }
        ensures calls { memory_calls self.new ≡ memory_calls self.old + 1 }
    {
        self.calls.count();
        buffer.copy_from_slice(&self.bytes[at..at + buffer.len()]);
        Ok(())
    }

    fn write_at(&mut self, at: usize, bytes: &[u8]) -> Result<(), DeviceFault>
        requires { at + length bytes.now ≤ length (memory_now self.old) }
        ensures done { result ≡ Ok tt }
        ensures written { memory_now self.new ≡ overlaid (memory_now self.old) at bytes.now }
        ensures torn { IsSameOutside at (length bytes.now) (memory_now self.old) (memory_now self.new) }
        ensures dirtied { BecomeDirty at (length bytes.now) (memory_dirty self.old) (memory_dirty self.new) }
        ensures same_stable { memory_stable self.new ≡ memory_stable self.old }
        ensures calls { memory_calls self.new ≡ memory_calls self.old + 1 }
    {
        self.spoil(at, bytes.len());
        overlay(&mut self.bytes, at, bytes);
        self.calls.count();
        Ok(())
    }

    /// It costs what lies from the first dirty position to the last, and not the whole area.
    fn sync(&mut self) -> Result<(), DeviceFault>
        ensures done { result ≡ Ok tt }
        ensures same { memory_now self.new ≡ memory_now self.old }
        ensures stable { memory_stable self.new ≡ memory_now self.old }
        ensures clean { (k : ℕ) → memory_dirty self.new k ≡ false }
        ensures calls { memory_calls self.new ≡ memory_calls self.old + 1 }
    {
        self.calls.count();
        self.make_stable();
        Ok(())
    }

    fn faults(&self) -> u64 {
        0
    }
}

impl Stoppable for MemArea {
    ghost use Rattle.lc_disk.specs.MemArea.{memory_calls, memory_dirty, memory_now, memory_stable, KeepsMemory};

    ghost left = { λ m choices k. left_by_stop (memory_now m) (memory_stable m) (memory_dirty m) choices k };

    /// Takes one choice for each dirty position, in ascending order; the last choice holds for the rest, and with
    /// none each byte is kept. It costs what lies from the first dirty position to the last, and not the whole area.
    fn stop(&mut self, choices: &[Choice])
        ensures len { length (memory_now self.new) ≡ length (memory_now self.old) }
        ensures keeps { choices.now ≡ [] → memory_now self.new ≡ memory_now self.old }
        ensures chosen { (k : ℕ) → slice_index_or (memory_now self.new) k 0
            ≡ left_by_stop (memory_now self.old) (memory_stable self.old) (memory_dirty self.old) choices.now k }
        ensures image { IsImage (memory_now self.old) (memory_dirty self.old) (memory_now self.new) }
        ensures stable { memory_stable self.new ≡ memory_now self.new }
        ensures clean { (k : ℕ) → memory_dirty self.new k ≡ false }
        ensures calls { memory_calls self.new ≡ memory_calls self.old }
    {
        choose(
            &mut self.bytes,
            &self.stable,
            &self.dirty,
            &self.span,
            choices,
        );
        self.make_stable();
    }
}

// So many copies of a value.
fn filled<T: Copy + Drop>(alloc: Global, value: T, len: usize) -> Result<Vec<T>, AllocError>
    ensures items { IfOk result (λ v. v.items ≡ replicate len value) }
    ensures memory { OnErr result (0 < len) }
{
    let mut copies = Vec::with_capacity(alloc, len)?;
    copies.resize(len, value)?;
    Ok(copies)
}

// The same bytes.
fn copied(alloc: Global, bytes: &[u8]) -> Result<Vec<u8>, AllocError>
    ensures items { IfOk result (λ v. v.items ≡ bytes.now) }
    ensures memory { OnErr result (0 < length bytes.now) }
{
    let mut copy = Vec::with_capacity(alloc, bytes.len())?;
    copy.extend_from_slice(bytes)?;
    Ok(copy)
}

// The span of what was dirty, and of `len` positions from one on.
fn widened(span: &Range<usize>, at: usize, len: usize) -> Range<usize>
    requires { at + len < 2 ^ 64 }
    ensures spans { (was later : ℕ → Bool) → IsSpan span.now.start span.now.end was → BecomeDirty at len was later
        → IsSpan result.start result.end later }
    ensures within { (limit : ℕ) → span.now.end ≤ limit → at + len ≤ limit → result.end ≤ limit }
{
    if len == 0 {
        span.start..span.end
    } else if span.is_empty() {
        at..at + len
    } else {
        span.start.min(at)..span.end.max(at + len)
    }
}

// Lays bytes over those from a position on.
fn overlay(area: &mut [u8], at: usize, bytes: &[u8])
    requires { at + length bytes.now ≤ length area.old }
    ensures fits { (k : ℕ) → slice_index_or area.new k 0 < 256 }
    ensures written { area.new ≡ overlaid area.old at bytes.now }
    ensures torn { IsSameOutside at (length bytes.now) area.old area.new }
{
    area[at..at + bytes.len()].copy_from_slice(bytes);
}

// Marks `len` positions from one on as dirty.
fn mark(dirty: &mut [bool], at: usize, len: usize)
    requires { at + len ≤ length dirty.old }
    ensures { BecomeDirty at len (λ k. slice_index_or dirty.old k false) (λ k. slice_index_or dirty.new k false) }
{
    for position in at..at + len {
        dirty[position] = true;
    }
}

// Makes the bytes between these two stable as they read, outside of which they are.
fn settle(stable: &mut [u8], bytes: &[u8], start: usize, end: usize)
    requires ordered { start ≤ end }
    requires within { end ≤ length bytes.now }
    requires len { length stable.old ≡ length bytes.now }
    requires before { (k : ℕ) → k < start → slice_index_or stable.old k 0 ≡ slice_index_or bytes.now k 0 }
    requires after { (k : ℕ) → end ≤ k → slice_index_or stable.old k 0 ≡ slice_index_or bytes.now k 0 }
    ensures { stable.new ≡ bytes.now }
{
    overlay(stable, start, &bytes[start..end]);
}

// Makes the positions between these two clean, outside of which none is dirty.
fn clear(dirty: &mut [bool], start: usize, end: usize)
    requires spans { IsSpan start end (λ k. slice_index_or dirty.old k false) }
    requires within { end ≤ length dirty.old }
    ensures len { length dirty.new ≡ length dirty.old }
    ensures clean { IsClean (λ k. slice_index_or dirty.new k false) }
{
    dirty[start..end].fill(false);
}

// Takes one choice for each dirty position, of which there is none outside of the span; the last choice holds for the
// rest.
fn choose(bytes: &mut [u8], stable: &[u8], dirty: &[bool], span: &Range<usize>, choices: &[Choice])
    requires stable { length stable.now ≡ length bytes.old }
    requires dirty { length dirty.now ≡ length bytes.old }
    requires spans { IsSpan span.now.start span.now.end (λ i. slice_index_or dirty.now i false) }
    requires within { span.now.end ≤ length bytes.old }
    ensures len { length bytes.new ≡ length bytes.old }
    ensures chosen { (k : ℕ) → slice_index_or bytes.new k 0
        ≡ left_by_stop bytes.old stable.now (λ i. slice_index_or dirty.now i false) choices.now k }
    ensures fits { (k : ℕ) → slice_index_or bytes.new k 0 < 256 }
{
    let last = choices.len().saturating_sub(1);
    let mut next = 0;
    for position in span.start..span.end {
        if dirty[position] {
            let choice = choices.get(next).copied().unwrap_or(Choice::Keep);
            bytes[position] = choice.left_of(bytes[position], stable[position]);
            next = (next + 1).min(last);
        }
    }
}
