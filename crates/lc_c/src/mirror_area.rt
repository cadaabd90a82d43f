//! An area in memory that a file mirrors.
ghost use Rattle.std.specs.Prelude.{◌≡◌, ◌+◌, ◌≤◌, ◌<◌, ◌^◌, ◌%◌, ℕ, None, Some, true, false, length, slice_index_or};
ghost use Rattle.std.specs.Prelude.{option_copied, take, drop, Ok, IfOk, OnErr};
ghost use Rattle.std.proofs.Common.{rules};
ghost use Rattle.lc_disk.specs.Area.{IsImage, IsSameOutside, BecomeDirty, overlaid};
ghost use Rattle.lc_disk.specs.Tally.{tallied};
ghost use Rattle.lc_c.specs.DirtyPositions.{is_dirty};
ghost use Rattle.lc_c.specs.MirrorArea.{IsSync, IsWrite};
ghost use Rattle.lc_c.specs.declared.area_call.AreaCall.TheVariants.{Write, Sync};

use crate::area_call::AreaCall;
use crate::dirty_positions::DirtyPositions;
use lc_disk::{Area, Choice, DeviceFault, Stoppable, Tally};
use std::alloc::{AllocError, Global};
use std::snapshot::Snapshot;

/// An area in memory, which never fails, and keeps the last call that changed it or made it stable: who makes each of
/// these on a file has a file that holds what the area holds. How many calls there were is counted, from 0 again after
/// 2^64 - 1. `of_file` alone takes memory: one byte for each byte of the file.
#[derive(Drop)]
pub(crate) struct MirrorArea {
    bytes: Vec<u8>,
    last: Option<AreaCall>,
    calls: u64,
    // For contracts alone: the bytes before the last call, the positions that a stop may change, and how often the area
    // was called to read, write or sync.
    before: Snapshot<Vec<u8>>,
    dirty: DirtyPositions,
    tally: Tally,
    ghost fits: { (k : ℕ) → slice_index_or bytes.items k 0 < 256 },
    ghost none: { last ≡ None → bytes.items ≡ before.value.items },
    ghost write: { (at len : ℕ) → last ≡ Some (Write at len)
        → IsWrite at len before.value.items bytes.items (is_dirty dirty) },
    ghost sync: { last ≡ Some Sync → IsSync before.value.items bytes.items (is_dirty dirty) },
}

impl MirrorArea {
    ghost use Rattle.lc_c.specs.Mirrors.{called, mirror_before, mirror_calls, mirror_last, mirror_now, window_of};
    ghost use Rattle.lc_c.specs.Mirrors.{IsOfFile};

    /// What a file holds, of which no byte is known to be stable. Nothing was called yet.
    pub(crate) fn of_file(alloc: Global, bytes: &[u8]) -> Result<MirrorArea, AllocError>
        ensures file { IfOk result (IsOfFile bytes.now) }
        ensures memory { OnErr result (0 < length bytes.now) }
    {
        let mut held = Vec::with_capacity(alloc, bytes.len())?;
        held.extend_from_slice(bytes)?;
        let before = Snapshot::of(&held);
        let mut dirty = DirtyPositions::none();
        dirty.add(0, bytes.len());
        Ok(MirrorArea {
            bytes: held,
            last: None,
            calls: 0,
            before,
            dirty,
            tally: Tally::new(),
        })
    }

    /// So many of them from a position on, where it has them.
    pub(crate) fn window(&self, at: usize, len: usize) -> Option<&[u8]>
        ensures { option_copied result ≡ window_of self.now at len }
    {
        let bytes = self.bytes.as_slice();
        if at > bytes.len() || len > bytes.len() - at {
            return None;
        }
        Some(&bytes[at..at + len])
    }

    /// The last call, if there was one. A file that held what the area held before it, and of which it is made, holds
    /// what the area holds.
    pub(crate) fn last(&self) -> Option<AreaCall>
        ensures last { result ≡ mirror_last self.now }
        ensures mirrors { called result (mirror_before self.now) (mirror_now self.now) ≡ mirror_now self.now }
    {
        self.last
    }

    /// How many calls there were.
    pub(crate) fn calls(&self) -> u64
        ensures { result ≡ mirror_calls self.now }
    {
        self.calls
    }
}

impl Area for MirrorArea {
    ghost use Rattle.lc_c.specs.Mirrors.{mirror_before, mirror_calls, mirror_dirty, mirror_last, mirror_now};
    ghost use Rattle.lc_c.specs.Mirrors.{mirror_tally};

    ghost now = { λ m. m.bytes.items };

    ghost dirty = { λ m. is_dirty m.dirty };

    ghost calls = { λ m. tallied m.tally };

    ghost failures = { λ m. 0 };

    ghost honest = { λ m. true };

    ghost reads_bytes = { λ m honest k. m.fits k };

    ghost len_fits = { Prim.search rules };

    fn len(&self) -> usize {
        self.bytes.len()
    }

    fn read(&mut self, at: usize, buffer: &mut [u8]) -> Result<(), DeviceFault>
        requires { at + length buffer.old ≤ length (mirror_now self.old) }
        ensures done { result ≡ Ok tt }
        ensures bytes { buffer.new ≡ take (length buffer.old) (drop at (mirror_now self.old)) }
        ensures same { mirror_now self.new ≡ mirror_now self.old }
        ensures same_dirty { (k : ℕ) → mirror_dirty self.new k ≡ mirror_dirty self.old k }
        ensures last { mirror_last self.new ≡ mirror_last self.old }
        ensures before { mirror_before self.new ≡ mirror_before self.old }
        ensures calls { mirror_calls self.new ≡ mirror_calls self.old }
        ensures called { mirror_tally self.new ≡ mirror_tally self.old + 1 }
    {
        self.tally.count();
        buffer.copy_from_slice(&self.bytes[at..at + buffer.len()]);
        Ok(())
    }

    /// The last call is this write then, and what it changed is the area that was.
    fn write_at(&mut self, at: usize, bytes: &[u8]) -> Result<(), DeviceFault>
        requires { at + length bytes.now ≤ length (mirror_now self.old) }
        ensures done { result ≡ Ok tt }
        ensures written { mirror_now self.new ≡ overlaid (mirror_now self.old) at bytes.now }
        ensures torn { IsSameOutside at (length bytes.now) (mirror_now self.old) (mirror_now self.new) }
        ensures dirtied { BecomeDirty at (length bytes.now) (mirror_dirty self.old) (mirror_dirty self.new) }
        ensures last { mirror_last self.new ≡ Some (Write at (length bytes.now)) }
        ensures before { mirror_before self.new ≡ mirror_now self.old }
        ensures calls { mirror_calls self.new ≡ (mirror_calls self.old + 1) % 2 ^ 64 }
        ensures called { mirror_tally self.new ≡ mirror_tally self.old + 1 }
    {
        let before = Snapshot::of(&self.bytes);
        overlay(&mut self.bytes, at, bytes);
        self.dirty.add(at, bytes.len());
        self.tally.count();
        self.before = before;
        self.last = Some(AreaCall::Write {
            at,
            len: bytes.len(),
        });
        self.calls = self.calls.wrapping_add(1);
        Ok(())
    }

    /// The last call is this sync then, and what it made stable is the area that was.
    fn sync(&mut self) -> Result<(), DeviceFault>
        ensures done { result ≡ Ok tt }
        ensures same { mirror_now self.new ≡ mirror_now self.old }
        ensures clean { (k : ℕ) → mirror_dirty self.new k ≡ false }
        ensures last { mirror_last self.new ≡ Some Sync }
        ensures before { mirror_before self.new ≡ mirror_now self.old }
        ensures calls { mirror_calls self.new ≡ (mirror_calls self.old + 1) % 2 ^ 64 }
        ensures called { mirror_tally self.new ≡ mirror_tally self.old + 1 }
    {
        self.before = Snapshot::of(&self.bytes);
        self.dirty = DirtyPositions::none();
        self.tally.count();
        self.last = Some(AreaCall::Sync);
        self.calls = self.calls.wrapping_add(1);
        Ok(())
    }

    fn faults(&self) -> u64 {
        0
    }
}

impl Stoppable for MirrorArea {
    ghost use Rattle.lc_c.specs.Mirrors.{mirror_dirty, mirror_last, mirror_now, mirror_tally};

    ghost left = { λ m choices k. slice_index_or m.bytes.items k 0 };

    /// Keeps each byte as it reads, whatever the choices, which is one image of the area. A session stops no area, so
    /// what was stable is not kept. It is no call.
    fn stop(&mut self, choices: &[Choice])
        ensures same { mirror_now self.new ≡ mirror_now self.old }
        ensures image { IsImage (mirror_now self.old) (mirror_dirty self.old) (mirror_now self.new) }
        ensures clean { (k : ℕ) → mirror_dirty self.new k ≡ false }
        ensures last { mirror_last self.new ≡ None }
        ensures called { mirror_tally self.new ≡ mirror_tally self.old }
    {
        let _ = choices;
        self.before = Snapshot::of(&self.bytes);
        self.dirty = DirtyPositions::none();
        self.last = None;
    }
}

// Lays bytes over those from a position on.
fn overlay(area: &mut [u8], at: usize, bytes: &[u8])
    requires { at + length bytes.now ≤ length area.old }
    ensures fits { (k : ℕ) → slice_index_or area.new k 0 < 256 }
    ensures written { area.new ≡ overlaid area.old at bytes.now }
    ensures torn { IsSameOutside at (length bytes.now) area.old area.new }
{
    area[at..at + bytes.len()].copy_from_slice(bytes);
}
