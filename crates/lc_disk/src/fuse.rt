//! An area in memory of which chosen calls fail.
ghost use Rattle.std.specs.Prelude.{◌≡◌, ◌+◌, ◌≤◌, ℕ, [], true, false, length, take, drop, Err, OnOk, OnErr, is_ok};
ghost use Rattle.std.specs.Prelude.{not, slice_index_or};
ghost use Rattle.std.proofs.Common.{rules};
ghost use Rattle.lc_disk.specs.Area.{IsImage, IsSameOutside, BecomeDirty, overlaid};
ghost use Rattle.lc_disk.specs.Count.{counted};
ghost use Rattle.lc_disk.specs.Stop.{left_by_stop};
ghost use Rattle.lc_disk.specs.When.{IsCountable};

use crate::count::Count;
use crate::{Area, Choice, DeviceFault, MemArea, Stoppable, When};

/// An area in memory, always honest, that counts the calls `read`, `write_at` and `sync` from 1 and fails those that
/// it was told to. A failed write changes no byte and makes its range dirty.
#[derive(Drop)]
pub struct Fuse {
    area: MemArea,
    when: When,
    calls: Count,
    // How many of them failed.
    faults: Count,
    ghost countable: { IsCountable when },
}

impl Fuse {
    ghost use Rattle.lc_disk.specs.Fuse.{fuse_area, fuse_when, fuse_calls, fuse_failures, IsCounted};

    /// An area with a fuse, before its first call. The number of `when` is below 2^64 - 1.
    pub fn new(area: MemArea, when: When) -> Fuse
        requires { IsCountable when }
        ensures area { fuse_area result ≡ area }
        ensures when { fuse_when result ≡ when }
        ensures calls { fuse_calls result ≡ 0 }
        ensures failures { fuse_failures result ≡ 0 }
    {
        Fuse {
            area,
            when,
            calls: Count::new(),
            faults: Count::new(),
        }
    }

    /// The area, without its fuse.
    pub fn into_area(self) -> MemArea
        ensures { result ≡ fuse_area self }
    {
        self.area
    }

    // Counts a call, and tells whether it fails.
    fn burn(&mut self) -> bool
        ensures counted { IsCounted self.old self.new result }
        ensures area { fuse_area self.new ≡ fuse_area self.old }
    {
        self.calls.count();
        let fails = self.when.fails(self.calls.shown());
        if fails {
            self.faults.count();
        }
        fails
    }
}

impl Area for Fuse {
    ghost use Rattle.lc_disk.specs.Fuse.{fuse_area, fuse_failures, IsCounted};
    ghost use Rattle.lc_disk.specs.MemArea.{memory_dirty, memory_now, memory_stable, KeepsMemory};

    ghost now = { λ f. memory_now f.area };

    ghost dirty = { λ f. memory_dirty f.area };

    ghost calls = { λ f. counted f.calls };

    ghost failures = { λ f. counted f.faults };

    ghost honest = { λ f. true };

    ghost reads_bytes = { λ f honest k. f.area.fits k };

    ghost len_fits = { Prim.search rules };

    fn len(&self) -> usize {
        self.area.len()
    }

    fn read(&mut self, at: usize, buffer: &mut [u8]) -> Result<(), DeviceFault>
        requires { at + length buffer.old ≤ length (memory_now (fuse_area self.old)) }
        ensures counted { IsCounted self.old self.new (not (is_ok result)) }
        ensures bytes { OnOk result (buffer.new
            ≡ take (length buffer.old) (drop at (memory_now (fuse_area self.old)))) }
        ensures same { KeepsMemory (fuse_area self.old) (fuse_area self.new) }
        ensures kept { OnErr result (buffer.new ≡ buffer.old) }
    {
        if self.burn() {
            return Err(DeviceFault);
        }
        self.area.read(at, buffer)
    }

    fn write_at(&mut self, at: usize, bytes: &[u8]) -> Result<(), DeviceFault>
        requires { at + length bytes.now ≤ length (memory_now (fuse_area self.old)) }
        ensures counted { IsCounted self.old self.new (not (is_ok result)) }
        ensures written { OnOk result (memory_now (fuse_area self.new)
            ≡ overlaid (memory_now (fuse_area self.old)) at bytes.now) }
        ensures kept { OnErr result (memory_now (fuse_area self.new) ≡ memory_now (fuse_area self.old)) }
        ensures torn { IsSameOutside at (length bytes.now) (memory_now (fuse_area self.old))
            (memory_now (fuse_area self.new)) }
        ensures dirtied { BecomeDirty at (length bytes.now) (memory_dirty (fuse_area self.old))
            (memory_dirty (fuse_area self.new)) }
        ensures same_stable { memory_stable (fuse_area self.new) ≡ memory_stable (fuse_area self.old) }
    {
        if self.burn() {
            self.area.spoil(at, bytes.len());
            return Err(DeviceFault);
        }
        self.area.write_at(at, bytes)
    }

    fn sync(&mut self) -> Result<(), DeviceFault>
        ensures counted { IsCounted self.old self.new (not (is_ok result)) }
        ensures same { memory_now (fuse_area self.new) ≡ memory_now (fuse_area self.old) }
        ensures stable { OnOk result (memory_stable (fuse_area self.new) ≡ memory_now (fuse_area self.old)) }
        ensures clean { OnOk result ((k : ℕ) → memory_dirty (fuse_area self.new) k ≡ false) }
        ensures kept { OnErr result (fuse_area self.new ≡ fuse_area self.old) }
    {
        if self.burn() {
            return Err(DeviceFault);
        }
        self.area.sync()
    }

    fn faults(&self) -> u64 {
        self.faults.shown()
    }
}

impl Stoppable for Fuse {
    ghost use Rattle.lc_disk.specs.Fuse.{fuse_area, fuse_when, fuse_calls, fuse_failures};
    ghost use Rattle.lc_disk.specs.MemArea.{memory_dirty, memory_now, memory_stable, KeepsMemory};

    ghost left = { λ f choices k. left_by_stop (memory_now f.area) (memory_stable f.area)
        (memory_dirty f.area) choices k };

    /// Stops the area as it stops without a fuse: the stop is not counted and never fails.
    fn stop(&mut self, choices: &[Choice])
        ensures len { length (memory_now (fuse_area self.new)) ≡ length (memory_now (fuse_area self.old)) }
        ensures keeps { choices.now ≡ [] → memory_now (fuse_area self.new) ≡ memory_now (fuse_area self.old) }
        ensures chosen { (k : ℕ) → slice_index_or (memory_now (fuse_area self.new)) k 0
            ≡ left_by_stop (memory_now (fuse_area self.old)) (memory_stable (fuse_area self.old))
            (memory_dirty (fuse_area self.old)) choices.now k }
        ensures image { IsImage (memory_now (fuse_area self.old)) (memory_dirty (fuse_area self.old))
            (memory_now (fuse_area self.new)) }
        ensures stable { memory_stable (fuse_area self.new) ≡ memory_now (fuse_area self.new) }
        ensures clean { (k : ℕ) → memory_dirty (fuse_area self.new) k ≡ false }
        ensures when { fuse_when self.new ≡ fuse_when self.old }
        ensures calls { fuse_calls self.new ≡ fuse_calls self.old }
        ensures failures { fuse_failures self.new ≡ fuse_failures self.old }
    {
        self.area.stop(choices);
    }
}
