//! An area of fixed length: what a read gives, and what a stop may leave of it.
ghost use Rattle.std.specs.Prelude.{◌≡◌, ◌+◌, ◌-◌, ◌<◌, ◌≤◌, ◌^◌, ℕ, Bool, true, false, List, length, take, drop, min};
ghost use Rattle.std.specs.Prelude.{slice_index_or, OnOk, OnErr, is_ok, if◌then◌else◌};
ghost use Rattle.lc_disk.specs.Area.{IsSameOutside, BecomeDirty, overlaid};

use crate::DeviceFault;

/// A byte string of fixed length on a device.
///
/// While the device is `honest` it keeps to this model. What it holds are bytes, and a read gives those that were
/// written. A position that was written since the last successful sync is `dirty`, and may hold any byte after a
/// stop; the others stay. A failed write makes its whole range dirty, and a failed sync makes no position stable. A
/// write that is stopped midway leaves what a stop after it may leave, a sync what a stop before it may. Nothing is
/// said of a device that is not honest but that each call returns, keeps the length and counts itself and its
/// failures.
pub trait Area {
    /// The bytes that a read gives.
    ghost now: { Self → List ℕ };

    /// The positions that a stop may change.
    ghost dirty: { Self → ℕ → Bool };

    /// How often it was called to read, write or sync. There is no greatest number.
    ghost calls: { Self → ℕ };

    /// How often the device has failed. There is no greatest number.
    ghost failures: { Self → ℕ };

    /// The device keeps to the model.
    ghost honest: { Self → Bool };

    /// The length in bytes.
    fn len(&self) -> usize
        ensures len { result ≡ length (now self.now) };

    /// Fills a buffer with the bytes from a position on.
    fn read(&mut self, at: usize, buffer: &mut [u8]) -> Result<(), DeviceFault>
        requires { at + length buffer.old ≤ length (now self.old) }
        ensures honest { honest self.new ≡ honest self.old }
        ensures len { length (now self.new) ≡ length (now self.old) }
        ensures bytes { OnOk result (honest self.old ≡ true
            → buffer.new ≡ take (length buffer.old) (drop at (now self.old))) }
        ensures same { honest self.old ≡ true → now self.new ≡ now self.old }
        ensures same_dirty { honest self.old ≡ true → (k : ℕ) → dirty self.new k ≡ dirty self.old k }
        ensures called { calls self.new ≡ calls self.old + 1 }
        ensures counted { failures self.new ≡ (if is_ok result then failures self.old else failures self.old + 1) };

    /// Lays bytes over those from a position on. Each of these positions is dirty afterwards, also after a fault.
    fn write_at(&mut self, at: usize, bytes: &[u8]) -> Result<(), DeviceFault>
        requires { at + length bytes.now ≤ length (now self.old) }
        ensures honest { honest self.new ≡ honest self.old }
        ensures len { length (now self.new) ≡ length (now self.old) }
        ensures written { OnOk result (honest self.old ≡ true → now self.new ≡ overlaid (now self.old) at bytes.now) }
        ensures torn { honest self.old ≡ true → IsSameOutside at (length bytes.now) (now self.old) (now self.new) }
        ensures dirtied { honest self.old ≡ true → BecomeDirty at (length bytes.now) (dirty self.old) (dirty self.new) }
        ensures called { calls self.new ≡ calls self.old + 1 }
        ensures counted { failures self.new ≡ (if is_ok result then failures self.old else failures self.old + 1) };

    /// Makes each position stable; after a fault none has become so.
    fn sync(&mut self) -> Result<(), DeviceFault>
        ensures honest { honest self.new ≡ honest self.old }
        ensures len { length (now self.new) ≡ length (now self.old) }
        ensures same { honest self.old ≡ true → now self.new ≡ now self.old }
        ensures clean { OnOk result (honest self.old ≡ true → (k : ℕ) → dirty self.new k ≡ false) }
        ensures same_dirty { OnErr result (honest self.old ≡ true → (k : ℕ) → dirty self.new k ≡ dirty self.old k) }
        ensures called { calls self.new ≡ calls self.old + 1 }
        ensures counted { failures self.new ≡ (if is_ok result then failures self.old else failures self.old + 1) };

    /// How often the device has failed, or 2^64 - 1 where it was more often.
    fn faults(&self) -> u64
        ensures { result ≡ min (failures self.now) (2 ^ 64 - 1) };

    /// What an honest area reads are bytes.
    ghost reads_bytes: { (d : Self) → honest d ≡ true → (k : ℕ) → slice_index_or (now d) k 0 < 256 };

    /// The length fits `usize`.
    ghost len_fits: { (d : Self) → length (now d) < 2 ^ 64 };
}
