//! The first gate of a log, where its area stays with the caller.
ghost use Rattle.std.specs.Prelude.{◌≡◌, ℕ, ◌+◌, ◌<◌, ◌≤◌, ◌↔◌, IsTrue, List, [], ◌∷◌, false, length, slice_index};
ghost use Rattle.std.specs.Prelude.{slice_index_or, if◌then◌else◌, is_ok, OnOk};
ghost use Rattle.lc_record.specs.Words.{words_of};
ghost use Rattle.lc_record.specs.declared.record.Record.{Record};
ghost use Rattle.lc_log.specs.LogText.{IsLogText};
ghost use Rattle.lc_log.specs.NodeLog.{IsClosing, IsIdle, IsUntouched, IsWithOrWithout, Holds, GateReads, LeavesOnly};
ghost use Rattle.lc_log.specs.NodeLog.{Wrote, MadeStable, Continues};
ghost use Rattle.lc_log.specs.OneCall.{IsOneCall};

use lc_disk::{Area, DeviceFault};
use lc_record::gate;

const OPEN_GATE: u8 = 0xa5;

const CLOSED_GATE: u8 = 0;

/// Whether the first gate of a log reads open, by the words of its area.
pub fn begins_open(words: &[u64]) -> bool
    ensures { (bytes : List ℕ) → ((k : ℕ) → slice_index_or bytes k 0 < 256) → 8 ≤ length bytes
        → words.now ≡ words_of bytes
        → IsTrue result ↔ (slice_index bytes 0 ≡ 165) }
{
    match words.first() {
        Some(word) => gate(*word) == OPEN_GATE,
        None => false,
    }
}

/// Closes the first gate of a log where it reads open, as the caller has read it; else the call is made with no bytes.
/// What stands after the records may be anything, an open gate too.
pub fn close_first_gate<D: Area>(area: &mut D, is_open: bool) -> Result<(), DeviceFault>
    requires room { 8 ≤ length (D.now area.old) }

    ensures closing { OnOk result ((records : List Record)
        → GateReads D.Area area.old is_open → Holds D.Area area.old records
        → IsClosing D.Area area.new records) }

    // A stop leaves all the records or none, also after a fault.
    ensures images { (records : List Record)
        → GateReads D.Area area.old is_open → Holds D.Area area.old records
        → LeavesOnly D.Area area.new (IsWithOrWithout [] records) }

    ensures wrote { OnOk result (Wrote D.Area 0 (if is_open then 0 ∷ [] else []) area.old area.new) }
    ensures untouched { is_open ≡ false → IsUntouched D.Area area.new area.old }
    ensures device { Continues D.Area area.old area.new }
    ensures counted { D.failures area.new ≡ (if is_ok result then D.failures area.old else D.failures area.old + 1) }
    ensures call { IsOneCall D.Area (is_ok result) area.old area.new }
{
    area.write_at(0, closing_bytes(is_open))
}

/// Makes a closed first gate stable: the log has no record.
pub fn settle_first_gate<D: Area>(area: &mut D) -> Result<(), DeviceFault>
    ensures empty { OnOk result ((records : List Record)
        → IsClosing D.Area area.old records
        → IsIdle D.Area area.new 0 []) }

    // A stop leaves no record.
    ensures images { OnOk result ((records : List Record)
        → IsClosing D.Area area.old records
        → LeavesOnly D.Area area.new (λ words. IsLogText words [])) }

    ensures stable { OnOk result (MadeStable D.Area area.old area.new) }
    ensures device { Continues D.Area area.old area.new }

    // After a fault too, a stop leaves all the records or none.
    ensures either { (records : List Record)
        → IsClosing D.Area area.old records
        → LeavesOnly D.Area area.new (IsWithOrWithout [] records) }

    ensures counted { D.failures area.new ≡ (if is_ok result then D.failures area.old else D.failures area.old + 1) }
    ensures call { IsOneCall D.Area (is_ok result) area.old area.new }
{
    area.sync()
}

// What is written over a gate to close it: nothing where it reads closed.
fn closing_bytes(is_open: bool) -> &'static [u8]
    ensures { result.now ≡ (if is_open then 0 ∷ [] else []) }
{
    if is_open { &[CLOSED_GATE] } else { &[] }
}
