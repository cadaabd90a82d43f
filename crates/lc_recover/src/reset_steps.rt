//! The steps that empty the logs.
ghost use Rattle.std.specs.Prelude.{◌≡◌, ◌+◌, ◌*◌, ◌<◌, ◌≤◌, ℕ, List, [], OnOk, length, is_ok, true, false};
ghost use Rattle.std.specs.Prelude.{slice_index_or};
ghost use Rattle.lc_record.specs.declared.record.Record.{Record};
ghost use Rattle.lc_log.specs.NodeLog.{IsClosing, IsWithOrWithout, Holds, GateReads, LeavesOnly};
ghost use Rattle.lc_log.specs.OneCall.{IsOneCall};
ghost use Rattle.lc_recover.specs.Reads.{AreHonest};
ghost use Rattle.lc_recover.specs.Shows.{ShowLogs};
ghost use Rattle.lc_recover.specs.RecoveryPhase.{AreasFit, Fits, OneCall, IsResetting, IsEmptied};
ghost use Rattle.lc_recover.specs.Steps.{resets_done};
ghost use Rattle.lc_recover.specs.declared.recovery_phase.RecoveryPhase.{RecoveryPhase};

use crate::log_resets::LogResets;
use lc_disk::{Area, DeviceFault};
use lc_log::{begins_open, close_first_gate, settle_first_gate};
use lc_record::Geometry;

/// Makes the next device call of the resets.
pub(crate) fn reset_next<D: Area>(
    geometry: &Geometry,
    areas: &mut [D],
    resets: &mut LogResets,
) -> Result<(), DeviceFault>
    requires fits { Fits D.Area geometry.now (RecoveryPhase.Resetting resets.old) areas.old }
    requires left { resets.old.next < geometry.now.nodes }
    ensures fits { OnOk result (Fits D.Area geometry.now (RecoveryPhase.Resetting resets.new) areas.new) }
    ensures areas { AreasFit D.Area geometry.now (RecoveryPhase.Syncing 0) areas.new }
    ensures call { OneCall D.Area resets.old.next areas.old areas.new (is_ok result) }
    ensures shows { (i : IsResetting geometry.now resets.old) → AreHonest D.Area areas.new
        → ShowLogs D.Area geometry.now areas.new i.store resets.old.segments.items }
    ensures steps { OnOk result (resets_done resets.new ≡ resets_done resets.old + 1) }
    ensures same { OnOk result ((resets.new.written ≡ resets.old.written) × (resets.new.numbers ≡ resets.old.numbers)
        × (resets.new.segments ≡ resets.old.segments) × (resets.new.logs ≡ resets.old.logs)) }
{
    if resets.is_closing {
        settle_next(geometry, areas, resets)?;
        resets.next += 1;
        resets.is_closing = false;
    } else {
        close_next(geometry, areas, resets)?;
        resets.is_closing = true;
    }
    Ok(())
}

// Closes the first gate of the next log.
fn close_next<D: Area>(
    geometry: &Geometry,
    areas: &mut [D],
    resets: &LogResets,
) -> Result<(), DeviceFault>
    requires fits { Fits D.Area geometry.now (RecoveryPhase.Resetting resets.now) areas.old }
    requires left { resets.now.next < geometry.now.nodes }
    requires at_rest { resets.now.is_closing ≡ false }
    ensures fits { OnOk result (AreasFit D.Area geometry.now
        (RecoveryPhase.Resetting (record resets.now { is_closing = true })) areas.new) }
    ensures areas { AreasFit D.Area geometry.now (RecoveryPhase.Syncing 0) areas.new }
    ensures call { OneCall D.Area resets.now.next areas.old areas.new (is_ok result) }
    ensures shows { (i : IsResetting geometry.now resets.now) → AreHonest D.Area areas.new
        → ShowLogs D.Area geometry.now areas.new i.store resets.now.segments.items }
{
    let is_open = begins_open(resets.logs[resets.next].as_slice());
    close_log(&mut areas[resets.next], is_open)
}

// Makes the closed gate of the next log stable.
fn settle_next<D: Area>(
    geometry: &Geometry,
    areas: &mut [D],
    resets: &LogResets,
) -> Result<(), DeviceFault>
    requires fits { Fits D.Area geometry.now (RecoveryPhase.Resetting resets.now) areas.old }
    requires left { resets.now.next < geometry.now.nodes }
    requires closing { resets.now.is_closing ≡ true }
    ensures fits { OnOk result (AreasFit D.Area geometry.now
        (RecoveryPhase.Resetting (record resets.now { next = resets.now.next + 1; is_closing = false })) areas.new) }
    ensures areas { AreasFit D.Area geometry.now (RecoveryPhase.Syncing 0) areas.new }
    ensures call { OneCall D.Area resets.now.next areas.old areas.new (is_ok result) }
    ensures shows { (i : IsResetting geometry.now resets.now) → AreHonest D.Area areas.new
        → ShowLogs D.Area geometry.now areas.new i.store resets.now.segments.items }
{
    settle_log(&mut areas[resets.next])
}

// Closes the first gate of a log.
fn close_log<D: Area>(area: &mut D, is_open: bool) -> Result<(), DeviceFault>
    requires { 8 ≤ length (D.now area.old) }
    ensures closing { OnOk result ((records : List Record)
        → GateReads D.Area area.old is_open → Holds D.Area area.old records
        → IsClosing D.Area area.new records) }
    ensures images { (records : List Record)
        → GateReads D.Area area.old is_open → Holds D.Area area.old records
        → LeavesOnly D.Area area.new (IsWithOrWithout [] records) }
    ensures device { IsOneCall D.Area (is_ok result) area.old area.new }
    ensures bytes { D.honest area.new ≡ true → (at : ℕ) → slice_index_or (D.now area.new) at 0 < 256 }
{
    close_first_gate(area, is_open)
}

// Makes a closed gate stable.
fn settle_log<D: Area>(area: &mut D) -> Result<(), DeviceFault>
    ensures emptied { OnOk result ((records : List Record) → IsClosing D.Area area.old records
        → D.honest area.old ≡ true → IsEmptied D.Area area.new) }
    ensures images { (records : List Record)
        → IsClosing D.Area area.old records
        → LeavesOnly D.Area area.new (IsWithOrWithout [] records) }
    ensures device { IsOneCall D.Area (is_ok result) area.old area.new }
    ensures bytes { D.honest area.new ≡ true → (at : ℕ) → slice_index_or (D.now area.new) at 0 < 256 }
{
    settle_first_gate(area)
}
