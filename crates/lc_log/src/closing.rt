//! A log whose first gate was closed.
ghost use Rattle.std.specs.Prelude.{◌≡◌, ◌≢◌, ℕ, ◌+◌, ◌<◌, ◌≤◌, ◌^◌, List, [], ◌∷◌, true, false, length, IfOk, IfErr};
ghost use Rattle.std.specs.Prelude.{if◌then◌else◌, MatchResult};

use crate::first_gate::{close_first_gate, settle_first_gate};
use crate::{Failed, Idle};
use lc_disk::Area;

/// A log with a closed first gate, which may be torn.
#[derive(Drop)]
pub struct Closing<D: Area> {
    /// The log's area.
    pub area: D,
    ghost room: { 8 ≤ length (D.now area) },
    ghost small: { length (D.now area) < 2 ^ 64 },
}

impl<D: Area> Closing<D> {
    ghost use Rattle.lc_record.specs.declared.record.Record.{Record};
    ghost use Rattle.lc_log.specs.LogText.{IsLogText};
    ghost use Rattle.lc_log.specs.NodeLog.{IsClosing, IsIdle, IsUntouched, IsWithOrWithout, Holds, GateReads};
    ghost use Rattle.lc_log.specs.NodeLog.{LeavesOnly, Wrote, MadeStable, Continues};
    ghost use Rattle.lc_log.specs.OneCall.{IsOneCall};

    /// Closes the first gate of an area where it reads open, as the caller has read it; else the call is made with no
    /// bytes. What stands after the records may be anything, an open gate too.
    pub fn begin(area: D, is_open: bool) -> Result<Closing<D>, Failed<D>>
        requires room { 8 ≤ length (D.now area) }

        ensures closing { IfOk result (λ log. (records : List Record)
            → GateReads D.Area area is_open → Holds D.Area area records
            → IsClosing D.Area log.area records) }

        // A stop leaves all the records or none.
        ensures images { IfOk result (λ log. (records : List Record)
            → GateReads D.Area area is_open → Holds D.Area area records
            → LeavesOnly D.Area log.area (IsWithOrWithout [] records)) }

        ensures wrote { IfOk result (λ log. Wrote D.Area 0 (if is_open then 0 ∷ [] else []) area log.area) }
        ensures device { IfOk result (λ log. Continues D.Area area log.area) }
        ensures no_cause { IfOk result (λ log. D.failures log.area ≡ D.failures area) }

        ensures failed { IfErr result (λ failed. (records : List Record)
            → GateReads D.Area area is_open → Holds D.Area area records
            → LeavesOnly D.Area failed.area (IsWithOrWithout [] records)) }

        ensures failed_untouched { IfErr result (λ failed. is_open ≡ false → IsUntouched D.Area failed.area area) }
        ensures failed_device { IfErr result (λ failed. Continues D.Area area failed.area) }
        ensures cause { IfErr result (λ failed. D.failures failed.area ≡ D.failures area + 1) }
        ensures call { MatchResult result (λ log. IsOneCall D.Area true area log.area) (λ failed.
            IsOneCall D.Area false area failed.area) }
    {
        let mut area = area;
        match close_first_gate(&mut area, is_open) {
            Ok(()) => Ok(Closing { area }),
            Err(_) => Err(Failed { area }),
        }
    }

    /// Makes the closed gate stable: the log has no record.
    pub fn reset_sync(self) -> Result<Idle<D>, Failed<D>>
        ensures empty { IfOk result (λ log. (records : List Record)
            → IsClosing D.Area self.area records
            → IsIdle D.Area log.area log.end []) }

        // A stop leaves no record.
        ensures images { IfOk result (λ log. (records : List Record)
            → IsClosing D.Area self.area records
            → LeavesOnly D.Area log.area (λ words. IsLogText words [])) }

        ensures stable { IfOk result (λ log. MadeStable D.Area self.area log.area) }
        ensures end { IfOk result (λ log. log.end ≡ 0) }
        ensures device { IfOk result (λ log. Continues D.Area self.area log.area) }
        ensures no_cause { IfOk result (λ log. D.failures log.area ≡ D.failures self.area) }

        // After a fault a stop leaves all the records or none.
        ensures failed { IfErr result (λ failed. (records : List Record)
            → IsClosing D.Area self.area records
            → LeavesOnly D.Area failed.area (IsWithOrWithout [] records)) }

        ensures failed_device { IfErr result (λ failed. Continues D.Area self.area failed.area) }
        ensures cause { IfErr result (λ failed. D.failures failed.area ≡ D.failures self.area + 1) }
        ensures call { MatchResult result (λ log. IsOneCall D.Area true self.area log.area) (λ failed.
            IsOneCall D.Area false self.area failed.area) }
    {
        let Closing { mut area } = self;
        match settle_first_gate(&mut area) {
            Ok(()) => Ok(Idle { area, end: 0 }),
            Err(_) => Err(Failed { area }),
        }
    }
}
