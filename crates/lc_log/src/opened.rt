//! A log whose gate was opened over a stable group.
ghost use Rattle.std.specs.Prelude.{◌≡◌, ◌++◌, ℕ, ◌+◌, ◌*◌, ◌<◌, ◌≤◌, ◌^◌, List, true, false, length, IfOk, IfErr};
ghost use Rattle.std.specs.Prelude.{MatchResult};

use crate::{Failed, Idle};
use lc_disk::Area;

/// A log with an open gate, which may be torn, and a stable group after it.
#[derive(Drop)]
pub struct Opened<D: Area> {
    /// The log's area.
    pub area: D,
    /// The end of the stable records, in words.
    pub end: usize,
    /// The words of the group.
    pub words: usize,
    ghost room: { 8 * (end + words) + 8 ≤ length (D.now area) },
    ghost small: { length (D.now area) < 2 ^ 64 },
}

impl<D: Area> Opened<D> {
    ghost use Rattle.lc_record.specs.declared.record.Record.{Record};
    ghost use Rattle.lc_log.specs.LogText.{IsLogText};
    ghost use Rattle.lc_log.specs.NodeLog.{IsOpened, IsIdle, IsWithOrWithout, LeavesOnly, MadeStable, Continues};
    ghost use Rattle.lc_log.specs.OneCall.{IsOneCall};

    /// Makes the open gate stable, and with it the group.
    pub fn sync_gate(self) -> Result<Idle<D>, Failed<D>>
        ensures flushed { IfOk result (λ log. (stable records : List Record)
            → IsOpened D.Area self.area self.end self.words stable records
            → IsIdle D.Area log.area log.end (stable ++ records)) }

        // A stop leaves the stable records and the group.
        ensures images { IfOk result (λ log. (stable records : List Record)
            → IsOpened D.Area self.area self.end self.words stable records
            → LeavesOnly D.Area log.area (λ words. IsLogText words (stable ++ records))) }

        ensures stable { IfOk result (λ log. MadeStable D.Area self.area log.area) }
        ensures end { IfOk result (λ log. log.end ≡ self.end + self.words) }
        ensures device { IfOk result (λ log. Continues D.Area self.area log.area) }
        ensures no_cause { IfOk result (λ log. D.failures log.area ≡ D.failures self.area) }

        ensures failed { IfErr result (λ failed. (stable records : List Record)
            → IsOpened D.Area self.area self.end self.words stable records
            → LeavesOnly D.Area failed.area (IsWithOrWithout stable records)) }

        ensures failed_device { IfErr result (λ failed. Continues D.Area self.area failed.area) }
        ensures cause { IfErr result (λ failed. D.failures failed.area ≡ D.failures self.area + 1) }
        ensures call { MatchResult result (λ log. IsOneCall D.Area true self.area log.area) (λ failed.
            IsOneCall D.Area false self.area failed.area) }
    {
        let Opened {
            mut area,
            end,
            words,
        } = self;
        match area.sync() {
            Ok(()) => Ok(Idle {
                area,
                end: end + words,
            }),
            Err(_) => Err(Failed { area }),
        }
    }
}
