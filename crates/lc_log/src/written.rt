//! A log with a group written behind its closed gate.
ghost use Rattle.std.specs.Prelude.{◌≡◌, ℕ, ◌+◌, ◌*◌, ◌<◌, ◌≤◌, ◌^◌, List, length, IfOk, IfErr, true, false};
ghost use Rattle.std.specs.Prelude.{MatchResult};

use crate::{Failed, Synced};
use lc_disk::Area;

/// A log with a group behind the closed gate, which may be torn.
#[derive(Drop)]
pub struct Written<D: Area> {
    /// The log's area.
    pub area: D,
    /// The end of the stable records, in words.
    pub end: usize,
    /// The words of the group.
    pub words: usize,
    ghost room: { 8 * (end + words) + 8 ≤ length (D.now area) },
    ghost small: { length (D.now area) < 2 ^ 64 },
}

impl<D: Area> Written<D> {
    ghost use Rattle.lc_record.specs.declared.record.Record.{Record};
    ghost use Rattle.lc_log.specs.LogText.{IsLogText};
    ghost use Rattle.lc_log.specs.NodeLog.{IsWritten, IsSynced, LeavesOnly, MadeStable, Continues};
    ghost use Rattle.lc_log.specs.OneCall.{IsOneCall};

    /// Makes the group stable, behind the closed gate.
    pub fn sync_group(self) -> Result<Synced<D>, Failed<D>>
        ensures synced { IfOk result (λ log. (stable records : List Record)
            → IsWritten D.Area self.area self.end self.words stable records
            → IsSynced D.Area log.area log.end log.words stable records) }

        // A stop leaves the stable records.
        ensures images { IfOk result (λ log. (stable records : List Record)
            → IsWritten D.Area self.area self.end self.words stable records
            → LeavesOnly D.Area log.area (λ words. IsLogText words stable)) }

        ensures stable { IfOk result (λ log. MadeStable D.Area self.area log.area) }
        ensures end { IfOk result (λ log. log.end ≡ self.end) }
        ensures words { IfOk result (λ log. log.words ≡ self.words) }
        ensures device { IfOk result (λ log. Continues D.Area self.area log.area) }
        ensures no_cause { IfOk result (λ log. D.failures log.area ≡ D.failures self.area) }

        ensures failed { IfErr result (λ failed. (stable records : List Record)
            → IsWritten D.Area self.area self.end self.words stable records
            → LeavesOnly D.Area failed.area (λ words. IsLogText words stable)) }

        ensures failed_device { IfErr result (λ failed. Continues D.Area self.area failed.area) }
        ensures cause { IfErr result (λ failed. D.failures failed.area ≡ D.failures self.area + 1) }
        ensures call { MatchResult result (λ log. IsOneCall D.Area true self.area log.area) (λ failed.
            IsOneCall D.Area false self.area failed.area) }
    {
        let Written {
            mut area,
            end,
            words,
        } = self;
        match area.sync() {
            Ok(()) => Ok(Synced { area, end, words }),
            Err(_) => Err(Failed { area }),
        }
    }
}
