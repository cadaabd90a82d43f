//! A log with a stable group behind its closed gate.
ghost use Rattle.std.specs.Prelude.{◌≡◌, ℕ, ◌+◌, ◌*◌, ◌<◌, ◌≤◌, ◌^◌, List, [], ◌∷◌, length, IfOk, IfErr, true, false};
ghost use Rattle.std.specs.Prelude.{MatchResult};

use crate::idle::WORD_BYTES;
use crate::{Failed, Opened};
use lc_disk::Area;

const OPEN_GATE: u8 = 0xa5;

/// A log with a stable group behind the closed gate.
#[derive(Drop)]
pub struct Synced<D: Area> {
    /// The log's area.
    pub area: D,
    /// The end of the stable records, in words.
    pub end: usize,
    /// The words of the group.
    pub words: usize,
    ghost room: { 8 * (end + words) + 8 ≤ length (D.now area) },
    ghost small: { length (D.now area) < 2 ^ 64 },
}

impl<D: Area> Synced<D> {
    ghost use Rattle.lc_record.specs.declared.record.Record.{Record};
    ghost use Rattle.lc_log.specs.NodeLog.{IsSynced, IsOpened, IsWithOrWithout, LeavesOnly, Wrote, Continues};
    ghost use Rattle.lc_log.specs.OneCall.{IsOneCall};

    /// Opens the gate.
    pub fn open_gate(self) -> Result<Opened<D>, Failed<D>>
        ensures opened { IfOk result (λ log. (stable records : List Record)
            → IsSynced D.Area self.area self.end self.words stable records
            → IsOpened D.Area log.area log.end log.words stable records) }

        // A stop leaves the stable records, or these and the whole group.
        ensures images { IfOk result (λ log. (stable records : List Record)
            → IsSynced D.Area self.area self.end self.words stable records
            → LeavesOnly D.Area log.area (IsWithOrWithout stable records)) }

        ensures wrote { IfOk result (λ log. Wrote D.Area (8 * self.end) (165 ∷ []) self.area log.area) }
        ensures end { IfOk result (λ log. log.end ≡ self.end) }
        ensures words { IfOk result (λ log. log.words ≡ self.words) }
        ensures device { IfOk result (λ log. Continues D.Area self.area log.area) }
        ensures no_cause { IfOk result (λ log. D.failures log.area ≡ D.failures self.area) }

        ensures failed { IfErr result (λ failed. (stable records : List Record)
            → IsSynced D.Area self.area self.end self.words stable records
            → LeavesOnly D.Area failed.area (IsWithOrWithout stable records)) }

        ensures failed_device { IfErr result (λ failed. Continues D.Area self.area failed.area) }
        ensures cause { IfErr result (λ failed. D.failures failed.area ≡ D.failures self.area + 1) }
        ensures call { MatchResult result (λ log. IsOneCall D.Area true self.area log.area) (λ failed.
            IsOneCall D.Area false self.area failed.area) }
    {
        let Synced {
            mut area,
            end,
            words,
        } = self;
        match area.write_at(WORD_BYTES * end, &[OPEN_GATE]) {
            Ok(()) => Ok(Opened { area, end, words }),
            Err(_) => Err(Failed { area }),
        }
    }
}
