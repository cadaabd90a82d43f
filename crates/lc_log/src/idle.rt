//! A log at rest, and the calls that begin on it.
ghost use Rattle.std.specs.Prelude.{◌≡◌, ◌≢◌, ℕ, ◌+◌, ◌*◌, ◌%◌, ◌<◌, ◌≤◌, ◌^◌, ◌++◌, List, [], ◌∷◌, true, false};
ghost use Rattle.std.specs.Prelude.{length, drop, slice_index, ◌==◌, if◌then◌else◌, IfOk, IfErr, MatchResult};
ghost use Rattle.lc_disk.specs.Area.{IsClean, overlaid};
ghost use Rattle.lc_record.specs.Words.{bytes_of};

use crate::{Closing, Failed, Written};
use lc_disk::Area;
use lc_record::Group;

pub(crate) const WORD_BYTES: usize = 8;

/// A log with stable records and nothing under way. That a log has the new values alone is RVM's (Satyanarayanan et
/// al., TOCS 1994); its states and its gates are this project's own.
#[derive(Drop)]
pub struct Idle<D: Area> {
    /// The log's area.
    pub area: D,
    /// The end of the stable records, in words.
    pub end: usize,
    ghost room: { 8 * end + 8 ≤ length (D.now area) },
    ghost small: { length (D.now area) < 2 ^ 64 },
}

impl<D: Area> Idle<D> {
    ghost use Rattle.lc_record.specs.declared.record.Record.{Record};
    ghost use Rattle.lc_log.specs.LogText.{IsLogText};
    ghost use Rattle.lc_log.specs.NodeLog.{IsIdle, IsWritten, IsClosing, IsGroup, IsUntouched, IsWithOrWithout};
    ghost use Rattle.lc_log.specs.NodeLog.{LeavesOnly, Wrote, Continues};
    ghost use Rattle.lc_log.specs.OneCall.{IsOneCall};

    /// The log of an area that begins with no open gate, as it will after any stop: it has no record.
    pub fn new(area: D) -> Self
        requires room { 8 ≤ length (D.now area) }
        requires closed { D.honest area ≡ true → slice_index (D.now area) 0 % 256 ≢ 165 }
        requires clean { D.honest area ≡ true → D.dirty area 0 ≡ false }
        ensures idle { IsIdle D.Area result.area result.end [] }
        ensures area { result.area ≡ area }
        ensures end { result.end ≡ 0 }
    {
        Idle { area, end: 0 }
    }

    /// Makes a group stable, after the records that are: the four calls of the device in a row. A group is one record
    /// or more, and fits.
    pub fn flush(self, group: &Group) -> Result<Idle<D>, Failed<D>>
        requires fits { 8 * (self.end + length group.now.words) + 8 ≤ length (D.now self.area) }

        ensures flushed { IfOk result (λ log. (stable records : List Record)
            → IsIdle D.Area self.area self.end stable → IsGroup group.now.words records
            → IsIdle D.Area log.area log.end (stable ++ records)) }

        ensures images { IfOk result (λ log. (stable records : List Record)
            → IsIdle D.Area self.area self.end stable → IsGroup group.now.words records
            → LeavesOnly D.Area log.area (λ words. IsLogText words (stable ++ records))) }

        // The group stands after the records, with its gate open, and then a zero word.
        ensures wrote { IfOk result (λ log. D.honest self.area ≡ true
            → D.now log.area ≡ overlaid (D.now self.area) (8 * self.end)
            (165 ∷ drop 1 (bytes_of (group.now.words ++ 0 ∷ [])))) }

        ensures stable { IfOk result (λ log. D.honest self.area ≡ true → IsClean (D.dirty log.area)) }
        ensures end { IfOk result (λ log. log.end ≡ self.end + length group.now.words) }
        ensures device { IfOk result (λ log. Continues D.Area self.area log.area) }
        ensures no_cause { IfOk result (λ log. D.failures log.area ≡ D.failures self.area) }

        // After a fault a stop leaves the stable records, or these and the whole group.
        ensures failed { IfErr result (λ failed. (stable records : List Record)
            → IsIdle D.Area self.area self.end stable → IsGroup group.now.words records
            → LeavesOnly D.Area failed.area (IsWithOrWithout stable records)) }

        ensures failed_device { IfErr result (λ failed. Continues D.Area self.area failed.area) }
        ensures cause { IfErr result (λ failed. D.failures failed.area ≡ D.failures self.area + 1) }
    {
        self.write_group(group)?
            .sync_group()?
            .open_gate()?
            .sync_gate()
    }

    /// Writes a group behind the closed gate, and closes the gate after it. A group is one record or more, and fits.
    pub fn write_group(self, group: &Group) -> Result<Written<D>, Failed<D>>
        requires fits { 8 * (self.end + length group.now.words) + 8 ≤ length (D.now self.area) }

        ensures written { IfOk result (λ log. (stable records : List Record)
            → IsIdle D.Area self.area self.end stable → IsGroup group.now.words records
            → IsWritten D.Area log.area log.end log.words stable records) }

        // A stop leaves the stable records.
        ensures images { IfOk result (λ log. (stable : List Record)
            → IsIdle D.Area self.area self.end stable
            → LeavesOnly D.Area log.area (λ words. IsLogText words stable)) }

        ensures wrote { IfOk result (λ log.
            Wrote D.Area (8 * self.end + 1) (drop 1 (bytes_of (group.now.words ++ 0 ∷ []))) self.area log.area) }
        ensures end { IfOk result (λ log. log.end ≡ self.end) }
        ensures words { IfOk result (λ log. log.words ≡ length group.now.words) }
        ensures device { IfOk result (λ log. Continues D.Area self.area log.area) }
        ensures no_cause { IfOk result (λ log. D.failures log.area ≡ D.failures self.area) }

        ensures failed { IfErr result (λ failed. (stable : List Record)
            → IsIdle D.Area self.area self.end stable
            → LeavesOnly D.Area failed.area (λ words. IsLogText words stable)) }

        ensures failed_device { IfErr result (λ failed. Continues D.Area self.area failed.area) }
        ensures cause { IfErr result (λ failed. D.failures failed.area ≡ D.failures self.area + 1) }
        ensures call { MatchResult result (λ log. IsOneCall D.Area true self.area log.area) (λ failed.
            IsOneCall D.Area false self.area failed.area) }
    {
        let Idle { mut area, end } = self;
        match area.write_at(WORD_BYTES * end + 1, &group.bytes()[1..]) {
            Ok(()) => Ok(Written {
                area,
                end,
                words: group.len(),
            }),
            Err(_) => Err(Failed { area }),
        }
    }

    /// Closes the first gate. Where there is no record it reads closed: then the call is made with no bytes.
    pub fn reset_write(self) -> Result<Closing<D>, Failed<D>>
        ensures closing { IfOk result (λ log. (stable : List Record)
            → IsIdle D.Area self.area self.end stable
            → IsClosing D.Area log.area stable) }

        // A stop leaves all the records or none.
        ensures images { IfOk result (λ log. (stable : List Record)
            → IsIdle D.Area self.area self.end stable
            → LeavesOnly D.Area log.area (IsWithOrWithout [] stable)) }

        ensures wrote { IfOk result (λ log. Wrote D.Area 0 (if self.end == 0 then [] else 0 ∷ []) self.area log.area) }
        ensures device { IfOk result (λ log. Continues D.Area self.area log.area) }
        ensures no_cause { IfOk result (λ log. D.failures log.area ≡ D.failures self.area) }

        ensures failed { IfErr result (λ failed. (stable : List Record)
            → IsIdle D.Area self.area self.end stable
            → LeavesOnly D.Area failed.area (IsWithOrWithout [] stable)) }

        ensures failed_untouched { IfErr result (λ failed. self.end ≡ 0 → IsUntouched D.Area failed.area self.area) }
        ensures failed_device { IfErr result (λ failed. Continues D.Area self.area failed.area) }
        ensures cause { IfErr result (λ failed. D.failures failed.area ≡ D.failures self.area + 1) }
        ensures call { MatchResult result (λ log. IsOneCall D.Area true self.area log.area) (λ failed.
            IsOneCall D.Area false self.area failed.area) }
    {
        Closing::begin(self.area, self.end != 0)
    }
}
