//! What was read of a store, with nothing written.
ghost use Rattle.std.specs.Prelude.{◌≡◌, ◌^◌, ◌<◌, ◌⊎◌, ℕ, [], Err, IfErr, IfOk, OnOk, length, map, slice_get};
ghost use Rattle.std.specs.Prelude.{slice_index_or, ◌≢◌};
ghost use Rattle.lc_log.specs.InPlace.{records_in};
ghost use Rattle.lc_log.specs.LogText.{joined};
ghost use Rattle.lc_model.specs.Merge.{IsLeast, MergesTo};
ghost use Rattle.lc_record.specs.Content.{Content};
ghost use Rattle.lc_recover.specs.Fault.{IsRefusal};
ghost use Rattle.lc_recover.specs.KeptAreas.{IsReadOf, read_count};
ghost use Rattle.lc_recover.specs.Reads.{area_len, AreHonest, AreLeftAs, AreOfBytes, HaveLengths, store_of};
ghost use Rattle.lc_recover.specs.Recovery.{HasPageToWrite};
ghost use Rattle.lc_recover.specs.RecoveryPhase.{AreasFit};
ghost use Rattle.lc_recover.specs.declared.fault.RecoverFault.TheVariants.{BadGeometry, DeviceFault as Failed};
ghost use Rattle.lc_recover.specs.declared.fault.RecoverFault.TheVariants.{NoMemory};
ghost use Rattle.lc_recover.specs.declared.recovery_phase.RecoveryPhase.{RecoveryPhase};

use crate::areas::first_wrong;
use crate::log_extent::LogExtent;
use crate::merge::merge;
use crate::page_writes::PageWrites;
use crate::read_areas::ReadAreas;
use crate::reading::read_area;
use crate::record_cursor::records_of;
use crate::{Forecast, RecoverFault};
use lc_disk::Area;
use lc_record::Geometry;
use std::alloc::Global;
use std::marker::Model;

/// What was read of the areas of a store: the records of each log, and the pages of each segment.
#[derive(Drop)]
pub struct Survey {
    geometry: Geometry,
    read: ReadAreas,
}

impl Model for Survey {
    ghost use Rattle.lc_recover.specs.Survey.{Surveyed, IsSurveyed, surveyed};

    ghost Value = { Surveyed };

    ghost view = { λ s. surveyed s.geometry s.read };

    ghost invariant = { λ s. IsSurveyed s.geometry s.read };
}

impl Survey {
    ghost use Rattle.lc_recover.specs.Forecast.{IsForecast};

    /// Reads each of these areas once, whole. It syncs none and writes to none, so it may find what is not stable.
    ///
    /// # Errors
    ///
    /// `BadGeometry` names the least index at which there is no area of the right length, or one where there should be
    /// none: then no area is called. `NoMemory` and `DeviceFault` are met at the first area that cannot be read.
    pub fn read<D: Area>(
        alloc: Global,
        geometry: &Geometry,
        areas: &mut [D],
    ) -> Result<Survey, RecoverFault>
        ensures right { OnOk result (HaveLengths D.Area geometry.now areas.old) }
        ensures bytes { OnOk result (AreOfBytes D.Area areas.old) }
        ensures wrong { (area : ℕ) → IsLeast
            (λ k. slice_get (map (λ d. length (D.now d)) areas.old) k ≢ area_len geometry.now k) area
            → (result ≡ Err (BadGeometry area)) }
        ensures fault { IfErr result (λ fault. HaveLengths D.Area geometry.now areas.old
            → (fault ≡ NoMemory) ⊎ (fault ≡ Failed)) }
        ensures geometry { IfOk result (λ survey. survey.geometry ≡ geometry.now) }
        ensures read { IfOk result (λ survey. AreHonest D.Area areas.old
            → survey.store ≡ store_of geometry.now (map D.now areas.old)) }

        // Also after a fault.
        ensures left { AreLeftAs D.Area areas.old areas.new }
        ensures honest { AreHonest D.Area areas.old → AreHonest D.Area areas.new }
        ensures reads { AreHonest D.Area areas.old → map D.now areas.new ≡ map D.now areas.old }
    {
        if let Some(area) = first_wrong(geometry, areas) {
            let area = area as u32;
            return Err(RecoverFault::BadGeometry { area });
        }
        let read = read_all(alloc, geometry, areas)?;
        Ok(Survey {
            geometry: *geometry,
            read,
        })
    }

    /// How many records the log of a node has, and how many words they take.
    pub fn log(&self, node: u16) -> LogExtent
        requires { node < self.now.geometry.nodes }
        ensures records { result.records ≡ length (slice_index_or self.now.store.logs node []) }
        ensures words { result.words ≡ length (joined (slice_index_or self.now.store.logs node [])) }
    {
        extent_of(self.read.kept.logs[node as usize].as_slice())
    }

    /// What a recovery of the store would make of it: the merge that it makes.
    ///
    /// # Errors
    ///
    /// Where the merge is refused, the refusal of a recovery. `NoMemory` only where it is not refused and some page is
    /// to be written.
    pub fn forecast(self, alloc: Global) -> Result<Forecast, RecoverFault>
        ensures merged { IfOk result IsForecast }
        ensures store { IfOk result (λ forecast. forecast.store ≡ self.store) }
        ensures geometry { IfOk result (λ forecast. forecast.geometry ≡ self.geometry) }
        ensures refused { IfErr result (IsRefusal self.store) }
        ensures accepted { (content : Content) (numbers : ℕ → ℕ) → MergesTo self.store content numbers
            → IfErr result (λ fault. fault ≡ NoMemory) }
        ensures no_memory { result ≡ Err NoMemory → HasPageToWrite self.store }
    {
        let Survey { geometry, mut read } = self;
        let changes = merge(alloc, &mut read)?;
        Ok(Forecast::new(geometry, PageWrites::new(read, changes)))
    }
}

// Reads all areas, which have their lengths.
fn read_all<D: Area>(
    alloc: Global,
    geometry: &Geometry,
    areas: &mut [D],
) -> Result<ReadAreas, RecoverFault>
    requires { AreasFit D.Area geometry.now (RecoveryPhase.Syncing 0) areas.old }
    ensures read { IfOk result (IsReadOf D.Area geometry.now areas.new) }
    ensures count { IfOk result (λ read. read_count read ≡ length areas.old) }
    ensures fault { IfErr result (λ fault. (fault ≡ NoMemory) ⊎ (fault ≡ Failed)) }
    ensures left { AreLeftAs D.Area areas.old areas.new }
    ensures honest { AreHonest D.Area areas.old → AreHonest D.Area areas.new }
    ensures reads { AreHonest D.Area areas.old → map D.now areas.new ≡ map D.now areas.old }
{
    let mut read = ReadAreas::new(alloc);
    for _ in 0..areas.len() {
        read_area(alloc, geometry, areas, &mut read)?;
    }
    Ok(read)
}

// The records of a log's words.
fn extent_of(words: &[u64]) -> LogExtent
    requires { length words.now < 2 ^ 32 }
    ensures records { result.records ≡ length (records_in words.now) }
    ensures words { result.words ≡ length (joined (records_in words.now)) }
{
    let mut extent = LogExtent {
        records: 0,
        words: 0,
    };
    for (place, record) in records_of(words) {
        extent.records += 1;
        extent.words = place + record.len();
    }
    extent
}
