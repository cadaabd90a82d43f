//! The recovery of a store, step by step.
ghost use Rattle.std.specs.Prelude.{[], ◌≡◌, ◌≢◌, ◌+◌, ◌*◌, ◌<◌, ◌≤◌, ◌↔◌, ◌⊎◌, ℕ, List, length, map, take, drop};
ghost use Rattle.std.specs.Prelude.{false, true, Some, None, Err, IfOk, IfErr, OnOk, OnErr, IsTrue, is_ok};
ghost use Rattle.std.specs.Prelude.{option_copied, slice_get};
ghost use Rattle.lc_model.specs.Merge.{IsLeast};
ghost use Rattle.lc_record.specs.Content.{Content};
ghost use Rattle.lc_recover.specs.Fault.{IsRefusal};
ghost use Rattle.lc_recover.specs.Reads.{area_count, area_len, AreHonest, AreOfBytes, AllMergeTo, HaveLengths};
ghost use Rattle.lc_recover.specs.Reads.{store_of};
ghost use Rattle.lc_recover.specs.Steps.{first_steps};
ghost use Rattle.lc_recover.specs.declared.fault.RecoverFault.TheVariants.{BadGeometry, NoMemory};
ghost use Rattle.lc_recover.specs.declared.fault.RecoverFault.TheVariants.{DeviceFault as Failed};

use crate::advance::advance;
use crate::areas::first_wrong;
use crate::log_resets::LOG_CALLS;
use crate::page_writes::PAGE_CALLS;
use crate::recovery_phase::RecoveryPhase;
use crate::{Progress, RecoverFault, Recovered};
use lc_disk::{Area, DeviceFault};
use lc_record::Geometry;
use std::alloc::Global;
use std::marker::Model;
use std::mem;

/// The recovery of a store from its areas: the logs of its nodes, then its segments. It syncs each area, reads each
/// whole, merges all that was read, writes the pages that some record is newer than, and empties the logs. Each step
/// makes one device call, but for the merge, which makes none.
///
/// Idea: RVM's recovery from a log (Satyanarayanan et al., TOCS 1994), here from the logs of all nodes (Feeley et al.,
/// OSDI 1994); that each step keeps the one result of every image is this project's own.
#[derive(Drop)]
pub struct Recovery<D: Area> {
    geometry: Geometry,
    areas: Vec<D>,
    stage: RecoveryPhase,
}

impl<D: Area> Model for Recovery<D> {
    ghost use Rattle.lc_recover.specs.Recovery.{Recovering, recovering, IsGoing};

    ghost Value = { Recovering D };

    ghost view = { λ r. recovering r.geometry r.areas.items r.stage };

    ghost invariant = { λ r. IsGoing D.Area r.geometry r.stage r.areas.items };
}

impl<D: Area> Recovery<D> {
    ghost use Rattle.lc_recover.specs.Recovered.{AreFinished, IsMade, page_read};
    ghost use Rattle.lc_recover.specs.Recovery.{Recovering, all_steps, begun, HasPageToWrite, IsDone, IsLast};
    ghost use Rattle.lc_recover.specs.Recovery.{IsMergeNext, IsMerged, IsReadFrom, MakesItsCall, MergesRead};
    ghost use Rattle.lc_recover.specs.Recovery.{RefusesRead, Renews, TakesMemory, Tells};

    /// Begins the recovery of these areas. It takes no memory and calls no area. Where one has a length that is not
    /// that of the geometry, is missing, or is too many, the least such index is named, and the areas come back.
    pub fn new(geometry: Geometry, areas: Vec<D>) -> Result<Recovery<D>, (Vec<D>, RecoverFault)>
        ensures begun { IfOk result (λ r. r ≡ begun geometry areas.items) }
        ensures right { OnOk result (HaveLengths D.Area geometry areas.items) }
        ensures bytes { OnOk result (AreOfBytes D.Area areas.items) }
        ensures back { IfErr result (λ back. back.0.items ≡ areas.items) }
        ensures wrong { IfErr result (λ back. (area : ℕ) × (back.1 ≡ BadGeometry area)
            × IsLeast (λ k. slice_get (map (λ d. length (D.now d)) areas.items) k ≢ area_len geometry k) area) }
    {
        if let Some(area) = first_wrong(&geometry, areas.as_slice()) {
            let area = area as u32;
            return Err((areas, RecoverFault::BadGeometry { area }));
        }
        Ok(Recovery {
            geometry,
            areas,
            stage: RecoveryPhase::Syncing(0),
        })
    }

    /// Makes the next step, until one has answered `Recovered`. Memory is wanted by the steps that read an area, before
    /// they call it, and by the merge alone, and by that only where some page is to be written.
    ///
    /// # Errors
    ///
    /// After want of memory nothing has changed, and the same step may be tried again. After any other fault the next
    /// step is the first sync.
    pub fn step(&mut self, alloc: Global) -> Result<Progress, RecoverFault>
        requires { IsDone self.old → ⊥ }

        ensures geometry { self.new.geometry ≡ self.old.geometry }
        ensures lengths { HaveLengths D.Area self.new.geometry self.new.areas }
        ensures bytes { AreOfBytes D.Area self.new.areas }
        ensures honest { AreHonest D.Area self.old.areas → AreHonest D.Area self.new.areas }
        ensures honest_before { AreHonest D.Area self.new.areas → AreHonest D.Area self.old.areas }
        ensures progress { IfOk result (λ progress. Tells progress self.new) }
        ensures steps { OnOk result (self.new.steps ≡ self.old.steps + 1) }
        ensures bound { self.new.steps ≤ all_steps self.new.geometry
            (self.new.geometry.segments * self.new.geometry.pages) }
        ensures last { IfOk result (λ progress. IsDone self.new → IsLast self.old) }
        ensures no_memory { result ≡ Err NoMemory → TakesMemory self.old × (self.new ≡ self.old) }
        ensures again { IfErr result (λ fault. (fault ≡ NoMemory → ⊥)
            → self.new ≡ begun self.old.geometry self.new.areas) }

        // One call, or none.
        ensures call { (IsMergeNext self.old → ⊥) → (result ≡ Err NoMemory → ⊥)
            → MakesItsCall D.Area self.old self.new.areas (is_ok result) }
        ensures no_call { IsMergeNext self.old → self.new.areas ≡ self.old.areas }
        ensures fault { IfErr result (λ fault. (IsMergeNext self.old → ⊥) → (fault ≡ NoMemory) ⊎ (fault ≡ Failed)) }

        // A sync or a read, also one that fails, leaves what the areas read as.
        ensures reads { self.old.steps + 1 < first_steps self.old.geometry → AreHonest D.Area self.old.areas
            → map D.now self.new.areas ≡ map D.now self.old.areas }

        // The merge of what the areas read as is refused just where it has to be. What was read of an area that is not
        // honest may be anything.
        ensures merged { OnOk result (IsMergeNext self.old → AreHonest D.Area self.old.areas
            → IsMerged D.Area self.new) }
        ensures refused { IfErr result (λ fault. IsMergeNext self.old → AreHonest D.Area self.old.areas
            → IsRefusal (store_of self.old.geometry (map D.now self.old.areas)) fault) }
        // It wants memory only where it is not refused and some page is to be written.
        ensures no_memory_merged { result ≡ Err NoMemory → IsMergeNext self.old → AreHonest D.Area self.old.areas
            → HasPageToWrite (store_of self.old.geometry (map D.now self.old.areas)) }
        // Whatever the areas are, it is refused just where what was read of them has to be.
        ensures told { OnOk result (IsMergeNext self.old → MergesRead self.old.geometry) }
        ensures told_refused { IfErr result (λ fault. IsMergeNext self.old → RefusesRead self.old.geometry fault) }
        ensures merge_fault { IfErr result (λ fault. IsMergeNext self.old → fault ≢ Failed) }
        ensures accepted { (content : Content) (numbers : ℕ → ℕ) → AreHonest D.Area self.old.areas
            → AllMergeTo D.Area self.old.geometry self.old.areas content numbers
            → IfErr result (λ fault. (fault ≡ NoMemory) ⊎ (fault ≡ Failed)) }
        ensures pages { OnOk result ((pages : ℕ) → self.old.pages ≡ Some pages → self.new.pages ≡ Some pages) }

        // The pages that are left are written one after another, and no other changes.
        ensures keeps { OnOk result ((IsMergeNext self.old → ⊥) → AreHonest D.Area self.new.areas
            → Renews D.Area self.old self.new) }

        // Whatever a stop leaves has the same result, also after a fault.
        ensures merges { (content : Content) (numbers : ℕ → ℕ) → AreHonest D.Area self.new.areas
            → AllMergeTo D.Area self.old.geometry self.old.areas content numbers
            → AllMergeTo D.Area self.old.geometry self.new.areas content numbers }

        // After the last sync no position is dirty, up to the first write.
        ensures clean { AreHonest D.Area self.new.areas → area_count self.new.geometry ≤ self.new.steps
            → self.new.steps ≤ first_steps self.new.geometry
            → (k : ℕ) (area : D) → slice_get self.new.areas k ≡ Some area → (at : ℕ) → D.dirty area at ≡ false }
    {
        let stage = mem::replace(&mut self.stage, RecoveryPhase::Syncing(0));
        match advance(alloc, &self.geometry, self.areas.as_mut_slice(), stage) {
            Ok(stage) => {
                self.stage = stage;
                Ok(self.progress())
            }
            Err(stopped) => {
                self.stage = stopped.stage;
                Err(stopped.fault)
            }
        }
    }

    // How far it has come.
    fn progress(&self) -> Progress
        ensures { Tells result self.now }
    {
        if self.is_done() {
            return Progress::Recovered;
        }
        Progress::Stepped(self.steps())
    }

    /// How many there are of each thing in the store. The areas are as long as it says.
    pub fn geometry(&self) -> Geometry
        ensures geometry { result ≡ self.now.geometry }
        ensures lengths { HaveLengths D.Area self.now.geometry self.now.areas }
    {
        self.geometry
    }

    /// How many steps are done since the last fault but want of memory.
    pub fn steps(&self) -> u64
        ensures { result ≡ self.now.steps }
    {
        let areas = self.areas.len() as u64;
        let first = 2 * areas + 1;
        match &self.stage {
            RecoveryPhase::Syncing(synced) => *synced as u64,
            RecoveryPhase::Reading(read) => areas + read.count() as u64,
            RecoveryPhase::Writing(writes) => first + writes.calls(),
            RecoveryPhase::Resetting(resets) => first
                + PAGE_CALLS * resets.written
                + resets.calls(),
            RecoveryPhase::Done(finished) => {
                let resets = LOG_CALLS * self.geometry.nodes as u64;
                first + PAGE_CALLS * finished.written + resets
            }
        }
    }

    /// Whether all is done: a step has answered `Recovered`.
    pub fn is_done(&self) -> bool
        ensures { IsTrue result ↔ IsDone self.now }
    {
        matches!(self.stage, RecoveryPhase::Done(_))
    }

    /// Whether the next step is the last, if the device does not fail.
    pub fn is_last(&self) -> bool
        ensures { IsTrue result ↔ IsLast self.now }
    {
        match &self.stage {
            RecoveryPhase::Resetting(resets) => {
                resets.is_closing && resets.next + 1 == self.geometry.nodes as usize
            }
            _ => false,
        }
    }

    /// Fills a buffer with the bytes of an area from a position on. Nothing changes of what the area reads as.
    pub fn read(&mut self, area: usize, at: usize, buffer: &mut [u8]) -> Result<(), DeviceFault>
        requires within { (d : D) → slice_get self.old.areas area ≡ Some d → at + length buffer.old ≤ length (D.now d) }
        requires area { area < area_count self.old.geometry }
        ensures same { self.new ≡ record self.old { areas = self.new.areas } }
        ensures lengths { HaveLengths D.Area self.new.geometry self.new.areas }
        ensures read { IsReadFrom D.Area area at buffer.old buffer.new self.old.areas self.new.areas (is_ok result) }
    {
        self.areas[area].read(at, buffer)
    }

    /// The area at this place in their order, where there is one.
    pub fn area(&self, place: usize) -> Option<&D>
        ensures { option_copied result ≡ slice_get self.now.areas place }
    {
        self.areas.get(place)
    }

    /// The areas in their order, as they are now.
    pub fn areas(self) -> Vec<D>
        ensures { result.items ≡ self.areas }
    {
        let Recovery {
            geometry: _geometry,
            areas,
            stage: _stage,
        } = self;
        areas
    }

    /// What the recovery has made of the store, where it is done.
    pub fn finish(self) -> Recovered<D>
        requires { IsDone self }
        ensures geometry { result.geometry ≡ self.geometry }
        ensures areas { result.areas ≡ self.areas }
        ensures lengths { HaveLengths D.Area result.geometry result.areas }
        ensures all { self.left ≡ [] }
        ensures kept { map (map page_read) result.pages ≡ self.kept }
        // Whatever the areas are, it is what the reads of them gave, merged.
        ensures made { IsMade D.Area result }
        ensures each { AreFinished D.Area result }
    {
        let Recovery {
            geometry,
            areas,
            stage,
        } = self;
        let RecoveryPhase::Done(finished) = stage else {
            unreachable!();
        };
        Recovered::new(geometry, areas, finished)
    }
}
