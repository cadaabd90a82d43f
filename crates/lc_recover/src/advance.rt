//! From one step of a recovery to the next.
ghost use Rattle.std.specs.Prelude.{◌≡◌, ◌≢◌, ◌+◌, ◌*◌, ◌<◌, ◌≤◌, ◌⊎◌, ℕ, List, Some, None, false, true, length, map};
ghost use Rattle.std.specs.Prelude.{IfOk, IfErr, OnOk, is_ok};
ghost use Rattle.lc_record.specs.Content.{Content};
ghost use Rattle.lc_recover.specs.Fault.{IsRefusal};
ghost use Rattle.lc_recover.specs.KeptAreas.{IsReadWhole, read_count};
ghost use Rattle.lc_recover.specs.Merging.{IsMergedStage};
ghost use Rattle.lc_recover.specs.Reads.{AreHonest, AllMergeTo, store_of};
ghost use Rattle.lc_recover.specs.Recovery.{begun, recovering, HasPageToWrite, Renews, IsGoing, IsMerged, IsMergeNext};
ghost use Rattle.lc_recover.specs.Recovery.{MakesItsCall, MergesRead, RefusesRead, TakesMemory};
ghost use Rattle.lc_recover.specs.Stopped.{IsStopped};
ghost use Rattle.lc_recover.specs.RecoveryPhase.{AreasFit, Fits};
ghost use Rattle.lc_recover.specs.Steps.{first_steps, steps_of, all_pages, pages_in, HasNext, IsOver};
ghost use Rattle.lc_recover.specs.declared.fault.RecoverFault.TheVariants.{NoMemory, DeviceFault as Failed};
ghost use Rattle.lc_recover.specs.declared.recovery_phase.RecoveryPhase.{RecoveryPhase};

use crate::finished::Finished;
use crate::log_resets::LogResets;
use crate::merge::merge;
use crate::page_steps::write_next;
use crate::page_writes::PageWrites;
use crate::read_areas::ReadAreas;
use crate::reading::read_area;
use crate::recovery_phase::RecoveryPhase;
use crate::reset_steps::reset_next;
use crate::stopped::Stopped;
use crate::syncing::sync_area;
use lc_disk::{Area, DeviceFault};
use lc_record::Geometry;
use std::alloc::Global;

/// Makes the next step.
pub(crate) fn advance<D: Area>(
    alloc: Global,
    geometry: &Geometry,
    areas: &mut [D],
    stage: RecoveryPhase,
) -> Result<RecoveryPhase, Stopped>
    requires going { IsGoing D.Area geometry.now stage areas.old }
    requires left { IsOver stage → ⊥ }
    ensures going { IfOk result (λ next. IsGoing D.Area geometry.now next areas.new) }
    ensures stopped { IfErr result (λ stopped. IsGoing D.Area geometry.now stopped.stage areas.new) }
    ensures steps { IfOk result (λ next. steps_of geometry.now next ≡ steps_of geometry.now stage + 1) }
    ensures pages { IfOk result (λ next. (pages : ℕ) → pages_in stage ≡ Some pages → pages_in next ≡ Some pages) }
    ensures keeps { IfOk result (λ next. (IsMergeNext (recovering geometry.now areas.old stage) → ⊥)
        → AreHonest D.Area areas.new
        → Renews D.Area (recovering geometry.now areas.old stage) (recovering geometry.now areas.new next)) }
    ensures no_memory { IfErr result (λ stopped. stopped.fault ≡ NoMemory
        → TakesMemory (recovering geometry.now areas.old stage)
        × (recovering geometry.now areas.new stopped.stage ≡ recovering geometry.now areas.old stage)) }
    ensures again { IfErr result (λ stopped. (stopped.fault ≡ NoMemory → ⊥)
        → recovering geometry.now areas.new stopped.stage ≡ begun geometry.now areas.new) }
    ensures called { OnOk result ((IsMergeNext (recovering geometry.now areas.old stage) → ⊥)
        → MakesItsCall D.Area (recovering geometry.now areas.old stage) areas.new true) }
    ensures failed { IfErr result (λ stopped. (IsMergeNext (recovering geometry.now areas.old stage) → ⊥)
        → (stopped.fault ≡ NoMemory)
        ⊎ ((stopped.fault ≡ Failed) × MakesItsCall D.Area (recovering geometry.now areas.old stage) areas.new false)) }
    ensures no_call { IsMergeNext (recovering geometry.now areas.old stage) → areas.new ≡ areas.old }
    ensures reads { steps_of geometry.now stage + 1 < first_steps geometry.now → AreHonest D.Area areas.old
        → map D.now areas.new ≡ map D.now areas.old }
    ensures merged { IfOk result (λ next. IsMergeNext (recovering geometry.now areas.old stage)
        → AreHonest D.Area areas.old
        → IsMerged D.Area (recovering geometry.now areas.old next)) }
    ensures refused { IfErr result (λ stopped. IsMergeNext (recovering geometry.now areas.old stage)
        → AreHonest D.Area areas.old
        → IsRefusal (store_of geometry.now (map D.now areas.old)) stopped.fault) }
    ensures told { IfOk result (λ next. IsMergeNext (recovering geometry.now areas.old stage)
        → MergesRead geometry.now) }
    ensures told_refused { IfErr result (λ stopped. IsMergeNext (recovering geometry.now areas.old stage)
        → RefusesRead geometry.now stopped.fault) }
    ensures merge_fault { IfErr result (λ stopped. IsMergeNext (recovering geometry.now areas.old stage)
        → stopped.fault ≢ Failed) }
    ensures no_memory_merged { IfErr result (λ stopped. stopped.fault ≡ NoMemory
        → IsMergeNext (recovering geometry.now areas.old stage)
        → AreHonest D.Area areas.old → HasPageToWrite (store_of geometry.now (map D.now areas.old))) }
    ensures merges { (content : Content) (numbers : ℕ → ℕ) → AreHonest D.Area areas.new
        → AllMergeTo D.Area geometry.now areas.old content numbers
        → AllMergeTo D.Area geometry.now areas.new content numbers }
{
    match stage {
        RecoveryPhase::Syncing(synced) => Ok(sync_step(alloc, geometry, areas, synced)?),
        RecoveryPhase::Reading(read) => {
            if read.count() < areas.len() {
                return read_step(alloc, geometry, areas, read);
            }
            merge_step(alloc, geometry, areas, read)
        }
        RecoveryPhase::Writing(writes) => Ok(write_step(geometry, areas, writes)?),
        RecoveryPhase::Resetting(resets) => Ok(reset_step(geometry, areas, resets)?),
        RecoveryPhase::Done(finished) => Ok(RecoveryPhase::Done(finished)),
    }
}

/// Syncs the next area.
pub(crate) fn sync_step<D: Area>(
    alloc: Global,
    geometry: &Geometry,
    areas: &mut [D],
    synced: usize,
) -> Result<RecoveryPhase, DeviceFault>
    requires fits { Fits D.Area geometry.now (RecoveryPhase.Syncing synced) areas.old }
    ensures fits { IfOk result (λ stage. Fits D.Area geometry.now stage areas.new) }
    ensures next { IfOk result (HasNext geometry.now) }
    ensures steps { IfOk result (λ stage. steps_of geometry.now stage ≡ synced + 1) }
    ensures pages { IfOk result (λ stage. pages_in stage ≡ None) }
    ensures keeps { IfOk result (λ next. AreHonest D.Area areas.new
        → Renews D.Area (recovering geometry.now areas.old (RecoveryPhase.Syncing synced))
        (recovering geometry.now areas.new next)) }
    ensures areas { AreasFit D.Area geometry.now (RecoveryPhase.Syncing 0) areas.new }
    ensures call { MakesItsCall D.Area (recovering geometry.now areas.old (RecoveryPhase.Syncing synced)) areas.new
        (is_ok result) }
    ensures reads { AreHonest D.Area areas.old → map D.now areas.new ≡ map D.now areas.old }
    ensures merges { (content : Content) (numbers : ℕ → ℕ) → AreHonest D.Area areas.new
        → AllMergeTo D.Area geometry.now areas.old content numbers
        → AllMergeTo D.Area geometry.now areas.new content numbers }
{
    sync_area(geometry, areas, synced)?;
    if synced + 1 < areas.len() {
        return Ok(RecoveryPhase::Syncing(synced + 1));
    }
    Ok(RecoveryPhase::Reading(ReadAreas::new(alloc)))
}

/// Reads the next area. Where there is no memory nothing has changed.
pub(crate) fn read_step<D: Area>(
    alloc: Global,
    geometry: &Geometry,
    areas: &mut [D],
    read: ReadAreas,
) -> Result<RecoveryPhase, Stopped>
    requires fits { Fits D.Area geometry.now (RecoveryPhase.Reading read) areas.old }
    requires left { read_count read < length areas.old }
    ensures fits { IfOk result (λ stage. Fits D.Area geometry.now stage areas.new) }
    ensures next { IfOk result (HasNext geometry.now) }
    ensures steps { IfOk result (λ stage. steps_of geometry.now stage
        ≡ steps_of geometry.now (RecoveryPhase.Reading read) + 1) }
    ensures pages { IfOk result (λ stage. pages_in stage ≡ None) }
    ensures keeps { IfOk result (λ next. AreHonest D.Area areas.new
        → Renews D.Area (recovering geometry.now areas.old (RecoveryPhase.Reading read))
        (recovering geometry.now areas.new next)) }
    ensures stopped { IfErr result (IsStopped D.Area geometry.now (RecoveryPhase.Reading read) areas.old areas.new) }
    ensures call { IfOk result (λ stage.
        MakesItsCall D.Area (recovering geometry.now areas.old (RecoveryPhase.Reading read)) areas.new true) }
    ensures fault { IfErr result (λ stopped. (stopped.fault ≡ NoMemory)
        ⊎ ((stopped.fault ≡ Failed)
        × MakesItsCall D.Area (recovering geometry.now areas.old (RecoveryPhase.Reading read)) areas.new false)) }
    ensures reads { AreHonest D.Area areas.old → map D.now areas.new ≡ map D.now areas.old }
    ensures merges { (content : Content) (numbers : ℕ → ℕ) → AreHonest D.Area areas.new
        → AllMergeTo D.Area geometry.now areas.old content numbers
        → AllMergeTo D.Area geometry.now areas.new content numbers }
{
    let mut read = read;
    match read_area(alloc, geometry, areas, &mut read) {
        Ok(()) => Ok(RecoveryPhase::Reading(read)),
        Err(fault) => Err(Stopped::new(read, fault)),
    }
}

/// Merges what was read of all areas. Memory is wanted only where some page is to be written; where there is none the
/// merge may be tried again.
pub(crate) fn merge_step<D: Area>(
    alloc: Global,
    geometry: &Geometry,
    areas: &[D],
    read: ReadAreas,
) -> Result<RecoveryPhase, Stopped>
    requires fits { Fits D.Area geometry.now (RecoveryPhase.Reading read) areas.now }
    requires all { read_count read ≡ length areas.now }
    ensures fits { IfOk result (λ stage. Fits D.Area geometry.now stage areas.now) }
    ensures next { IfOk result (HasNext geometry.now) }
    ensures steps { IfOk result (λ stage. steps_of geometry.now stage
        ≡ steps_of geometry.now (RecoveryPhase.Reading read) + 1) }
    ensures merged { IfOk result (λ stage. (bytes : List (List ℕ)) → IsReadWhole geometry.now bytes read
        → IsMergedStage geometry.now bytes stage) }
    ensures few { IfOk result (λ stage. (pages : ℕ) → pages_in stage ≡ Some pages
        → pages ≤ geometry.now.segments * geometry.now.pages) }
    ensures stopped { IfErr result (IsStopped D.Area geometry.now (RecoveryPhase.Reading read) areas.now areas.now) }
    ensures refused { IfErr result (λ stopped. (bytes : List (List ℕ)) → IsReadWhole geometry.now bytes read
        → IsRefusal (store_of geometry.now bytes) stopped.fault) }
    ensures no_memory { IfErr result (λ stopped. stopped.fault ≡ NoMemory → (bytes : List (List ℕ))
        → IsReadWhole geometry.now bytes read
        → HasPageToWrite (store_of geometry.now bytes)) }
{
    let mut read = read;
    match merge(alloc, &mut read) {
        Ok(changes) => Ok(RecoveryPhase::Writing(PageWrites::new(read, changes))),
        Err(fault) => Err(Stopped::new(read, fault)),
    }
}

/// Makes the next call of the page writes. After the last one, the first of the resets.
pub(crate) fn write_step<D: Area>(
    geometry: &Geometry,
    areas: &mut [D],
    writes: PageWrites,
) -> Result<RecoveryPhase, DeviceFault>
    requires fits { Fits D.Area geometry.now (RecoveryPhase.Writing writes) areas.old }
    ensures fits { IfOk result (λ stage. Fits D.Area geometry.now stage areas.new) }
    ensures next { IfOk result (HasNext geometry.now) }
    ensures steps { IfOk result (λ stage. steps_of geometry.now stage
        ≡ steps_of geometry.now (RecoveryPhase.Writing writes) + 1) }
    ensures pages { IfOk result (λ stage. pages_in stage ≡ Some (all_pages writes)) }
    ensures keeps { IfOk result (λ next. AreHonest D.Area areas.new
        → Renews D.Area (recovering geometry.now areas.old (RecoveryPhase.Writing writes))
        (recovering geometry.now areas.new next)) }
    ensures areas { AreasFit D.Area geometry.now (RecoveryPhase.Syncing 0) areas.new }
    ensures call { MakesItsCall D.Area (recovering geometry.now areas.old (RecoveryPhase.Writing writes)) areas.new
        (is_ok result) }
    ensures merges { (content : Content) (numbers : ℕ → ℕ) → AreHonest D.Area areas.new
        → AllMergeTo D.Area geometry.now areas.old content numbers
        → AllMergeTo D.Area geometry.now areas.new content numbers }
{
    let mut writes = writes;
    if writes.next == writes.merged.changes.len() {
        return reset_step(geometry, areas, resets_of(writes));
    }
    write_next(geometry, areas, &mut writes)?;
    Ok(RecoveryPhase::Writing(writes))
}

// All pages are written: the logs are to be emptied.
fn resets_of(writes: PageWrites) -> LogResets
    ensures logs { result.logs ≡ writes.kept.logs }
    ensures segments { result.segments ≡ writes.kept.segments }
    ensures numbers { result.numbers ≡ writes.merged.numbers }
    ensures written { result.written ≡ writes.written }
    ensures next { result.next ≡ 0 }
    ensures at_rest { result.is_closing ≡ false }
{
    let kept = writes.kept;
    let merged = writes.merged;
    LogResets {
        logs: kept.logs,
        segments: kept.segments,
        numbers: merged.numbers,
        written: writes.written,
        next: 0,
        is_closing: false,
    }
}

/// Makes the next call of the resets. After the last one, all is done.
pub(crate) fn reset_step<D: Area>(
    geometry: &Geometry,
    areas: &mut [D],
    resets: LogResets,
) -> Result<RecoveryPhase, DeviceFault>
    requires fits { Fits D.Area geometry.now (RecoveryPhase.Resetting resets) areas.old }
    requires left { resets.next < geometry.now.nodes }
    ensures fits { IfOk result (λ stage. Fits D.Area geometry.now stage areas.new) }
    ensures next { IfOk result (HasNext geometry.now) }
    ensures steps { IfOk result (λ stage. steps_of geometry.now stage
        ≡ steps_of geometry.now (RecoveryPhase.Resetting resets) + 1) }
    ensures pages { IfOk result (λ stage. pages_in stage ≡ Some resets.written) }
    ensures keeps { IfOk result (λ next. AreHonest D.Area areas.new
        → Renews D.Area (recovering geometry.now areas.old (RecoveryPhase.Resetting resets))
        (recovering geometry.now areas.new next)) }
    ensures areas { AreasFit D.Area geometry.now (RecoveryPhase.Syncing 0) areas.new }
    ensures call { MakesItsCall D.Area (recovering geometry.now areas.old (RecoveryPhase.Resetting resets)) areas.new
        (is_ok result) }
    ensures merges { (content : Content) (numbers : ℕ → ℕ) → AreHonest D.Area areas.new
        → AllMergeTo D.Area geometry.now areas.old content numbers
        → AllMergeTo D.Area geometry.now areas.new content numbers }
{
    let mut resets = resets;
    reset_next(geometry, areas, &mut resets)?;
    if resets.next < geometry.nodes as usize {
        return Ok(RecoveryPhase::Resetting(resets));
    }
    Ok(RecoveryPhase::Done(Finished {
        segments: resets.segments,
        numbers: resets.numbers,
        written: resets.written,
    }))
}
