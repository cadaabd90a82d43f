//! The steps that read the areas.
ghost use Rattle.std.specs.Prelude.{◌≡◌, ◌+◌, ◌*◌, ◌<◌, ◌≤◌, ◌⊎◌, ℕ, Err, IfErr, OnOk, length, map, is_ok, true};
ghost use Rattle.lc_record.specs.Content.{Content};
ghost use Rattle.lc_log.specs.OneCall.{IsOneCall};
ghost use Rattle.lc_recover.specs.KeptAreas.{read_count, AddsLog, AddsSegment, IsReadOf, IsSameRead};
ghost use Rattle.lc_recover.specs.Reads.{AllMergeTo, AreHonest, AreLeftAs, IsLeftAs};
ghost use Rattle.lc_recover.specs.RecoveryPhase.{AreasFit, Fits, OneCall, Quiet};
ghost use Rattle.lc_recover.specs.declared.recovery_phase.RecoveryPhase.{RecoveryPhase};
ghost use Rattle.lc_recover.specs.declared.fault.RecoverFault.TheVariants.{NoMemory, DeviceFault as Failed};

use crate::RecoverFault;
use crate::buffers::zeros;
use crate::locks::{LOCK_WORDS, add_log};
use crate::numbers::greatest_sequence;
use crate::read_areas::ReadAreas;
use crate::segment_pages::SegmentPages;
use crate::words::{WORD_BYTES, fill_words};
use lc_disk::{Area, DeviceFault};
use lc_record::{Geometry, Items};
use std::alloc::Global;

/// Reads the next area whole. All memory is taken before the device is called: where there is none the area is not
/// called, and nothing has changed.
pub(crate) fn read_area<D: Area>(
    alloc: Global,
    geometry: &Geometry,
    areas: &mut [D],
    read: &mut ReadAreas,
) -> Result<(), RecoverFault>
    requires areas { AreasFit D.Area geometry.now (RecoveryPhase.Syncing 0) areas.old }
    requires left { read_count read.old < length areas.old }
    ensures fits { OnOk result (Fits D.Area geometry.now (RecoveryPhase.Reading read.old) areas.old
        → Fits D.Area geometry.now (RecoveryPhase.Reading read.new) areas.new) }
    ensures read { OnOk result (IsReadOf D.Area geometry.now areas.old read.old
        → IsReadOf D.Area geometry.now areas.new read.new) }
    ensures next { OnOk result (read_count read.new ≡ read_count read.old + 1) }
    ensures no_memory { result ≡ Err NoMemory → (areas.new ≡ areas.old) × IsSameRead read.old read.new }
    ensures areas { AreasFit D.Area geometry.now (RecoveryPhase.Syncing 0) areas.new }
    ensures call { (result ≡ Err NoMemory → ⊥)
        → OneCall D.Area (read_count read.old) areas.old areas.new (is_ok result) }
    ensures honest { AreHonest D.Area areas.old → AreHonest D.Area areas.new }
    ensures left { AreLeftAs D.Area areas.old areas.new }
    ensures reads { AreHonest D.Area areas.old → map D.now areas.new ≡ map D.now areas.old }
    ensures merges { (content : Content) (numbers : ℕ → ℕ) → AreHonest D.Area areas.new
        → AllMergeTo D.Area geometry.now areas.old content numbers
        → AllMergeTo D.Area geometry.now areas.new content numbers }
    ensures fault { IfErr result (λ fault. (fault ≡ NoMemory) ⊎ (fault ≡ Failed)) }
{
    let place = read.count();
    if place < geometry.nodes as usize {
        read_log(alloc, &mut areas[place], read)
    } else {
        read_segment(alloc, geometry, &mut areas[place], read)
    }
}

// Reads the log of a node: its words, and the numbers of its records.
fn read_log<D: Area>(alloc: Global, area: &mut D, read: &mut ReadAreas) -> Result<(), RecoverFault>
    ensures read { OnOk result (AddsLog D.Area area.old read.old read.new) }
    ensures no_memory { result ≡ Err NoMemory → (area.new ≡ area.old) × IsSameRead read.old read.new }
    ensures quiet { Quiet D.Area area.old area.new }
    ensures left { IsLeftAs D.Area area.old area.new }
    ensures call { (result ≡ Err NoMemory → ⊥) → IsOneCall D.Area (is_ok result) area.old area.new }
    ensures fault { IfErr result (λ fault. (fault ≡ NoMemory) ⊎ (fault ≡ Failed)) }
{
    let mut bytes = zeros(alloc, area.len())?;
    let mut words = Vec::with_capacity(alloc, bytes.len() / WORD_BYTES)?;
    read.kept.logs.reserve(1)?;
    read.locks.reserve(bytes.len() / (WORD_BYTES * LOCK_WORDS))?;
    read_whole(area, &mut bytes)?;
    fill_words(&mut words, bytes.as_slice());
    add_log(&mut read.locks, words.as_slice());
    read.kept.logs.push_reserved(Items::new(words));
    Ok(())
}

// Reads the area of a segment: its pages, and their greatest sequence.
fn read_segment<D: Area>(
    alloc: Global,
    geometry: &Geometry,
    area: &mut D,
    read: &mut ReadAreas,
) -> Result<(), RecoverFault>
    requires { 2 * 272 * geometry.now.pages ≤ length (D.now area.old) }
    ensures read { OnOk result (AddsSegment D.Area geometry.now.pages area.old read.old read.new) }
    ensures no_memory { result ≡ Err NoMemory → (area.new ≡ area.old) × IsSameRead read.old read.new }
    ensures quiet { Quiet D.Area area.old area.new }
    ensures left { IsLeftAs D.Area area.old area.new }
    ensures call { (result ≡ Err NoMemory → ⊥) → IsOneCall D.Area (is_ok result) area.old area.new }
    ensures fault { IfErr result (λ fault. (fault ≡ NoMemory) ⊎ (fault ≡ Failed)) }
{
    let mut bytes = zeros(alloc, area.len())?;
    let mut pages = SegmentPages::with_pages(alloc, geometry.pages)?;
    read.kept.segments.reserve(1)?;
    read.numbers.reserve(1)?;
    read_whole(area, &mut bytes)?;
    pages.fill(bytes.as_slice());
    read.numbers.push_reserved(greatest_sequence(&pages));
    read.kept.segments.push_reserved(pages);
    Ok(())
}

// Reads an area whole into as many bytes.
fn read_whole<D: Area>(area: &mut D, bytes: &mut Vec<u8>) -> Result<(), DeviceFault>
    requires { length bytes.old.items ≡ length (D.now area.old) }
    ensures len { length bytes.new.items ≡ length (D.now area.old) }
    ensures bytes { OnOk result (D.honest area.old ≡ true → bytes.new.items ≡ D.now area.old) }
    ensures quiet { Quiet D.Area area.old area.new }
    ensures left { IsLeftAs D.Area area.old area.new }
    ensures call { IsOneCall D.Area (is_ok result) area.old area.new }
{
    area.read(0, bytes.as_mut_slice())
}
