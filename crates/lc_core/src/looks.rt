//! What a store shows of its images, its areas and its logs, and what a stop would lose.
ghost use Rattle.std.specs.Prelude.{◌≡◌, IfOk, IfErr, OnOk, List, option_copied, slice_get, ◌≢◌, ◌<◌, ℕ, None, Some};
ghost use Rattle.std.specs.Prelude.{Err, is_some, slice_index_or, true};
ghost use Rattle.lc_core.specs.Areas.{AreOf};
ghost use Rattle.lc_core.specs.Pages.{areas_of};
ghost use Rattle.lc_core.specs.Stops.{HasAreas};
ghost use Rattle.lc_record.specs.declared.geometry.Geometry.{Geometry as Sizes};
ghost use Rattle.std.specs.Option.{ForSome};
ghost use Rattle.lc_model.specs.Refusals.{is_node};
ghost use Rattle.lc_recover.specs.Recovery.{Recovering};
ghost use Rattle.lc_core.specs.Geometries.{phase_geometry};
ghost use Rattle.lc_core.specs.LogWords.{ReadsLog, ReadsNone, log_area};
ghost use Rattle.lc_journal.specs.LogWords.{has_failed};
ghost use Rattle.lc_events.specs.LogWords.{log_in};
ghost use Rattle.lc_core.specs.declared.world_phase.WorldPhase.TheVariants.{Down, Taken, Up as IsUp};
ghost use Rattle.lc_journal.specs.declared.show_fault.ShowFault.TheVariants.{Unknown};
ghost use Rattle.lc_core.specs.declared.up.Up.{Up as Rising};
ghost use Rattle.lc_core.specs.Unfinished.{unfinished_of};

use crate::up::Up;
use crate::world::World;
use crate::world_phase::WorldPhase;
use lc_desk::page_in;
use lc_disk::Area;
use lc_events::{Unfinished, is_page_of};
use lc_journal::ShowFault;
use lc_log::{text_len, words_in};
use lc_model::Refusal;
use lc_recover::Recovery;
use std::alloc::Global;

impl<D: Area + Drop> World<D> {
    ghost use Rattle.lc_core.specs.Observed.{observed, RefusesAt, ShowsAt};
    ghost use Rattle.lc_core.specs.Lives.{ShowsLife};
    ghost use Rattle.lc_core.specs.Showing.{ShowsPage};
    ghost use Rattle.lc_core.specs.LogWords.{AreWordsOf, ShowRecords};

    /// Whether it is up: its recovery is over, and it has not stopped since.
    pub fn is_up(&self) -> bool
        ensures { result ≡ (observed D.Area self.now).up }
    {
        matches!(self.phase, WorldPhase::Up(_))
    }

    /// The bytes of a page as a node has them, with those of a transaction that is open on it. It takes no memory.
    ///
    /// # Errors
    ///
    /// `Down` while the store is down; else `Unknown` where its geometry has no such node, segment or page.
    pub fn page(&self, node: u16, segment: u32, page: u32) -> Result<&[u8], Refusal>
        ensures lends { IfOk result (λ bytes. (observed D.Area self.now).lends node segment page bytes.now) }
        ensures shows { IfOk result (λ bytes. ShowsPage D.Area self.now node segment page bytes.now) }
        // Whatever its areas are.
        ensures lives { IfOk result (λ bytes. ShowsLife D.Area self.now.phase node segment page bytes.now) }
        ensures shown { OnOk result (ShowsAt (observed D.Area self.now) node segment page) }
        ensures refused { IfErr result (RefusesAt (observed D.Area self.now) node segment page) }
    {
        let WorldPhase::Up(up) = &self.phase else {
            return Err(Refusal::Down);
        };
        if !is_page_of(&up.running.geometry, node, segment, page) {
            return Err(Refusal::Unknown);
        }
        let here = &up.running.nodes[node as usize].desk.here;
        let image = &here.slots[segment as usize - 1].image;
        Ok(page_in(image.bytes(), page))
    }

    /// The area at this place in the order of the store, the logs of its nodes and then its segments, be it up or down.
    /// It calls no area, and takes no memory.
    pub fn area(&self, place: usize) -> Option<&D>
        ensures { (g : Sizes) (areas : List D) → HasAreas D.Area self.now.phase g areas
            → option_copied result ≡ slice_get areas place }
    {
        match &self.phase {
            WorldPhase::Down(recovery) => recovery.area(place),
            WorldPhase::Up(up) => up.area(place),
            WorldPhase::Taken => None,
        }
    }

    /// The words of the records with which the log of a node begins, as its area reads now, be the store up or down. It
    /// reads the area once, whole.
    ///
    /// # Errors
    ///
    /// `Unknown` where the store has no such node, and then nothing is read; `DeviceFault` where the read fails.
    pub fn log_words(&mut self, alloc: Global, node: u16) -> Result<Vec<u64>, ShowFault>
        ensures unknown { log_area D.Area self.old.phase node ≡ None
            → (result ≡ Err Unknown) × ReadsNone D.Area node self.old.phase self.new.phase }
        ensures read { (area : D) → log_area D.Area self.old.phase node ≡ Some area
            → (result ≢ Err Unknown) × ReadsLog D.Area node area self.old.phase self.new.phase (has_failed result) }
        ensures words { IfOk result (λ words. (area : D) → log_area D.Area self.old.phase node ≡ Some area
            → AreWordsOf D.Area area words.items) }
        ensures records { IfOk result (λ words. (area : D) → log_area D.Area self.old.phase node ≡ Some area
            → ShowRecords D.Area self.old.phase node words.items) }

        // The nodes that have a log are those of the geometry.
        ensures nodes { ForSome (phase_geometry D.Area self.old.phase) (λ g.
            is_some (log_area D.Area self.old.phase node) ≡ is_node g node) }
    {
        let bytes = self.phase.log_bytes(alloc, node)?;
        let mut words = words_in(alloc, bytes.as_slice())?;
        words.truncate(text_len(words.as_slice()));
        Ok(words)
    }

    /// What a stop now would lose. It changes nothing and takes no memory, and the time of the records that are not
    /// acknowledged.
    pub fn unfinished(&self) -> Unfinished
        ensures { result ≡ unfinished_of D.Area self.now.phase }
    {
        match &self.phase {
            WorldPhase::Up(up) => up.running.unfinished(),
            _ => Unfinished {
                commits: 0,
                transactions: 0,
            },
        }
    }
}

impl<D: Area + Drop> Up<D> {
    // That of the log of a node, or of a segment.
    fn area(&self, place: usize) -> Option<&D>
        ensures { (areas : List D) → AreOf D.Area self.now areas → option_copied result ≡ slice_get areas place }
    {
        match self.running.nodes.get(place) {
            Some(node) => node.journal.log.area(),
            None => self.segment_area(place - self.running.nodes.len()),
        }
    }

    // That of the segment at this place among them.
    fn segment_area(&self, place: usize) -> Option<&D>
        ensures { option_copied result ≡ slice_get (areas_of D.Area self.now.segments.items) place }
    {
        match self.segments.get(place) {
            Some(pages) => Some(&pages.area),
            None => None,
        }
    }
}

impl<D: Area + Drop> WorldPhase<D> {
    // All bytes of the log of a node.
    fn log_bytes(&mut self, alloc: Global, node: u16) -> Result<Vec<u8>, ShowFault>
        ensures unknown { log_area D.Area self.old node ≡ None
            → (result ≡ Err Unknown) × ReadsNone D.Area node self.old self.new }
        ensures read { (area : D) → log_area D.Area self.old node ≡ Some area
            → (result ≢ Err Unknown) × ReadsLog D.Area node area self.old self.new (has_failed result) }
        ensures bytes { IfOk result (λ bytes. (area : D) → log_area D.Area self.old node ≡ Some area
            → D.honest area ≡ true → bytes.items ≡ D.now area) }
        ensures fits { IfOk result (λ bytes. (up : Rising D D.Area) (area : D) → self.old ≡ IsUp up
            → log_in D.Area up.running.nodes.items node ≡ Some area
            → D.honest area ≡ true → (k : ℕ) → slice_index_or (D.now area) k 0 < 256) }
        ensures down { (r : Recovering D) → self.new ≡ Down r
            → (was : Recovering D) × (self.old ≡ Down was) × (r ≡ record was { areas = r.areas }) }
        ensures nodes { ForSome (phase_geometry D.Area self.old) (λ g. is_some (log_area D.Area self.old node)
            ≡ is_node g node) }
        ensures taken { self.new ≡ Taken → self.old ≡ Taken }
    {
        match self {
            WorldPhase::Down(recovery) => log_bytes_of(recovery, alloc, node),
            WorldPhase::Up(up) => up.running.log_bytes(alloc, node),
            WorldPhase::Taken => Err(ShowFault::Unknown),
        }
    }
}

// All bytes of the log of a node, while the store is down.
fn log_bytes_of<D: Area>(
    recovery: &mut Recovery<D>,
    alloc: Global,
    node: u16,
) -> Result<Vec<u8>, ShowFault>
    ensures same { recovery.new ≡ record recovery.old { areas = recovery.new.areas } }
    ensures unknown { log_area D.Area (Down recovery.old) node ≡ None
        → (result ≡ Err Unknown) × (recovery.new ≡ recovery.old) }
    ensures read { (area : D) → log_area D.Area (Down recovery.old) node ≡ Some area
        → (result ≢ Err Unknown) × ReadsLog D.Area node area (Down recovery.old) (Down recovery.new)
        (has_failed result) }
    ensures bytes { IfOk result (λ bytes. (area : D) → log_area D.Area (Down recovery.old) node ≡ Some area
        → D.honest area ≡ true → bytes.items ≡ D.now area) }
    ensures nodes { is_some (log_area D.Area (Down recovery.old) node) ≡ is_node recovery.old.geometry node }
{
    let geometry = recovery.geometry();
    if node >= geometry.nodes {
        return Err(ShowFault::Unknown);
    }
    let mut bytes = vec![in alloc; 0; geometry.log_len()]?;
    recovery.read(node as usize, 0, bytes.as_mut_slice())?;
    Ok(bytes)
}
