//! How a store starts, comes up, answers events, runs and stops.
ghost use Rattle.std.specs.Prelude.{◌≡◌, ◌≢◌, ℕ, length, map, IfOk, IfErr, OnOk, slice_get, ◌⊎◌, ◌<◌, [], false};
ghost use Rattle.std.specs.Prelude.{filter, take, true, Err, OnErr, List, ◌≤◌, vec_capacity, ◌+◌, ◌++◌, Some, IfNone};
ghost use Rattle.std.specs.Prelude.{IfSome, slice_index_or, vec_len};
ghost use Rattle.lc_model.specs.Merge.{IsLeast};
ghost use Rattle.lc_model.specs.State.{Setting, first_state, State};
ghost use Rattle.lc_recover.specs.Reads.{area_len, AllMergeTo, AreHonest, HaveLengths};
ghost use Rattle.lc_recover.specs.Recovery.{begun, Recovering, IsDone};
ghost use Rattle.lc_recover.specs.declared.fault.RecoverFault.TheVariants.{BadGeometry};
ghost use Rattle.lc_settled.specs.Numbers.{Numbers};
ghost use Rattle.lc_core.specs.declared.world_phase.WorldPhase.TheVariants.{Down, Taken};
ghost use Rattle.lc_disk.specs.contracts.mem_area.MemAreaArea.TheImpl.{ghosts};
ghost use Rattle.lc_journal.specs.FaultReplies.{is_fault};
ghost use Rattle.lc_core.specs.Headline.{Answers, Holds};
ghost use Rattle.lc_core.specs.Observed.{observed};
ghost use Rattle.lc_core.specs.Runs.{AsksNext, GrowsNext, OnZeros, Settles, of_zeros, FollowsRun, GivesUp};
ghost use Rattle.lc_model.specs.declared.refusal.Refusal.TheVariants.{OutOfTurn};
ghost use Rattle.lc_events.specs.declared.call_fault.CallFault.TheVariants.{Refused};
ghost use Rattle.lc_model.specs.declared.event.Event.TheVariants.{RecoverStep, Stop};
ghost use Rattle.lc_disk.specs.declared.choice.Choice.{Choice};
ghost use Rattle.lc_model.specs.declared.reply.Reply.TheVariants.{Down as IsDown};
ghost use Rattle.lc_core.specs.Stops.{IsLeftBy, StopsAll, AreLeftBy, HasAreas};
ghost use Rattle.lc_core.specs.Calls.{CallsAll};
ghost use Rattle.lc_core.specs.Faults.{CountsAll, phase_failures};
ghost use Rattle.lc_core.specs.Lives.{FollowsLives};
ghost use Rattle.lc_rest.specs.AtRest.{AgreeAll, FailsFirst, HasPart};
ghost use Rattle.lc_rest.specs.Parts.{AreHonest as AreHonestParts, AreKept, FailsOnce};
ghost use Rattle.lc_core.specs.Adoption.{IsAdoption};
ghost use Rattle.lc_rest.specs.declared.adopt_fault.AdoptFault.TheVariants.{DeviceFault as Failed, Mismatch};
ghost use Rattle.lc_rest.specs.declared.cluster_part.ClusterPart.{ClusterPart as ThePart};
ghost use Rattle.lc_rest.specs.declared.cluster_part.ClusterPart.TheVariants.{Seat};
ghost use Rattle.lc_core.specs.Areas.{AreOf, AreStopped};
ghost use Rattle.lc_core.specs.Devices.{HaveLogs};
ghost use Rattle.lc_core.specs.Geometries.{phase_geometry};
ghost use Rattle.lc_journal.specs.Log.{area_of};
ghost use Rattle.lc_core.specs.Pages.{areas_of};
ghost use Rattle.lc_core.specs.World.{FollowsWorld};
ghost use Rattle.lc_events.specs.declared.node_state.NodeState.{NodeState as TheNode};

use crate::adopted_parts::adopted_parts;
use crate::headline::run_areas;
use crate::read_cluster::ReadCluster;
use crate::recovered_reply::{fault_reply, reply_to};
use crate::run_result::RunResult;
use crate::up::Up;
use crate::world::World;
use crate::world_phase::WorldPhase;
use crate::world_room::WorldRoom;
use lc_desk::Pages;
use lc_disk::{Area, Choice, MemArea, Stoppable};
use lc_events::{CallFault, NodeState};
use lc_model::{Event, Refusal, Reply};
use lc_record::{Geometry, Items};
use lc_recover::{RecoverFault, Recovery, zero_areas};
use lc_rest::{AdoptFault, Parts};
use std::alloc::{AllocError, Global};
use std::mem;

impl<D: Area + Drop> World<D> {
    ghost use Rattle.lc_core.specs.World.{FitsWorld};
    ghost use Rattle.lc_core.specs.Lives.{Anyhow};
    ghost use Rattle.lc_core.specs.Recovers.{RecoversDown, RefusesAtOnce};
    ghost use Rattle.lc_core.specs.World.{AsksIn, FollowsWorld, StillFitsWorld};
    ghost use Rattle.lc_core.specs.Calls.{CallsArea, KeepsAreas};
    ghost use Rattle.lc_journal.specs.FaultReplies.{is_unknown};
    ghost use Rattle.lc_core.specs.Faults.{CountsPhase, phase_failures};
    ghost use Rattle.lc_core.specs.Geometries.{phase_geometry};
    ghost use Rattle.lc_events.specs.MayReply.{may_recover};

    /// A store of these areas, which is down. It takes no memory.
    ///
    /// # Errors
    ///
    /// `BadGeometry` with the least index of an area that has not the length of the geometry, is missing, or is too
    /// many. The areas come back.
    pub fn new(geometry: Geometry, areas: Vec<D>) -> Result<World<D>, (Vec<D>, RecoverFault)>
        ensures fits { IfOk result (λ w. (m : Setting) (x : Numbers) → m.geometry ≡ geometry
            → AreHonest D.Area areas.items
            → AllMergeTo D.Area geometry areas.items m.start x.disks.numbers → x.steps ≡ 0
            → FitsWorld D.Area m w (first_state geometry) x) }
        ensures down { IfOk result (λ w. w.phase ≡ Down (begun geometry areas.items)) }
        ensures right { OnOk result (HaveLengths D.Area geometry areas.items) }
        ensures back { IfErr result (λ back. back.0.items ≡ areas.items) }
        ensures wrong { IfErr result (λ back. (area : ℕ) × (back.1 ≡ BadGeometry area)
            × IsLeast (λ k. slice_get (map (λ d. length (D.now d)) areas.items) k ≢ area_len geometry k) area) }
    {
        let recovery = Recovery::new(geometry, areas)?;
        Ok(World {
            phase: WorldPhase::Down(recovery),
        })
    }

    /// The next step of the recovery. The last one takes the memory of all that comes up before its call.
    pub(crate) fn recover_step(&mut self, alloc: Global) -> Result<Reply, AllocError>
        ensures follows { IfOk result (λ reply. FollowsWorld D.Area self.old RecoverStep reply self.new) }
        // Whatever the areas hold: one that is up is out of turn, and what comes up is a store of what was read.
        ensures anyhow { IfOk result (λ reply. Anyhow D.Area self.old.phase RecoverStep reply self.new.phase) }
        ensures memory { OnErr result (AsksIn D.Area self.old.phase RecoverStep) }
        ensures err { OnErr result (StillFitsWorld D.Area self.old self.new) }
        ensures faults { IfOk result (λ reply. CountsPhase D.Area self.old.phase reply self.new.phase) }
        ensures no_fault { OnErr result (phase_failures D.Area self.new.phase ≡ phase_failures D.Area self.old.phase) }
        ensures at_once { IfOk result (λ reply. RefusesAtOnce D.Area self.old.phase RecoverStep reply self.new.phase) }
        ensures recovers { IfOk result (λ reply. RecoversDown D.Area self.old.phase reply self.new.phase) }
        ensures geometry { phase_geometry D.Area self.new.phase ≡ phase_geometry D.Area self.old.phase }
        ensures unknown { IfOk result (λ reply. is_unknown reply ≡ false) }
        ensures calls { IfOk result (λ reply. CallsArea D.Area self.old.phase RecoverStep reply self.new.phase) }
        ensures kept { OnErr result (KeepsAreas D.Area self.old.phase self.new.phase) }
        ensures names { IfOk result (λ reply. may_recover reply ≡ true) }
        ensures same { OnErr result (self.new.phase ≡ self.old.phase) }
    {
        let WorldPhase::Down(recovery) = &mut self.phase else {
            return Ok(Reply::Refused(Refusal::OutOfTurn));
        };
        if !recovery.is_last() {
            return reply_to(recovery.step(alloc));
        }
        let room = WorldRoom::new(alloc, recovery.geometry())?;
        if let Err(fault) = recovery.step(alloc) {
            return fault_reply(fault);
        }
        self.phase = mem::replace(&mut self.phase, WorldPhase::Taken).risen(alloc, room);
        Ok(Reply::Recovered)
    }

    /// The store that the parts of a cluster at rest make, which is up: its history is all records of all nodes,
    /// published and staged, each as a transaction that is closed, and those that were published are acknowledged. It
    /// reads each page area once, and then looks whether the parts agree. It takes memory for all of it.
    ///
    /// # Errors
    ///
    /// `Mismatch` with the part whose test fails first. The tests are these, in this order. The records of each node
    /// name it and lie in the segments, and it knows as clean no more than the tokens say (`Log`). Each token has its
    /// segment's records and pages (`Token`). All records merge (`Log`, the least node that is stuck). The pages and
    /// images are what the records make of them (`Image`). `NoMemory`; `DeviceFault` where an area could not be read.
    /// The parts are gone.
    pub fn adopt(alloc: Global, parts: Parts<D>) -> Result<World<D>, AdoptFault>
        requires kept { AreKept D.Area parts }
        ensures adopted { IfOk result (λ world. IsAdoption D.Area parts world) }
        ensures agree { IfOk result (λ world. AreHonestParts D.Area parts → AgreeAll D.Area parts) }
        ensures mismatch { (part : ThePart) → result ≡ Err (Mismatch part) → AreHonestParts D.Area parts
            → FailsFirst D.Area parts part }
        ensures within { (part : ThePart) → result ≡ Err (Mismatch part) → HasPart parts.geometry part }
        ensures no_seat { (node : ℕ) → result ≡ Err (Mismatch (Seat node)) → ⊥ }
        ensures device { result ≡ Err Failed → FailsOnce D.Area parts }
    {
        let room = WorldRoom::new(alloc, parts.geometry)?;
        let cluster = ReadCluster::read(alloc, parts)?;
        let up = cluster.build(alloc, room)?;
        adopted_parts::<D>();
        Ok(World {
            phase: WorldPhase::Up(up),
        })
    }

    /// Its areas as they stand, in the order of the store, and how many there are of each thing. It takes no memory.
    pub fn into_areas(self) -> (Geometry, Vec<D>)
        ensures areas { (observed D.Area self).gives result.0 result.1.items }
        ensures lengths { HaveLengths D.Area result.0 result.1.items }
    {
        let World { phase } = self;
        match phase.into_areas() {
            Some(its) => its,
            None => unreachable!(),
        }
    }
}

impl World<MemArea> {
    ghost use Rattle.lc_core.specs.World.{FitsWorld};

    /// A store of zeros in memory, which is down. It takes the memory of all its areas.
    pub fn in_memory(alloc: Global, geometry: Geometry) -> Result<World<MemArea>, AllocError>
        ensures { IfOk result (λ w. OnZeros geometry (λ m x. FitsWorld ghosts m w (first_state geometry) x)) }
    {
        let areas = zero_areas(alloc, &geometry)?;
        match World::new(geometry, areas) {
            Ok(world) => Ok(world),
            Err(_) => unreachable!(),
        }
    }
}

/// These events on a store of zeros in memory, one after another, as far as there is memory: what a store promises of a
/// whole run, with nothing asked of its areas. A device never fails there, so `answers` says all but what is left of
/// the areas.
pub fn run_in_memory(
    alloc: Global,
    geometry: Geometry,
    events: &[Event],
) -> Result<(World<MemArea>, RunResult), AllocError>
    ensures answers { IfOk result (λ ran. (after : State) × Answers (of_zeros geometry)
        (take (length ran.1.replies.items) events.now) ran.1.replies.items (observed ghosts ran.0) after) }
    ensures no_fault { IfOk result (λ ran. filter is_fault ran.1.replies.items ≡ []) }
    ensures holds { IfOk result (λ ran. Holds ghosts (of_zeros geometry) (λ segment. 0)
        (take (length ran.1.replies.items) events.now) ran.1.replies.items 0 (observed ghosts ran.0)) }
    ensures fits { IfOk result (λ ran. OnZeros geometry (λ m x.
        Settles ghosts m x (take (length ran.1.replies.items) events.now) ran.1.replies.items ran.0)) }
    ensures all { IfOk result (λ ran. ran.1.out_of_memory ≡ false
        → length ran.1.replies.items ≡ length events.now) }
    ensures some { IfOk result (λ ran. ran.1.out_of_memory ≡ true
        → length ran.1.replies.items < length events.now) }
    ensures asks { IfOk result (λ ran. ran.1.out_of_memory ≡ true → (ran.1.replies.items ≡ [])
        ⊎ (GrowsNext events.now ran.1.replies.items × OnZeros geometry (λ m x.
        AsksNext ghosts m (first_state geometry) x events.now ran.1.replies.items ran.0))) }
{
    let areas = zero_areas(alloc, &geometry)?;
    match run_areas(alloc, geometry, areas, events) {
        Ok(ran) => Ok(ran),
        Err(_) => unreachable!(),
    }
}

impl<D: Stoppable + Drop> World<D> {
    ghost use Rattle.lc_core.specs.ComingUp.{ComesUpBy};
    ghost use Rattle.lc_core.specs.Geometries.{phase_geometry};
    ghost use Rattle.lc_core.specs.Lives.{IsNewborn};
    ghost use Rattle.lc_core.specs.Observed.{observed};
    ghost use Rattle.lc_core.specs.World.{AsksIn, AsksWorld, FollowsWorld, StillFitsWorld};
    ghost use Rattle.lc_core.specs.Faults.{CountsPhase, phase_failures};
    ghost use Rattle.lc_core.specs.Calls.{CallsArea, KeepsAreas};
    ghost use Rattle.lc_core.specs.Geometries.{RefusesOutside, phase_geometry};
    ghost use Rattle.lc_core.specs.Lives.{Anyhow, StillLives};
    ghost use Rattle.lc_events.specs.MayReply.{may_reply};
    ghost use Rattle.lc_core.specs.Recovers.{RecoversDown, RefusesAtOnce};

    /// Recovers a store that is down, as `RecoverStep` again and again, as long as more is to come: after an `Ok` it is
    /// up. It makes no more steps than a recovery has that writes each page.
    ///
    /// # Errors
    ///
    /// `OutOfTurn` where the store is up: nothing has changed then. `BadGeometry`, `Gap`, `Twice`, `OutOfSegment` and
    /// `DeviceFault`: the next call begins again with the first step. `NoMemory`: the steps before it are done, and the
    /// next call goes on from there. After each of these the store is up or down as it was before.
    ///
    /// Idea: recovery at the opening of a store (RVM: Satyanarayanan et al., TOCS 1994).
    pub fn recover(&mut self, alloc: Global) -> Result<(), CallFault>
        ensures steps { ComesUpBy D.Area self.old result self.new }
        // Whatever the areas are: what has come up has the content of a store that was read.
        ensures born { OnOk result (IsNewborn D.Area self.new.phase) }
        ensures up { OnOk result ((observed D.Area self.new).up ≡ true) }
        ensures kept { OnErr result ((observed D.Area self.new).up ≡ (observed D.Area self.old).up) }
        ensures at_once { (observed D.Area self.old).up ≡ true
            → (result ≡ Err (Refused OutOfTurn)) × (self.new.phase ≡ self.old.phase) }
        ensures geometry { phase_geometry D.Area self.new.phase ≡ phase_geometry D.Area self.old.phase }
    {
        'steps: loop {
            match self.recover_step(alloc)? {
                Reply::Stepped(_) => {}
                Reply::Recovered => return Ok(()),
                Reply::Refused(refusal) => return Err(CallFault::Refused(refusal)),
                _ => unreachable!(),
            }
        }
    }

    /// An event. The first and the last step of a reset, and the merge of a recovery, call no area. Each other step of
    /// a flush, a page write, a reset and a recovery makes one call of one area. Any other event makes none. A stop
    /// stops each area.
    ///
    /// # Errors
    ///
    /// Memory is wanted only where nothing refuses the event and something grows. It is wanted for a position more that
    /// is set, bytes that are read, a record that gets its place and a record that is new to its receiver. A recovery
    /// wants it for what it reads, merges and brings up. Nothing has changed then, and no area was called.
    pub fn step(&mut self, alloc: Global, event: &Event) -> Result<Reply, AllocError>
        ensures follows { IfOk result (λ reply. FollowsWorld D.Area self.old event.now reply self.new) }
        ensures asks { OnErr result (AsksWorld D.Area self.old event.now) }
        ensures err { OnErr result (StillFitsWorld D.Area self.old self.new) }

        // Whatever the areas are: what comes up is a store of what was read, and from then on up to the next stop each
        // reply is one of the machine that has that content.
        ensures anyhow { IfOk result (λ reply. ((choices : List (List Choice)) → event.now ≡ Stop choices → ⊥)
            → Anyhow D.Area self.old.phase event.now reply self.new.phase) }
        ensures still { OnErr result (StillLives D.Area self.old.phase self.new.phase) }

        // Which replies an event may get at all, whatever the store holds.
        ensures names { IfOk result (λ reply. may_reply event.now reply ≡ true) }

        // Whatever the areas hold: what may want memory at all, what is refused at once, and what a step of a recovery
        // answers.
        ensures memory { OnErr result (AsksIn D.Area self.old.phase event.now) }
        ensures at_once { IfOk result (λ reply. RefusesAtOnce D.Area self.old.phase event.now reply self.new.phase) }
        ensures recovers { event.now ≡ RecoverStep
            → IfOk result (λ reply. RecoversDown D.Area self.old.phase reply self.new.phase) }

        // After a stop the areas are stopped, each by the choices at its place, and a recovery begins on them.
        ensures stops { (choices : List (List Choice)) → event.now ≡ Stop choices
            → IfOk result (λ reply. (reply ≡ IsDown) × StopsAll D.Area self.old.phase self.new.phase) }
        ensures chosen { (choices : List (List Choice)) → event.now ≡ Stop choices
            → IsLeftBy D.Area D.left choices self.old.phase self.new.phase }

        // How often the devices of the areas have failed: once more for each device fault that is answered, and not
        // else.
        ensures faults { IfOk result (λ reply. CountsPhase D.Area self.old.phase reply self.new.phase) }
        ensures no_fault { OnErr result (phase_failures D.Area self.new.phase ≡ phase_failures D.Area self.old.phase) }

        // The geometry stays, and what it does not have is unknown.
        ensures geometry { phase_geometry D.Area self.new.phase ≡ phase_geometry D.Area self.old.phase }
        ensures unknown { IfOk result (RefusesOutside D.Area self.old.phase event.now) }

        // One call of one area where the reply tells of it, of an area that the event names, and else none.
        ensures calls { IfOk result (λ reply. ((choices : List (List Choice)) → event.now ≡ Stop choices → ⊥)
            → CallsArea D.Area self.old.phase event.now reply self.new.phase) }
        ensures kept { OnErr result (KeepsAreas D.Area self.old.phase self.new.phase) }
    {
        if let Event::RecoverStep = event {
            return self.recover_step(alloc);
        }
        if let Event::Stop { choices } = event {
            return Ok(self.stop(choices.as_slice()));
        }
        match &mut self.phase {
            WorldPhase::Up(up) => up.step(alloc, event),
            _ => Ok(Reply::Refused(Refusal::Down)),
        }
    }

    /// These events, one after another, as far as there is memory: the room of all replies is taken before the first
    /// event, and without it none is answered. Then memory is wanted only at an event that asks for it. The store is as
    /// those that were answered have left it.
    pub fn run(&mut self, alloc: Global, events: &[Event]) -> RunResult
        ensures follows { FollowsRun D.Area self.old
            (take (length result.replies.items) events.now) result.replies.items self.new }
        ensures lives { FollowsLives D.Area self.old.phase
            (take (length result.replies.items) events.now) result.replies.items self.new.phase }
        ensures faults { CountsAll result.replies.items (phase_failures D.Area self.old.phase)
            (phase_failures D.Area self.new.phase) }
        ensures calls { CallsAll D.Area D.left
            (take (length result.replies.items) events.now) result.replies.items self.old.phase self.new.phase }
        ensures all { result.out_of_memory ≡ false → length result.replies.items ≡ length events.now }
        ensures some { result.out_of_memory ≡ true → length result.replies.items < length events.now }
        ensures asks { result.out_of_memory ≡ true → GivesUp D.Area self.old events.now result.replies.items self.new }
    {
        let Ok(mut replies) = room_for(alloc, events.len()) else {
            return RunResult {
                replies: Vec::new(alloc),
                out_of_memory: true,
            };
        };
        for event in events {
            match self.step(alloc, event) {
                Ok(reply) => replies.push_reserved(reply),
                Err(AllocError) => {
                    return RunResult {
                        replies,
                        out_of_memory: true,
                    };
                }
            }
        }
        RunResult {
            replies,
            out_of_memory: false,
        }
    }

    /// All nodes stop: each area is stopped by the choices at its place in the store's order, one that has none there
    /// keeps what it reads, and a recovery begins on them. It takes no memory.
    pub(crate) fn stop(&mut self, choices: &[Items<Choice>]) -> Reply
        ensures answer { result ≡ IsDown }
        ensures follows { FollowsWorld D.Area self.old (Stop choices.now) result self.new }
        ensures stops { StopsAll D.Area self.old.phase self.new.phase }
        ensures chosen { IsLeftBy D.Area D.left choices.now self.old.phase self.new.phase }
        ensures counts { phase_failures D.Area self.new.phase ≡ phase_failures D.Area self.old.phase }
        ensures geometry { phase_geometry D.Area self.new.phase ≡ phase_geometry D.Area self.old.phase }
    {
        self.phase = mem::replace(&mut self.phase, WorldPhase::Taken).stopped(choices);
        Reply::Down
    }
}

impl<D: Area + Drop> WorldPhase<D> {
    ghost use Rattle.lc_core.specs.Recovering.{HasComeUp};

    // All is recovered: the nodes come up in this room. It takes no memory.
    fn risen(self, alloc: Global, room: WorldRoom<D>) -> WorldPhase<D>
        requires done { (r : Recovering D) → self ≡ Down r → IsDone r }
        requires geometry { (r : Recovering D) → self ≡ Down r → r.geometry ≡ room.geometry }
        requires lengths { (r : Recovering D) → self ≡ Down r → HaveLengths D.Area r.geometry r.areas }
        ensures { (r : Recovering D) → self ≡ Down r → HasComeUp D.Area r result }
    {
        let WorldPhase::Down(recovery) = self else {
            return self;
        };
        WorldPhase::Up(room.furnish(alloc, recovery.finish()))
    }

    // Its areas in the order of the store, and how many there are of each thing.
    fn into_areas(self) -> Option<(Geometry, Vec<D>)>
        ensures areas { IfSome result (λ its. HasAreas D.Area self its.0 its.1.items) }
        ensures lengths { IfSome result (λ its. HaveLengths D.Area its.0 its.1.items) }
        ensures none { IfNone result (self ≡ Taken) }
    {
        match self {
            WorldPhase::Down(recovery) => Some((recovery.geometry(), recovery.areas())),
            WorldPhase::Up(up) => Some(up.into_areas()),
            WorldPhase::Taken => None,
        }
    }
}

// Room for so many replies.
fn room_for(alloc: Global, count: usize) -> Result<Vec<Reply>, AllocError>
    ensures none { IfOk result (λ room. room.items ≡ []) }
    ensures room { IfOk result (λ room. count ≤ vec_capacity room) }
    ensures err { OnErr result (0 < count) }
{
    let mut room = Vec::new(alloc);
    if count > 0 {
        room.reserve(count)?;
    }
    Ok(room)
}

impl<D: Stoppable + Drop> WorldPhase<D> {
    // Each area is stopped, and a recovery begins.
    fn stopped(self, choices: &[Items<Choice>]) -> WorldPhase<D>
        ensures stops { StopsAll D.Area self result }
        ensures chosen { IsLeftBy D.Area D.left choices.now self result }
    {
        let Some((geometry, mut areas)) = self.into_areas() else {
            return WorldPhase::Taken;
        };
        stop_all(areas.as_mut_slice(), choices);
        match Recovery::new(geometry, areas) {
            Ok(recovery) => WorldPhase::Down(recovery),
            Err(_) => unreachable!(),
        }
    }
}

// Stops each area by the choices at its place.
fn stop_all<D: Stoppable>(areas: &mut [D], choices: &[Items<Choice>])
    ensures stopped { AreStopped D.Area areas.old areas.new }
    ensures chosen { AreLeftBy D.Area D.left choices.now areas.old areas.new }
{
    for place in 0..areas.len() {
        areas[place].stop(choices_at(choices, place));
    }
}

// The choices at this place, if there are some.
fn choices_at(choices: &[Items<Choice>], place: usize) -> &[Choice]
    ensures { result.now ≡ slice_index_or choices.now place [] }
{
    match choices.get(place) {
        Some(list) => list.as_slice(),
        None => &[],
    }
}

impl<D: Area + Drop> Up<D> {
    // Its areas in the order of the store, in the room that it kept for them, and how many there are of each thing.
    fn into_areas(self) -> (Geometry, Vec<D>)
        ensures geometry { result.0 ≡ self.running.geometry }
        ensures areas { AreOf D.Area self result.1.items }
        ensures lengths { HaveLengths D.Area self.running.geometry result.1.items }
    {
        let Up {
            running,
            segments,
            spare,
        } = self;
        let geometry = running.geometry;
        let logs = log_areas(running.nodes, spare);
        (geometry, with_segments(segments, logs))
    }
}

// The areas of the logs of these nodes, in this room.
fn log_areas<D: Area + Drop>(mut nodes: Vec<NodeState<D>>, mut areas: Vec<D>) -> Vec<D>
    requires empty { areas.items ≡ [] }
    requires room { vec_len nodes ≤ vec_capacity areas }
    requires there { (len : ℕ) × HaveLogs D.Area len nodes.items }
    ensures logs { (n : ℕ) (node : TheNode D D.Area) → slice_get nodes.items n ≡ Some node
        → area_of D.Area node.journal.log ≡ slice_get result.items n }
    ensures count { length result.items ≡ vec_len nodes }
    ensures room { vec_capacity result ≡ vec_capacity areas }
{
    for _ in 0..nodes.len() {
        let NodeState { journal, .. } = nodes.remove(0);
        match journal.log.into_area() {
            Some(area) => areas.push_reserved(area),
            None => unreachable!(),
        }
    }
    areas
}

// The areas of the segments, after those of the logs.
fn with_segments<D: Area + Drop>(mut segments: Vec<Pages<D>>, mut areas: Vec<D>) -> Vec<D>
    requires room { vec_len areas + vec_len segments ≤ vec_capacity areas }
    ensures { result.items ≡ areas.items ++ areas_of D.Area segments.items }
{
    for _ in 0..segments.len() {
        let Pages { area, .. } = segments.remove(0);
        areas.push_reserved(area);
    }
    areas
}
