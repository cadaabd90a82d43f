//! A store that is brought up from what files hold, and takes steps.
ghost use Rattle.std.specs.Prelude.{◌≡◌, [], true, false, Option, None, Some, IfErr, IfOk, OnErr, Ok, Err, length};
ghost use Rattle.std.specs.Prelude.{option_copied};
ghost use Rattle.lc_model.specs.declared.event.Event.TheVariants.{Begin, Read};
ghost use Rattle.lc_model.specs.declared.reply.Reply.TheVariants.{Bytes, Refused};
ghost use Rattle.lc_events.specs.declared.call_fault.CallFault.TheVariants.{NoMemory, Refused as IsRefused};
ghost use Rattle.lc_model.specs.declared.refusal.Refusal.TheVariants.{OutOfTurn};
ghost use Rattle.lc_events.specs.Answered.{done as done_reply};
ghost use Rattle.lc_c.specs.declared.session_state.SessionState.TheVariants.{Over};
ghost use Rattle.lc_c.specs.Mirrors.{window_in};
ghost use Rattle.lc_c.specs.declared.mirror_area.MirrorArea.{MirrorArea as Mirror};
ghost use Rattle.lc_c.specs.Beside.{IsSameBeside};
ghost use Rattle.lc_c.specs.SessionState.{AreaAt, IsAdded, StartsStage, StepsStage, gathered, geometry_of};
ghost use Rattle.lc_c.specs.SessionState.{is_gathering, is_step};

use crate::mirror_area::MirrorArea;
use crate::session_state::SessionState;
use lc_core::{CallFault, Event, Refusal, Reply, Truncation, World};
use lc_record::Geometry;
use lc_recover::RecoverFault;
use std::alloc::{AllocError, Global};
use std::mem;

/// A store in a process of C. Its areas are added first, each with what its file holds; then it starts, and takes
/// steps.
#[derive(Drop)]
pub struct Session {
    pub(crate) stage: SessionState,
    /// The truncation of a node's log that is under way.
    pub(crate) truncation: Option<Truncation>,
}

impl Session {
    /// A session without areas, for a store of this geometry. It takes no memory.
    pub(crate) fn new(alloc: Global, geometry: Geometry) -> Session
        ensures gathering { is_gathering result.stage ≡ true }
        ensures geometry { geometry_of result.stage ≡ Some geometry }
        ensures none { gathered result.stage ≡ [] }
        ensures truncation { result.truncation ≡ None }
    {
        Session {
            stage: SessionState::Gathering {
                geometry,
                areas: Vec::new(alloc),
            },
            truncation: None,
        }
    }

    /// Adds the next area in the order of the store: the logs of its nodes, and then its segments.
    ///
    /// # Errors
    ///
    /// `OutOfTurn` where it has started, and `NoMemory`. Nothing has changed then.
    pub(crate) fn add_area(&mut self, alloc: Global, bytes: &[u8]) -> Result<(), CallFault>
        ensures added { IfOk result (λ _. IsAdded bytes.now (gathered self.old.stage) (gathered self.new.stage)) }
        ensures gathering { is_gathering self.new.stage ≡ is_gathering self.old.stage }
        ensures geometry { geometry_of self.new.stage ≡ geometry_of self.old.stage }
        ensures none { OnErr result (gathered self.new.stage ≡ gathered self.old.stage) }
        ensures closed { is_gathering self.old.stage ≡ false
            → (result ≡ Err (IsRefused OutOfTurn)) × (self.new ≡ self.old) }
        ensures refused { IfErr result (λ fault. is_gathering self.old.stage ≡ true → fault ≡ NoMemory) }
        ensures beside { IsSameBeside self.old self.new }
    {
        let SessionState::Gathering { areas, .. } = &mut self.stage else {
            return Err(CallFault::Refused(Refusal::OutOfTurn));
        };
        areas.reserve(1)?;
        areas.push_reserved(MirrorArea::of_file(alloc, bytes)?);
        Ok(())
    }

    /// The areas become a store, which is down. It takes no memory.
    ///
    /// # Errors
    ///
    /// `OutOfTurn` where it has started: nothing has changed then. `BadGeometry` with the least index of an area that
    /// has not the length of the geometry, is missing, or is too many: the session is over.
    pub(crate) fn start(&mut self) -> Result<(), Refusal>
        ensures starts { StartsStage self.old.stage result self.new.stage }
        ensures beside { IsSameBeside self.old self.new }
    {
        let (geometry, areas) = match mem::replace(&mut self.stage, SessionState::Over) {
            SessionState::Gathering { geometry, areas } => (geometry, areas),
            stage => {
                self.stage = stage;
                return Err(Refusal::OutOfTurn);
            }
        };
        match World::new(geometry, areas) {
            Ok(world) => {
                self.stage = SessionState::Open(world);
                Ok(())
            }
            Err((_, RecoverFault::BadGeometry { area })) => Err(Refusal::BadGeometry { area }),
            Err(_) => unreachable!(),
        }
    }

    /// An event that is no stop.
    ///
    /// # Errors
    ///
    /// Those of the store; nothing has changed then.
    pub(crate) fn step(&mut self, alloc: Global, event: &Event) -> Result<Reply, AllocError>
        requires step { is_step event.now ≡ true }
        ensures steps { StepsStage self.old.stage event.now result self.new.stage }
        ensures beside { IsSameBeside self.old self.new }
    {
        match &mut self.stage {
            SessionState::Open(world) => world.step(alloc, event),
            stage => Ok(Reply::Refused(stage.refusal())),
        }
    }

    /// A thread of a node begins a transaction. It takes no memory.
    pub(crate) fn begin(
        &mut self,
        node: u16,
        thread: u16,
        writing: &[u32],
        reading: &[u32],
    ) -> Reply
        ensures steps { StepsStage self.old.stage (Begin node thread writing.now reading.now)
            (Ok result) self.new.stage }
        ensures beside { IsSameBeside self.old self.new }
    {
        match &mut self.stage {
            SessionState::Open(world) => said(world.begin(node, thread, writing, reading)),
            stage => Reply::Refused(stage.refusal()),
        }
    }

    /// Fills the buffer with bytes that the open transaction of a thread locked. It takes no memory, and changes
    /// nothing.
    ///
    /// # Errors
    ///
    /// Those of the store. The buffer is then as before.
    pub(crate) fn read(
        &self,
        node: u16,
        thread: u16,
        segment: u32,
        offset: u32,
        buffer: &mut [u8],
    ) -> Result<(), Refusal>
        ensures bytes { IfOk result (λ _.
            StepsStage self.now.stage (Read node thread segment offset (length buffer.old))
            (Ok (Bytes buffer.new)) self.now.stage) }
        ensures refused { IfErr result (λ refusal.
            StepsStage self.now.stage (Read node thread segment offset (length buffer.old))
            (Ok (Refused refusal)) self.now.stage) }
        ensures kept { IfErr result (λ _. buffer.new ≡ buffer.old) }
    {
        match &self.stage {
            SessionState::Open(world) => world.read(node, thread, segment, offset, buffer),
            stage => Err(stage.refusal()),
        }
    }

    /// The area at this place in the order of the store.
    pub(crate) fn area(&self, place: usize) -> Option<&MirrorArea>
        ensures { AreaAt self.now.stage place (option_copied result) }
    {
        match &self.stage {
            SessionState::Gathering { areas, .. } => areas.get(place),
            SessionState::Open(world) => world.area(place),
            SessionState::Over => None,
        }
    }

    /// So many bytes of that area from a position on, where it has them.
    pub(crate) fn window(&self, place: usize, at: usize, len: usize) -> Option<&[u8]>
        ensures { (area : Option Mirror) × AreaAt self.now.stage place area
            × (option_copied result ≡ window_in area at len) }
    {
        self.area(place)?.window(at, len)
    }

    /// A file has failed: all is refused from now on.
    pub(crate) fn give_up(&mut self)
        ensures over { self.new.stage ≡ Over }
        ensures beside { IsSameBeside self.old self.new }
    {
        self.stage = SessionState::Over;
    }
}

// The reply of what is done or refused.
fn said(done: Result<(), Refusal>) -> Reply
    ensures { result ≡ done_reply done }
{
    match done {
        Ok(()) => Reply::Ok,
        Err(refusal) => Reply::Refused(refusal),
    }
}
