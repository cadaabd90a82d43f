//! How a transaction's draft goes to the store in which it is open.
ghost use Rattle.std.specs.Prelude.{◌≡◌, [], None, Some, OnErr, OnOk, option_copied};
ghost use Rattle.lc_tx.specs.declared.tx.Tx.{Tx};
ghost use Rattle.lc_changes.specs.Draft.{HasNothing, image_len_of, reading_of, writing_of};
ghost use Rattle.lc_c.specs.Beside.{IsSameBeside};
ghost use Rattle.lc_c.specs.Handing.{BeginsAgain, EndsStage, HandsRange, HandsStage, transaction_in};

use crate::mirror_area::MirrorArea;
use crate::session::Session;
use crate::session_state::SessionState;
use lc_changes::Draft;
use lc_core::{CallFault, Event, Placement, Reply, World};
use lc_range::Range;
use lc_tx::Tx;
use std::alloc::{AllocError, Global};

impl Session {
    /// The draft begins, with the locks of the transaction that a thread of a node has open; without one it has none.
    ///
    /// # Errors
    ///
    /// Where the transaction has locked more than 16 segments in one way: the draft has none then.
    pub(crate) fn lock_draft(
        &self,
        node: u16,
        thread: u16,
        draft: &mut Draft,
    ) -> Result<(), AllocError>
        ensures locks { (tx : Tx) → transaction_in self.now.stage node thread ≡ Some tx
            → OnOk result ((writing_of draft.new ≡ tx.locked.items) × (reading_of draft.new ≡ tx.reading.items)) }
        ensures none { transaction_in self.now.stage node thread ≡ None
            → (writing_of draft.new ≡ []) × (reading_of draft.new ≡ []) }
        ensures many { OnErr result ((writing_of draft.new ≡ []) × (reading_of draft.new ≡ [])) }
        ensures nothing { HasNothing draft.new }
        ensures image_len { image_len_of draft.new ≡ image_len_of draft.old }
    {
        match self.transaction(node, thread) {
            Some(tx) => draft.lock(tx.locked(), tx.reading()),
            None => draft.lock(&[], &[]),
        }
    }

    // The transaction that a thread of a node has open in a store that is up.
    fn transaction(&self, node: u16, thread: u16) -> Option<&Tx>
        ensures some { (tx : Tx) → transaction_in self.now.stage node thread ≡ Some tx
            → option_copied result ≡ Some tx }
        ensures none { transaction_in self.now.stage node thread ≡ None → option_copied result ≡ None }
    {
        match &self.stage {
            SessionState::Open(world) => world.open_transaction(node, thread),
            _ => None,
        }
    }

    /// A range is handed over: it is set, and these bytes are written there. It takes memory as `World::set_range`
    /// does.
    ///
    /// # Errors
    ///
    /// That of the range, or of the write: then the range is set.
    pub(crate) fn hand(
        &mut self,
        alloc: Global,
        node: u16,
        thread: u16,
        range: &Range,
        bytes: &[u8],
    ) -> Result<(), CallFault>
        ensures hands { HandsStage node thread range.now bytes.now self.old.stage result self.new.stage }
        ensures beside { IsSameBeside self.old self.new }
    {
        match &mut self.stage {
            SessionState::Open(world) => hand_range(alloc, world, node, thread, range, bytes),
            stage => Err(CallFault::Refused(stage.refusal())),
        }
    }

    /// The transaction of a thread gets its place in the log, and is closed there.
    ///
    /// # Errors
    ///
    /// As of `World::end`. Nothing has changed then.
    pub(crate) fn end(
        &mut self,
        alloc: Global,
        node: u16,
        thread: u16,
    ) -> Result<Placement, CallFault>
        ensures ends { EndsStage node thread self.old.stage result self.new.stage }
        ensures beside { IsSameBeside self.old self.new }
    {
        match &mut self.stage {
            SessionState::Open(world) => world.end(alloc, node, thread),
            stage => Err(CallFault::Refused(stage.refusal())),
        }
    }

    /// The transaction of a thread is dropped, and begins again with these locks: the reply to that. It takes no
    /// memory.
    pub(crate) fn begin_again(
        &mut self,
        alloc: Global,
        node: u16,
        thread: u16,
        writing: &[u32],
        reading: &[u32],
    ) -> Reply
        ensures again { BeginsAgain node thread writing.now reading.now self.old.stage result self.new.stage }
        ensures beside { IsSameBeside self.old self.new }
    {
        let _ = self.step(alloc, &Event::Abort { node, thread });
        self.begin(node, thread, writing, reading)
    }
}

// The range is set, and its bytes are written there.
fn hand_range(
    alloc: Global,
    world: &mut World<MirrorArea>,
    node: u16,
    thread: u16,
    range: &Range,
    bytes: &[u8],
) -> Result<(), CallFault>
    ensures { HandsRange node thread range.now bytes.now world.old result world.new }
{
    world.set_range(alloc, node, thread, range.segment, range.offset, range.len)?;
    match world.write(node, thread, range.segment, range.offset, bytes) {
        Ok(()) => Ok(()),
        Err(refusal) => Err(CallFault::Refused(refusal)),
    }
}
