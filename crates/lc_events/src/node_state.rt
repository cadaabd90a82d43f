//! One node.
ghost use Rattle.std.specs.Prelude.{◌≡◌, ◌-◌, ◌<◌, ◌≤◌, ℕ, true, false, vec_len, slice_get, Some, IsSome};
ghost use Rattle.std.specs.Prelude.{Err, IfOk, OnErr, IfErr};
ghost use Rattle.lc_journal.specs.Log.{is_failed, is_sealed};
ghost use Rattle.lc_desk.specs.declared.segment_copy.SegmentCopy.{SegmentCopy};
ghost use Rattle.lc_model.specs.declared.event.Event.TheVariants.{Close, FlushStep, ResetStep};
ghost use Rattle.lc_journal.specs.CallReplies.{tells_but, tells_call};
ghost use Rattle.lc_journal.specs.FaultReplies.{TellsFault};
ghost use Rattle.lc_desk.specs.MayReply.{done_or, is_turn, may_refuse_leave};
ghost use Rattle.lc_journal.specs.MayReply.{may_flush};
ghost use Rattle.lc_events.specs.MayReply.{may_refuse_arrive, may_reserve};
ghost use Rattle.lc_journal.specs.MayReply.{or_fault};
ghost use Rattle.lc_model.specs.Machine.{may_reset};

use crate::token_moves::token_refusal;
use lc_desk::{Desk, Ending, LogEnd};
use lc_disk::Area;
use lc_journal::Journal;
use lc_model::{Refusal, Reply};
use lc_token::{KnownClean, Token};
use std::alloc::{AllocError, Global};

/// What a node's threads do, its log, and how clean it has seen the segments.
#[derive(Drop)]
pub struct NodeState<D: Area> {
    pub desk: Desk,
    pub journal: Journal<D>,
    pub known: KnownClean,
}

impl<D: Area + Drop> NodeState<D> {
    ghost use Rattle.lc_events.specs.NodeState.{SeesStanding, FollowsArrive, FollowsLeave, FollowsNode, FollowsReserve};
    ghost use Rattle.lc_events.specs.NodeState.{HasSameRoom, StillFitsNode, WantsPlace};

    /// A thread's open transaction gets its place in the log of this node, which a reset may have sealed; one that set
    /// nothing is over. It takes memory only for a record for which there is room.
    pub fn reserve(&mut self, alloc: Global, node: u16, thread: u16) -> Result<Reply, AllocError>
        requires seat { thread < vec_len self.old.desk.seats }
        requires node { node ≤ 7 }
        ensures follows { IfOk result (λ reply.
            FollowsReserve D.Area node thread (is_sealed D.Area self.old.journal.log) self.old reply self.new) }
        ensures memory { OnErr result (WantsPlace D.Area node thread (is_sealed D.Area self.old.journal.log) self.old) }
        ensures err { OnErr result (StillFitsNode D.Area self.old self.new) }
        ensures whole { HasSameRoom D.Area self.old self.new }
        ensures names { IfOk result (λ reply. may_reserve reply ≡ true) }
        ensures log { self.new.journal.log ≡ self.old.journal.log }
    {
        let log = LogEnd {
            end: self.journal.end(),
            room: self.journal.words,
            sealed: self.journal.log.is_sealed(),
        };
        match self.desk.prepare(alloc, node, thread, log)? {
            Ending::Refused(refusal) => Ok(Reply::Refused(refusal)),
            Ending::Empty => Ok(Reply::Ended),
            Ending::Record(words) => {
                let number = self.journal.reserve(words.as_slice())?;
                let len = words.as_slice().len() as u32;
                self.desk.reserve(thread, number);
                self.desk.memory = words.into_vec();
                Ok(Reply::Reserved {
                    place: log.end,
                    words: len,
                })
            }
        }
    }

    /// A thread's reservation is closed: its record is counted, may be flushed, and its locks are free. It takes no
    /// memory.
    pub fn close(&mut self, thread: u16) -> Reply
        requires seat { thread < vec_len self.old.desk.seats }
        ensures follows { (node : ℕ) → FollowsNode D.Area node (Close node thread) self.old result self.new }
        ensures whole { HasSameRoom D.Area self.old self.new }
        ensures names { done_or is_turn result ≡ true }
        ensures log { self.new.journal.log ≡ self.old.journal.log }
    {
        let Some(number) = self.desk.close(thread) else {
            return Reply::Refused(Refusal::OutOfTurn);
        };
        self.journal.close(number);
        Reply::Ok
    }

    /// One of the four device calls of a flush of the node's log.
    pub fn flush_step(&mut self) -> Reply
        requires up { is_failed D.Area self.old.journal.log ≡ false }
        ensures follows { (node : ℕ) → FollowsNode D.Area node (FlushStep node) self.old result self.new }
        ensures whole { HasSameRoom D.Area self.old self.new }
        ensures device { TellsFault D.Area (tells_call result) result self.old.journal.log self.new.journal.log }
        ensures names { or_fault may_flush result ≡ true }
    {
        self.journal.flush_step()
    }

    /// One of the four steps of a reset of the node's log, told what the node knows as clean.
    pub(crate) fn reset_step(&mut self) -> Reply
        requires up { is_failed D.Area self.old.journal.log ≡ false }
        ensures follows { (node : ℕ) → FollowsNode D.Area node (ResetStep node) self.old result self.new }
        ensures whole { HasSameRoom D.Area self.old self.new }
        ensures device { TellsFault D.Area (tells_but 1 result) result self.old.journal.log self.new.journal.log }
        ensures names { or_fault may_reset result ≡ true }
    {
        self.journal.reset_step(&self.known)
    }

    /// The token of a segment, from 1, is taken away to be sent; `writing` says whether a page of the segment is being
    /// written. It takes no memory.
    ///
    /// # Errors
    ///
    /// In this order: `NotHere`, `Held`, `Writing`, `Unflushed`. Nothing has changed then.
    pub(crate) fn leave(&mut self, segment: u32, writing: bool) -> Result<Token, Refusal>
        requires first { 1 ≤ segment }
        requires slot { segment ≤ vec_len self.old.desk.here.slots }
        ensures follows { FollowsLeave D.Area segment writing self.old result self.new }
        ensures segment { IfOk result (λ token. token.segment ≡ segment) }
        ensures whole { HasSameRoom D.Area self.old self.new }
        ensures names { IfErr result (λ refusal. may_refuse_leave refusal ≡ true) }
        ensures log { self.new.journal.log ≡ self.old.journal.log }
    {
        let reserved = self.journal.records.count();
        let stable = self.journal.acked;
        match self.desk.leave(segment, writing, reserved, stable) {
            Ok(token) => Ok(token),
            Err(fault) => match token_refusal(fault) {
                Some(refusal) => Err(refusal),
                None => unreachable!(),
            },
        }
    }

    /// A token that was sent here is placed. It takes no memory.
    ///
    /// # Errors
    ///
    /// `OutOfTurn` where a token of the segment stands here; `Behind` where the node has not applied all that the token
    /// has seen. The token is handed back, and nothing has changed.
    pub(crate) fn arrive(&mut self, token: Token) -> Result<(), (Token, Refusal)>
        requires first { 1 ≤ token.segment }
        requires slot { token.segment ≤ vec_len self.old.desk.here.slots }
        ensures follows { FollowsArrive D.Area token self.old result self.new }
        ensures whole { HasSameRoom D.Area self.old self.new }
        ensures names { IfErr result (λ back. may_refuse_arrive back.1 ≡ true) }
        ensures log { self.new.journal.log ≡ self.old.journal.log }
        ensures stands { (slot : SegmentCopy) → slice_get self.old.desk.here.slots.items (token.segment - 1) ≡ Some slot
            → IsSome slot.token.token
            → (result ≡ Err (token, Refusal.OutOfTurn)) × (self.new ≡ self.old) }
    {
        let segment = token.segment();
        let slot = &self.desk.here.slots[segment as usize - 1];
        if !slot.token.is_empty() {
            return Err((token, Refusal::OutOfTurn));
        }
        match self.desk.arrive(token) {
            Ok(()) => {
                self.see(segment);
                Ok(())
            }
            Err((token, fault)) => match token_refusal(fault) {
                Some(refusal) => Err((token, refusal)),
                None => unreachable!(),
            },
        }
    }

    /// Takes in what the token of a segment, from 1, calls clean, where it stands here. It takes no memory.
    pub(crate) fn see(&mut self, segment: u32)
        requires first { 1 ≤ segment }
        requires slot { segment ≤ vec_len self.old.desk.here.slots }
        ensures sees { SeesStanding (slice_get self.old.desk.here.slots.items (segment - 1)) self.old.known
            self.new.known }
        ensures desk { self.new.desk ≡ self.old.desk }
        ensures journal { self.new.journal ≡ self.old.journal }
    {
        let desk = &self.desk;
        let slot = &desk.here.slots[segment as usize - 1];
        if let Some(token) = slot.token.token() {
            self.known.see(token);
        }
    }
}
