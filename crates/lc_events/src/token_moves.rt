//! Tokens and records go from node to node.
ghost use Rattle.std.specs.Prelude.{◌≡◌, true, IfOk, OnErr};
ghost use Rattle.lc_model.specs.Refusals.{is_known};
ghost use Rattle.lc_model.specs.declared.event.Event.TheVariants.{Arrive, Leave, Deliver};
ghost use Rattle.lc_events.specs.Running.{FollowsLeaving, FollowsRow, StillFitsAll};
ghost use Rattle.lc_events.specs.Geometries.{RefusesUnknown};
ghost use Rattle.lc_events.specs.Layers.{StepsRunning, TriesRunning};
ghost use Rattle.lc_events.specs.Stepping.{FollowsStep};
ghost use Rattle.lc_desk.specs.MayReply.{done_or, may_refuse_leave};
ghost use Rattle.lc_events.specs.MayReply.{may_refuse_arrive, may_reply};
ghost use Rattle.lc_events.specs.Faults.{CountsLogs, SameLogs};
ghost use Rattle.lc_record.specs.Part.{number_in};
ghost use Rattle.lc_model.specs.Machine.{may_deliver};
ghost use Rattle.lc_events.specs.Delivers.{Brings, WantsPart};
ghost use Rattle.lc_desk.specs.Receives.{reply_of};
ghost use Rattle.lc_desk.specs.TokenRefused.{token_refusal};

use crate::named::{knows_delivery, knows_token};
use crate::running::Running;
use lc_disk::Area;
use lc_journal::Published;
use lc_model::{Refusal, Reply};
use lc_record::{Record, View, decode};
use lc_token::{Received, TokenFault};
use std::alloc::{AllocError, Global};

impl<D: Area + Drop> Running<D> {
    /// The token of a segment leaves a node: it is on its way then. `writing` says whether a page of the segment is
    /// being written. It takes no memory.
    pub fn leave(&mut self, node: u16, segment: u32, writing: bool) -> Reply
        ensures follows { FollowsStep D.Area writing self.old (Leave node segment) result self.new }
        ensures counts { CountsLogs D.Area self.old (Leave node segment) result self.new }
        ensures unknown { RefusesUnknown self.old.geometry (Leave node segment) result }
        ensures names { may_reply (Leave node segment) result ≡ true }
    {
        if let Some(refusal) = self.refusal(node, knows_token(&self.geometry, node, segment)) {
            return Reply::Refused(refusal);
        }
        self.send_off(node, segment, writing)
    }

    // A node that serves does it.
    fn send_off(&mut self, node: u16, segment: u32, writing: bool) -> Reply
        requires known { is_known self.old.geometry (Leave node segment) ≡ true }
        ensures follows { FollowsLeaving D.Area node segment writing self.old result self.new }
        ensures names { done_or may_refuse_leave result ≡ true }
        ensures logs { SameLogs D.Area self.old self.new }
    {
        match self.nodes[node as usize].leave(segment, writing) {
            Ok(token) => {
                self.travelling[segment as usize - 1] = Some(token);
                Reply::Ok
            }
            Err(refusal) => Reply::Refused(refusal),
        }
    }

    /// The token of a segment that is on its way arrives at a node; where it is refused it stays on its way. It takes
    /// no memory.
    pub fn arrive(&mut self, node: u16, segment: u32) -> Reply
        ensures { StepsRunning D.Area self.old (Arrive node segment) result self.new }
    {
        if let Some(refusal) = self.refusal(node, knows_token(&self.geometry, node, segment)) {
            return Reply::Refused(refusal);
        }
        self.take_in(node, segment)
    }

    // A node that serves does it.
    fn take_in(&mut self, node: u16, segment: u32) -> Reply
        requires known { is_known self.old.geometry (Arrive node segment) ≡ true }
        ensures follows { FollowsRow D.Area self.old (Arrive node segment) result self.new }
        ensures names { done_or may_refuse_arrive result ≡ true }
        ensures logs { SameLogs D.Area self.old self.new }
    {
        let place = segment as usize - 1;
        let Some(token) = self.travelling[place].take() else {
            return Reply::Refused(Refusal::OutOfTurn);
        };
        match self.nodes[node as usize].arrive(token) {
            Ok(()) => Reply::Ok,
            Err((token, refusal)) => {
                self.travelling[place] = Some(token);
                Reply::Refused(refusal)
            }
        }
    }

    /// A record that a node has published comes to a node, which applies its part of a segment once it has applied all
    /// before it; the record is named by its number, from 1. It takes memory only for a part that the node does not
    /// know, and not where that is the next and none is held back: it is put on the image from where the record stands.
    pub fn deliver(
        &mut self,
        alloc: Global,
        sender: u16,
        number: u64,
        segment: u32,
        to: u16,
    ) -> Result<Reply, AllocError>
        ensures { TriesRunning D.Area self.old (Deliver sender number segment to) result self.new }
    {
        let known = knows_delivery(&self.geometry, sender, segment, to);
        if let Some(refusal) = self.refusal(to, known) {
            return Ok(Reply::Refused(refusal));
        }
        self.bring(alloc, sender, number, segment, to)
    }

    // A node that serves takes it.
    fn bring(
        &mut self,
        alloc: Global,
        sender: u16,
        number: u64,
        segment: u32,
        to: u16,
    ) -> Result<Reply, AllocError>
        requires known { is_known self.old.geometry (Deliver sender number segment to) ≡ true }
        ensures follows { IfOk result (λ reply.
            FollowsRow D.Area self.old (Deliver sender number segment to) reply self.new) }
        ensures memory { OnErr result (WantsPart D.Area sender number segment to self.old) }
        ensures err { OnErr result (StillFitsAll D.Area self.old self.new) }
        ensures names { IfOk result (λ reply. may_deliver reply ≡ true) }
        ensures logs { SameLogs D.Area self.old self.new }
    {
        match self.delivery(alloc, sender, number, segment, to)? {
            Delivery::Unknown => Ok(Reply::Refused(Refusal::Unknown)),
            Delivery::Known => Ok(Reply::Ignored),
            Delivery::New(record) => {
                let desk = &mut self.nodes[to as usize].desk;
                let received = desk.receive(alloc, segment, &record)?;
                Ok(reply_of(received))
            }
            Delivery::Next(seq) => {
                let receiver = &mut self.nodes[to as usize];
                let mut image = receiver.desk.take_image(alloc, segment);
                let journal = &self.nodes[sender as usize].journal;
                journal.put_on(number, segment, &mut image);
                let receiver = &mut self.nodes[to as usize];
                Ok(reply_of(receiver.desk.put_next(segment, seq, image)))
            }
        }
    }

    // What the record of this number brings. It takes memory only for one whose part is new, and not for the next while
    // none is held back.
    fn delivery(
        &self,
        alloc: Global,
        sender: u16,
        number: u64,
        segment: u32,
        to: u16,
    ) -> Result<Delivery, AllocError>
        requires known { is_known self.now.geometry (Deliver sender number segment to) ≡ true }
        ensures brings { IfOk result (λ delivery. Brings D.Area sender number segment to self.now delivery) }
        ensures memory { OnErr result (WantsPart D.Area sender number segment to self.now) }
    {
        let view = match self.nodes[sender as usize].journal.published(number) {
            Published::Unknown => return Ok(Delivery::Unknown),
            Published::Trimmed => return Ok(Delivery::Known),
            Published::Record(view) => view,
        };
        let Some(seq) = number_in(&view, segment) else {
            return Ok(Delivery::Unknown);
        };
        let slot = &self.nodes[to as usize].desk.here.slots[segment as usize - 1];
        if slot.knows(seq) {
            return Ok(Delivery::Known);
        }
        if slot.parts.is_next(seq) {
            return Ok(Delivery::Next(seq));
        }
        match decode(alloc, view.words())? {
            Some((record, _)) => Ok(Delivery::New(record)),
            None => unreachable!(),
        }
    }
}

// What a delivery brings to the node that it comes to.
#[derive(Drop)]
enum Delivery {
    // The sender has published no record under the number, or one without a lock on the segment.
    Unknown,
    // The node has the record's part already, or no peer wants the record any more.
    Known,
    // A record whose part the node does not have, and cannot put on its image at once.
    New(Record),
    // A record whose part the node does not have, with the next number of the segment, while none is held back.
    Next(u64),
}

// The number of a record among those of this segment, if it has a lock on it.
fn number_in(view: &View<'_>, segment: u32) -> Option<u64>
    ensures { result ≡ number_in segment view.now.locks }
{
    for index in 0..view.lock_count() {
        let lock = view.lock(index).unwrap();
        if lock.segment == segment {
            return Some(lock.seq);
        }
    }
    None
}

// The reply of the same name.
fn reply_of(received: Received) -> Reply
    ensures { result ≡ reply_of received }
{
    match received {
        Received::Applied(number) => Reply::Applied(number),
        Received::HeldBack => Reply::HeldBack,
        Received::Ignored => Reply::Ignored,
    }
}

/// The refusal to what a token refused; there is none for want of memory.
pub(crate) fn token_refusal(fault: TokenFault) -> Option<Refusal>
    ensures { result ≡ token_refusal fault }
{
    match fault {
        TokenFault::NotHere { segment } => Some(Refusal::NotHere { segment }),
        TokenFault::Held => Some(Refusal::Held),
        TokenFault::Writing => Some(Refusal::Writing),
        TokenFault::Unflushed => Some(Refusal::Unflushed),
        TokenFault::Behind { applied, seq } => Some(Refusal::Behind { applied, seq }),
        TokenFault::NoMemory => None,
    }
}
