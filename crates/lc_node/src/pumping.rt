//! A message of a peer is taken in.
ghost use Rattle.std.specs.Prelude.{◌≡◌, IfOk, IfErr, IsSome};
ghost use Rattle.std.specs.Option.{ForSome};
ghost use Rattle.lc_node.specs.Held.{IsUnheld};
ghost use Rattle.lc_node.specs.Pumping.{IsOfMessage, IsOfRecord, IsOfToken, pumped_of};
ghost use Rattle.lc_node.specs.Reached.{AnswersJourney, AnswersMessage, AnswersWords, locked_in};
ghost use Rattle.lc_node.specs.declared.pumped.Pumped.TheVariants.{Waiting};

use crate::delivered::Delivered;
use crate::message::Message;
use crate::node::Node;
use crate::peer_node::PeerNode;
use crate::pumped::Pumped;
use lc_disk::Area;
use lc_record::View;
use lc_segments::{NodeFault, Travelling};
use lc_token::Received;
use smallvec::SmallVec;
use std::alloc::{AllocError, Global};
use std::sync::Wait;

// The segments on which a record has locks, in their order. More than 16 alone take memory.
fn segments_locked(alloc: Global, record: &View) -> Result<SmallVec<u32, 16>, AllocError>
    ensures { IfOk result (λ segments. segments.items ≡ locked_in «record».now) }
{
    let mut segments = SmallVec::new(alloc);
    for index in 0..record.lock_count() {
        let Some(lock) = record.lock(index) else {
            unreachable!();
        };
        segments.push(lock.segment)?;
    }
    Ok(segments)
}

impl<D: Area + Drop> Node<D> {
    /// Takes a record that a peer published in, at all segments on which it has locks: it waits for their locks,
    /// ascending.
    ///
    /// # Errors
    ///
    /// `NoMemory`, and `NotHere` of a segment that the node does not have. Nothing has changed then, but that applied
    /// parts may be folded.
    pub(crate) fn deliver<R: Wait>(
        &self,
        rt: &R,
        alloc: Global,
        words: &[u64],
    ) -> Result<Pumped, NodeFault>
        ensures answer { AnswersWords self.now words.now result }
        ensures record { IfOk result IsOfRecord }
        ensures refused { IfErr result IsUnheld }
    {
        let Some(record) = View::at(words, 0) else {
            return Ok(Pumped::Ignored);
        };
        let Ok(segments) = segments_locked(alloc, &record) else {
            return Err(NodeFault::NoMemory);
        };
        let mut held = self.hold(rt, alloc, segments.as_slice())?;
        let delivered = held.deliver(alloc, &record);
        self.release(held);
        Ok(delivered?.pumped())
    }

    /// A token came: it arrives, or waits. It comes back where the node does not have its segment, or another waits
    /// there.
    pub(crate) fn admit<R: Wait>(
        &self,
        rt: &R,
        journey: Travelling<D>,
    ) -> Result<Pumped, Travelling<D>>
        ensures answer { AnswersJourney self.now journey result }
        ensures token { IfOk result IsOfToken }
        ensures back { IfErr result (λ given. given ≡ journey) }
    {
        let segment = journey.segment();
        if !self.has(segment) {
            return Err(journey);
        }
        let lock = self.lock_of(segment);
        let (mut side, loan) = lock.lock(rt);
        let admitted = side.inner.admit(journey);
        lock.unlock(side, loan);
        match admitted {
            Ok(true) => Ok(Pumped::Arrived),
            Ok(false) => Ok(Pumped::Waiting),
            Err(journey) => Err(journey),
        }
    }
}

impl Delivered {
    fn pumped(self) -> Pumped
        ensures { result ≡ pumped_of self }
    {
        match self.first {
            Received::Applied(applied) => Pumped::Applied {
                applied,
                arrived: self.arrived,
            },
            Received::HeldBack => Pumped::HeldBack,
            Received::Ignored => Pumped::Ignored,
        }
    }
}

impl<D: Area + Drop> PeerNode<D> {
    /// Goes on with a message of a peer: a record is taken in at all its segments, a token arrives or waits. The
    /// message comes back where it is refused, and where a token cannot wait.
    pub fn receive<R: Wait>(
        &self,
        rt: &R,
        alloc: Global,
        message: Message<Travelling<D>>,
    ) -> (Result<Pumped, NodeFault>, Option<Message<Travelling<D>>>)
        ensures answer { AnswersMessage self.now message result.0 result.1 }
        ensures of_message { IfOk result.0 (IsOfMessage message) }
        ensures back { ForSome result.1 (λ given. given ≡ message) }
        ensures refused { IfErr result.0 (λ fault. IsUnheld fault × IsSome result.1) }
        ensures waits { IsSome result.1 → IfOk result.0 (λ pumped. pumped ≡ Waiting) }
    {
        let node = &self.inner;
        match message {
            Message::Record { number, words } => match node.deliver(rt, alloc, words.as_slice()) {
                Ok(pumped) => (Ok(pumped), None),
                Err(fault) => (Err(fault), Some(Message::Record { number, words })),
            },
            Message::Token(journey) => match node.admit(rt, journey) {
                Ok(pumped) => (Ok(pumped), None),
                Err(journey) => (Ok(Pumped::Waiting), Some(Message::Token(journey))),
            },
        }
    }
}
