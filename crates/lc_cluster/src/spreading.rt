//! How published records are sent to all peers.
ghost use Rattle.std.specs.Prelude.{◌≡◌, ◌+◌, ◌-◌, ◌^◌, ◌<◌, ◌≤◌, ℕ, All, List, length, min, IfOk, IfErr, OnOk, OnErr};
ghost use Rattle.lc_cluster.specs.Copies.{CanBeSent, AreNext, SendsAll, SendsFirst};
ghost use Rattle.lc_segments.specs.Each.{Each};
ghost use Rattle.lc_node.specs.Each.{EachThree};
ghost use Rattle.lc_log_side.specs.Published.{published};
ghost use Rattle.lc_cluster.specs.Spread.{ArePrefixes, LacksNoneOf, SameLines, SendsFew, SendsMost, sent_in};
ghost use Rattle.lc_cluster.specs.Spread.{missing_in};
ghost use Rattle.lc_cluster.specs.Spread.{tokens_in};
ghost use Rattle.lc_segments.specs.declared.node_fault.NodeFault.TheVariants.{NoMemory};

use crate::copying::copies_for;
use crate::peer_end::PeerEnd;
use crate::send_ends::SendEnds;
use lc_disk::Area;
use lc_log_side::LogSide;
use lc_segments::NodeFault;
use std::alloc::Global;
use std::collections::VecDeque;
use std::sync::Wait;

/// How many records were sent, and how many are still missing, those of each peer counted.
#[derive(Clone, Copy, Debug, PartialEq, Eq)]
pub struct Spread {
    /// At most 64 to each peer.
    pub sent: u64,
    /// `u64::MAX` where more are missing.
    pub left: u64,
}

impl<P: Drop> SendEnds<P> {
    /// Sends each peer the published records that it lacks, in the order of their numbers: 64 in a call, or all where
    /// these are fewer, if none of them was dropped. A peer is cut off before where its line held 64 messages at one
    /// moment, or its receiving end is gone. All that may be sent is copied before the first is sent: NoMemory, the one
    /// fault, changes nothing. There are less than 2^16 peers, so the sum of what is sent fits; what is left is added
    /// up saturating. Log-based coherency: Feeley et al., OSDI 1994.
    pub fn spread<D: Area + Drop, R: Wait>(
        &mut self,
        rt: &R,
        alloc: Global,
        log: &LogSide<D>,
    ) -> Result<Spread, NodeFault>
        requires few { length self.old.ends.items < 2 ^ 16 }
        ensures prefix { ArePrefixes (published log.now) self.old.ends.items
            → ArePrefixes (published log.now) self.new.ends.items }
        ensures each { OnOk result (Each SendsFew self.old.ends.items self.new.ends.items) }
        ensures most { OnOk result (ArePrefixes (published log.now) self.old.ends.items
            → All (LacksNoneOf log.now.gone) self.old.ends.items
            → Each (SendsMost (published log.now)) self.old.ends.items self.new.ends.items) }
        ensures sent { IfOk result (λ s. sent_in self.new.ends.items ≡ sent_in self.old.ends.items + s.sent) }
        ensures left { IfOk result (λ s. s.left
            ≡ min (2 ^ 64 - 1) (missing_in (published log.now) self.new.ends.items)) }
        ensures tokens { tokens_in self.new.ends.items ≡ tokens_in self.old.ends.items }
        ensures lines { SameLines self.old.ends.items self.new.ends.items }
        ensures err { OnErr result (self.new ≡ self.old) }
        ensures which { IfErr result (λ fault. fault ≡ NoMemory) }
        ensures memory { OnErr result (0 < length self.old.ends.items) }
    {
        let Ok(copies) = copies_for(alloc, log, self.ends.as_slice()) else {
            return Err(NodeFault::NoMemory);
        };
        let sent = send_copies(rt, &mut self.ends, copies);
        let left = missing(log, self.ends.as_slice());
        Ok(Spread { sent, left })
    }
}

// Sends each peer the copies for it. It answers how many were sent.
fn send_copies<P: Drop, R: Wait>(
    rt: &R,
    peers: &mut Vec<PeerEnd<P>>,
    copies: Vec<VecDeque<Vec<u64>>>,
) -> u64
    requires few { length peers.old.items < 2 ^ 16 }
    requires fit { Each (λ peer lacks. CanBeSent peer lacks.items) peers.old.items copies.items }
    ensures prefix { (published : List (List ℕ))
        → Each (λ peer lacks. AreNext published peer lacks.items) peers.old.items copies.items
        → ArePrefixes published peers.old.items → ArePrefixes published peers.new.items }
    ensures each { Each SendsFew peers.old.items peers.new.items }
    ensures all { EachThree (λ old lacks new. SendsAll old lacks.items new) peers.old.items copies.items
        peers.new.items }
    ensures sent { sent_in peers.new.items ≡ sent_in peers.old.items + result }
    ensures tokens { tokens_in peers.new.items ≡ tokens_in peers.old.items }
    ensures lines { SameLines peers.old.items peers.new.items }
{
    let mut copies = copies;
    let mut sent = 0;
    while let Some(lacks) = copies.pop() {
        let peer = &mut peers[copies.len()];
        sent += peer.send_all(rt, lacks);
    }
    sent
}

impl<P: Drop> PeerEnd<P> {
    // Sends records as the next, until one is refused; that and those after it are dropped, and the peer is cut off. It
    // answers how many were sent.
    fn send_all<R: Wait>(&mut self, rt: &R, records: VecDeque<Vec<u64>>) -> u64
        requires fit { CanBeSent self.old records.items }
        ensures sent { SendsFirst records.items result self.old self.new }
        ensures all { SendsAll self.old records.items self.new }
        ensures few { result ≤ 64 }
    {
        let mut records = records;
        let mut sent = 0;
        while let Some(words) = records.pop_front() {
            if !self.send_record(rt, words) {
                return sent;
            }
            sent += 1;
        }
        sent
    }
}

// How many of the published records were not sent, those of each peer counted; `u64::MAX` where they are more.
fn missing<P: Drop, D: Area + Drop>(log: &LogSide<D>, peers: &[PeerEnd<P>]) -> u64
    ensures { result ≡ min (2 ^ 64 - 1) (missing_in (published log.now) peers.now) }
{
    let mut left: u64 = 0;
    for peer in peers {
        left = left.saturating_add(log.published().saturating_sub(peer.count));
    }
    left
}
