//! A node parts with the token of a segment.
ghost use Rattle.std.specs.Prelude.{◌≡◌, ◌⊎◌, ◌↔◌, true, false, Ok, Err, None, OnErr, IfErr};
ghost use Rattle.lc_stage.specs.Seats.{IsFlusherOf, IsSeatOf};
ghost use Rattle.lc_segments.specs.Leaving.{HasFailed, IsServing};
ghost use Rattle.lc_node.specs.Held.{HasSegment};
ghost use Rattle.lc_node.specs.Parting.{IsStableTo, IsUngiven, LacksToken, LeavesOn, PartsWithIn};

use crate::node::Node;
use crate::peer_node::PeerNode;
use crate::token_line::TokenLine;
use lc_disk::Area;
use lc_log_side::LogSide;
use lc_segments::{NodeFault, SegSide, Travelling};
use lc_token::TokenFault;
use std::sync::Wait;

impl<D: Area + Drop> PeerNode<D> {
    /// Parts with the token of a segment, which goes with the area of the segment's pages on a line to the node of this
    /// number. It waits for the locks of the segment and of the log, and then as the line does, and takes no memory.
    ///
    /// # Errors
    ///
    /// `Halted` where a call of the device of the log or of the segment's pages has failed. After that, as `Token`:
    /// `NotHere` where the token is elsewhere or there is no such segment, and `Unflushed` where not all that the node
    /// reserved is stable. `ChannelFull` where the line refuses it. After each of them the token stands where it was.
    pub fn part_with<R: Wait, L: TokenLine<Travelling<D>>>(
        &self,
        rt: &R,
        segment: u32,
        to: u16,
        line: &L,
    ) -> Result<(), NodeFault>
        ensures parts { HasSegment self.now segment
            → PartsWithIn D.Area self.now segment to (L.sent line.now) (L.refused line.now) result }
        ensures no_segment { (HasSegment self.now segment → ⊥) → LacksToken self.now segment result }
        ensures refused { IfErr result (IsUngiven segment to) }
    {
        let node = &self.inner;
        if !node.has(segment) {
            return node.lack_token(rt, segment);
        }
        let lock = node.lock_of(segment);
        let (mut side, side_loan) = lock.lock(rt);
        let (mut log, log_loan) = node.log.lock(rt);
        let parted = part(&mut side.inner, rt, node, &mut log, to, line);
        node.log.unlock(log, log_loan);
        lock.unlock(side, side_loan);
        parted
    }
}

impl<D: Area + Drop> Node<D> {
    // Refuses to part with the token of a segment that the node does not have.
    fn lack_token<R: Wait>(&self, rt: &R, segment: u32) -> Result<(), NodeFault>
        ensures lacks { LacksToken self.now segment result }
        ensures refused { (result ≡ Err NodeFault.Halted)
            ⊎ (result ≡ Err (NodeFault.Token (TokenFault.NotHere segment))) }
    {
        let (log, loan) = self.log.lock(rt);
        let is_halted = log.is_halted();
        self.log.unlock(log, loan);
        if is_halted {
            return Err(NodeFault::Halted);
        }
        Err(NodeFault::Token {
            fault: TokenFault::NotHere { segment },
        })
    }
}

// Parts with the token of a segment, whose log this is: looks first whether all that the node reserved is stable.
fn part<D: Area + Drop, R: Wait, L: TokenLine<Travelling<D>>>(
    side: &mut SegSide<D>,
    rt: &R,
    node: &Node<D>,
    log: &mut LogSide<D>,
    to: u16,
    line: &L,
) -> Result<(), NodeFault>
    requires own { IsFlusherOf node.now.stage log.old.flusher × IsSeatOf node.now.stage log.old.probe }
    ensures own { IsFlusherOf node.now.stage log.new.flusher × IsSeatOf node.now.stage log.new.probe }
    ensures log { log.new ≡ record log.old { probe = log.new.probe } }
    ensures halted { (result ≡ Err NodeFault.Halted) ↔ ((log.old.is_halted ≡ true) ⊎ HasFailed side.old.pages) }
    ensures not_here { (result ≡ Err (NodeFault.Token (TokenFault.NotHere side.old.segment)))
        ↔ ((log.old.is_halted ≡ false) × (side.old.standing.token ≡ None)) }
    ensures unflushed { (result ≡ Err (NodeFault.Token TokenFault.Unflushed))
        ↔ ((log.old.is_halted ≡ false) × IsServing side.old.pages × (IsStableTo log.old log.new → ⊥)) }
    ensures full { result ≡ Err (NodeFault.ChannelFull to) → L.refused line.now }
    ensures which { IfErr result (IsUngiven side.old.segment to) }
    ensures given { result ≡ Ok tt → IsStableTo log.old log.new
        × LeavesOn D.Area node.now.number (L.sent line.now) side.old side.new }
    ensures err { OnErr result (side.new ≡ side.old) }
    ensures same { (side.new.segment ≡ side.old.segment) × (side.new.image ≡ side.old.image) }
{
    if log.is_halted() {
        return Err(NodeFault::Halted);
    }
    let flushed = node.is_flushed(log);
    send_off(side, rt, flushed, node.number, to, line)
}

// Sends the token of a segment off, where it is told that all that the node of this number reserved is stable.
fn send_off<D: Area + Drop, R: Wait, L: TokenLine<Travelling<D>>>(
    side: &mut SegSide<D>,
    rt: &R,
    flushed: bool,
    from: u16,
    to: u16,
    line: &L,
) -> Result<(), NodeFault>
    ensures not_here { (result ≡ Err (NodeFault.Token (TokenFault.NotHere side.old.segment)))
        ↔ (side.old.standing.token ≡ None) }
    ensures halted { (result ≡ Err NodeFault.Halted) ↔ HasFailed side.old.pages }
    ensures unflushed { (result ≡ Err (NodeFault.Token TokenFault.Unflushed))
        ↔ (IsServing side.old.pages × (flushed ≡ false)) }
    ensures full { result ≡ Err (NodeFault.ChannelFull to) → L.refused line.now }
    ensures which { IfErr result (IsUngiven side.old.segment to) }
    ensures given { result ≡ Ok tt → (flushed ≡ true) × LeavesOn D.Area from (L.sent line.now) side.old side.new }
    ensures err { OnErr result (side.new ≡ side.old) }
    ensures same { (side.new.segment ≡ side.old.segment) × (side.new.image ≡ side.old.image) }
{
    let journey = side.leave(flushed, from)?;
    match line.send(rt, journey) {
        Ok(()) => Ok(()),
        Err(journey) => {
            side.stay(journey);
            Err(NodeFault::ChannelFull { to })
        }
    }
}
