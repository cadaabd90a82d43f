//! The lines of a cluster.
ghost use Rattle.std.specs.Prelude.{◌≡◌, ◌≢◌, ◌≤◌, ◌<◌, ◌+◌, ℕ, length, All, IfOk, OnOk};
ghost use Rattle.lc_cluster.specs.Wiring.{AreNumbered, AreWired, AreLines, HasPeers, IsUnused};

use crate::peer_end::PeerEnd;
use crate::peer_inbox::PeerInbox;
use crate::recv_ends::RecvEnds;
use crate::send_ends::SendEnds;
use lc_line::open_line;
use std::alloc::{AllocError, Global};

/// A node's ends of the lines to and from its peers.
#[derive(Drop)]
pub(crate) struct NodeEnds<P: Drop> {
    pub(crate) to: SendEnds<P>,
    pub(crate) from: RecvEnds<P>,
}

/// The ends of each node of a cluster of so many, with a line from each to each other. It fails for want of memory
/// alone.
pub(crate) fn wire<P: Drop>(alloc: Global, nodes: u16) -> Result<Vec<NodeEnds<P>>, AllocError>
    requires { 1 ≤ nodes }
    ensures count { IfOk result (λ ends. length ends.items ≡ nodes) }
    ensures numbered { IfOk result (λ ends. AreNumbered ends.items) }
    ensures each { IfOk result (λ ends. All (HasPeers nodes) ends.items) }
    ensures new { IfOk result (λ ends. All IsUnused ends.items) }
    ensures lines { IfOk result (λ ends. AreLines nodes ends.items) }
{
    let mut all = unwired(alloc, nodes)?;
    for from in 0..usize::from(nodes) {
        wire_from(alloc, &mut all, from)?;
    }
    Ok(all)
}

// The nodes of a cluster of so many, without a line, each with room for its ends.
fn unwired<P: Drop>(alloc: Global, nodes: u16) -> Result<Vec<NodeEnds<P>>, AllocError>
    requires { 1 ≤ nodes }
    ensures { IfOk result (λ all. AreWired nodes 0 0 all.items) }
{
    let peers = usize::from(nodes) - 1;
    let mut all = Vec::with_capacity(alloc, usize::from(nodes))?;
    for node in 0..nodes {
        let to = SendEnds::new(Vec::with_capacity(alloc, peers)?);
        let from = RecvEnds::new(node, Vec::with_capacity(alloc, peers)?);
        all.push_reserved(NodeEnds { to, from });
    }
    Ok(all)
}

// Lines from a node to each other.
fn wire_from<P: Drop>(
    alloc: Global,
    all: &mut Vec<NodeEnds<P>>,
    from: usize,
) -> Result<(), AllocError>
    requires { from < length all.old.items }
    ensures { (nodes : ℕ) → AreWired nodes from 0 all.old.items
        → OnOk result (AreWired nodes (from + 1) 0 all.new.items) }
{
    for to in 0..all.len() {
        if to != from {
            connect(alloc, all, from, to)?;
        }
    }
    Ok(())
}

// A line from a node to another, whose ends go after those that they have.
fn connect<P: Drop>(
    alloc: Global,
    all: &mut Vec<NodeEnds<P>>,
    from: usize,
    to: usize,
) -> Result<(), AllocError>
    requires differ { from ≢ to }
    requires from { from < length all.old.items }
    requires to { to < length all.old.items }
    ensures count { length all.new.items ≡ length all.old.items }
    ensures wired { (nodes : ℕ) → AreWired nodes from to all.old.items
        → OnOk result (AreWired nodes from (to + 1) all.new.items) }
{
    let (sending, receiving) = open_line(alloc)?;
    let sender = &mut all[from];
    sender.to.ends.push(PeerEnd::new(sending))?;
    let receiver = &mut all[to];
    receiver.from.ends.push(PeerInbox::new(receiving))?;
    Ok(())
}
