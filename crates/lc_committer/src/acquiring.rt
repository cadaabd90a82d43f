//! A node gets the token of a segment.
ghost use Rattle.std.specs.Prelude.{◌≡◌, ◌≢◌, ◌⊎◌, ◌<◌, ℕ, Err, IfErr, IfOk, OnOk};
ghost use Rattle.lc_cluster.specs.Calls.{HasSegmentAt};
ghost use Rattle.lc_cluster.specs.Cluster.{HasNode};
ghost use Rattle.lc_log_side.specs.Receipts.{IsOfDevice};
ghost use Rattle.lc_segments.specs.declared.node_fault.NodeFault.TheVariants.{NotHere};
ghost use Rattle.lc_committer.specs.Acquiring.{FailsAtPeer, HadToken, LackedToken, WasAsked, WasLookedFor, WereAsked};

use crate::member_round::pump_all;
use lc_cluster::Cluster;
use lc_disk::Area;
use lc_node::NodeFault;
use std::sync::Wait;
use std::thread;

/// Gets the token of a segment to a node of a cluster, by its number. As long as the token is elsewhere it lets a peer
/// that has it flush and give it, and goes on with what the peers have sent the node. Another thread that waits for the
/// segment at that peer may get it first, and one that asks for the token at another node may take it away again. So it
/// tries so many turns, and a transaction of the caller's that is then refused as `NotHere` is to be begun again by
/// another call.
///
/// # Errors
///
/// `NotHere` where the node has no such segment, and where the token is not here after the last turn. Where there is a
/// turn, in one of them each peer either had no token or was to give it. `Halted` and `DeviceFault` of a peer that had
/// the token in one of the turns.
pub fn acquire<D: Area + Drop, R: AllocGlobal + Wait>(
    rt: &R,
    cluster: &Cluster<D>,
    number: u16,
    segment: u32,
    turns: u32,
) -> Result<(), NodeFault>
    requires { HasNode cluster.now number }
    ensures here { OnOk result (HadToken cluster.now number segment) }
    ensures not_here { (s : ℕ) → result ≡ Err (NotHere s) → (s ≡ segment) × LackedToken cluster.now number segment }
    ensures asked { (s : ℕ) → result ≡ Err (NotHere s) → 0 < turns → HasSegmentAt cluster.now number segment
        → WereAsked D.Area cluster.now number segment }
    ensures refused { IfErr result (λ fault. (fault ≡ NotHere segment)
        ⊎ (IsOfDevice fault × FailsAtPeer D.Area cluster.now number segment fault)) }
{
    let node = cluster.node(number);
    if !node.has(segment) {
        return Err(NodeFault::NotHere { segment });
    }
    if node.has_token(rt, segment) {
        return Ok(());
    }
    for _ in 0..turns {
        if take_turn(rt, cluster, number, segment)? {
            return Ok(());
        }
        thread::yield_now();
    }
    Err(NodeFault::NotHere { segment })
}

// A turn; whether the token is at the node after it.
fn take_turn<D: Area + Drop, R: AllocGlobal + Wait>(
    rt: &R,
    cluster: &Cluster<D>,
    number: u16,
    segment: u32,
) -> Result<bool, NodeFault>
    requires within { HasNode cluster.now number }
    requires segment { HasSegmentAt cluster.now number segment }
    ensures looked { IfOk result (WasLookedFor cluster.now number segment) }
    ensures asked { OnOk result (WereAsked D.Area cluster.now number segment) }
    ensures refused { IfErr result (λ fault. IsOfDevice fault × FailsAtPeer D.Area cluster.now number segment fault) }
{
    for peer in 0..cluster.nodes() {
        if peer != number {
            ask(rt, cluster, peer, number, segment)?;
            pump_all(rt, cluster, number, peer);
        }
    }
    Ok(cluster.node(number).has_token(rt, segment))
}

// Lets a node give the token of a segment to another, where it has it.
fn ask<D: Area + Drop, R: AllocGlobal + Wait>(
    rt: &R,
    cluster: &Cluster<D>,
    from: u16,
    to: u16,
    segment: u32,
) -> Result<(), NodeFault>
    requires apart { from ≢ to }
    requires within { HasNode cluster.now from × HasNode cluster.now to }
    ensures asked { OnOk result (WasAsked D.Area cluster.now to segment from) }
    ensures refused { IfErr result (λ fault. IsOfDevice fault × FailsAtPeer D.Area cluster.now to segment fault) }
{
    let node = cluster.node(from);
    if !node.has(segment) {
        return Ok(());
    }
    if !node.has_token(rt, segment) {
        return Ok(());
    }
    node.flush(rt)?;
    let _spread = cluster.spread(rt, rt.alloc(), from);
    match cluster.give(rt, from, to, segment) {
        Err(NodeFault::DeviceFault) => Err(NodeFault::DeviceFault),
        Err(NodeFault::Halted) => Err(NodeFault::Halted),
        _ => Ok(()),
    }
}
