//! How the nodes of a recovered store come up.
ghost use Rattle.std.specs.Prelude.{◌≡◌, ◌<◌, ◌≤◌, ◌+◌, ℕ, [], Some, slice_get, vec_capacity, vec_len, IfErr, IfOk};
ghost use Rattle.lc_lock.specs.declared.ticket_lock.TicketLock.{TicketLock as Keeps};
ghost use Rattle.lc_lock.specs.Loans.{key_of};
ghost use Rattle.lc_recover.specs.Reads.{HaveLengths};
ghost use Rattle.lc_recover.specs.Recovered.{AreFinished};
ghost use Rattle.lc_node.specs.FreshNode.{AreFreshNodes, ComesUp};
ghost use Rattle.lc_node.specs.FreshSegment.{StandInOrder};
ghost use Rattle.lc_segments.specs.SegView.{SegView};
ghost use Rattle.lc_segments.specs.declared.node_fault.NodeFault.TheVariants.{NoMemory};

use crate::fresh_node::FreshNode;
use crate::fresh_segment::FreshSegment;
use crate::node::Node;
use crate::opening::OpenedNode;
use crate::store_room::StoreRoom;
use lc_disk::Area;
use lc_lock::TicketLock;
use lc_recover::Recovered;
use lc_segments::{BoxedSide, NodeFault};
use std::alloc::Global;
use std::sync::atomic::AtomicIn;

/// The first nodes of a recovered store, so many, as they come up: with the bytes and numbers that were recovered, and
/// empty logs. They share the store's tokens. All memory is taken before the store is taken apart.
///
/// # Errors
///
/// `NoMemory`, which alone it may lack. The store comes back as it was.
pub fn fresh_nodes<D: Area + Drop>(
    alloc: Global,
    recovered: Recovered<D>,
    nodes: u16,
) -> Result<Vec<FreshNode<D>>, (Recovered<D>, NodeFault)>
    requires some { 0 < nodes }
    requires within { nodes ≤ recovered.geometry.nodes }
    requires few { nodes ≤ 8 }
    requires lengths { HaveLengths D.Area recovered.geometry recovered.areas }
    requires finished { AreFinished D.Area recovered }
    ensures fresh { IfOk result (λ fresh. AreFreshNodes recovered nodes fresh.items) }
    ensures back { IfErr result (λ back. (back.0 ≡ recovered) × (back.1 ≡ NoMemory)) }
{
    match StoreRoom::new(alloc, &recovered, nodes) {
        Ok(room) => Ok(room.fill(recovered)),
        Err(_) => Err((recovered, NodeFault::NoMemory)),
    }
}

impl<D: Area + Drop> FreshNode<D> {
    /// The node is up, and may have peers. It takes no memory and calls no device: it only puts each part behind its
    /// lock.
    pub fn come_up(self) -> OpenedNode<D>
        ensures { ComesUp self result }
    {
        let FreshNode {
            geometry,
            number,
            stage,
            seat,
            log,
            log_lock,
            room_turns,
            segments,
            locks,
        } = self;
        let node = Node {
            geometry,
            number,
            stage,
            log: log_lock.fill(log),
            segments: lock_all(segments, locks),
            room_turns,
            halted: AtomicIn::new(0),
            is_alone: false,
        };
        OpenedNode { node, seat }
    }
}

// Puts each segment behind its lock, in the room that is there for the locks. It takes no memory.
fn lock_all<D: Area + Drop>(
    segments: Vec<FreshSegment<D>>,
    locks: Vec<TicketLock<BoxedSide<D>, u32>>,
) -> Vec<TicketLock<BoxedSide<D>, u32>>
    requires in_order { StandInOrder segments.items }
    requires empty { locks.items ≡ [] }
    requires space { vec_len segments ≤ vec_capacity locks }
    ensures count { vec_len result ≡ vec_len segments }
    ensures in_order { (place : ℕ) (lock : Keeps (SegView D) ℕ) → slice_get result.items place ≡ Some lock
        → key_of lock ≡ place + 1 }
{
    let (mut segments, mut locks) = (segments, locks);
    for _ in 0..segments.len() {
        locks.push_reserved(segments.remove(0).come_up());
    }
    segments.destroy_empty();
    locks
}
