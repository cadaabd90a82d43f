//! A thread keeps a running node in order.
ghost use Rattle.std.specs.Prelude.{IfErr, OnOk};
ghost use Rattle.lc_cluster.specs.Cluster.{HasNode};
ghost use Rattle.lc_committer.specs.Round.{IsUnkept, IsUnkeptAt, WasKept, WasKeptAt};

use crate::member_round::ClusterNode;
use crate::round::Round;
use crate::{ShutdownSignal, Upkeep};
use lc_cluster::Cluster;
use lc_disk::Area;
use lc_node::{Node, NodeFault};
use std::rt::Clock;
use std::sync::Wait;

/// Keeps a node in order until it is told to end, in the thread that calls it: it flushes what is closed, again and
/// again, and truncates the log where it is as full as is said. What a truncation is refused for, as for a token that
/// is elsewhere or want of memory, the next round asks again. After it is told it makes one more round, so what was
/// closed without a gap before is stable then. It is an ordinary caller: nothing else needs it, and several do no harm.
///
/// # Errors
///
/// `Halted` where a device failed before, and `DeviceFault` where it fails now: the service has ended, and only a
/// recovery helps.
pub fn keep_node<D: Area + Drop, R: AllocGlobal + Clock + Wait>(
    rt: &R,
    node: &Node<D>,
    upkeep: &Upkeep,
    shutdown: &ShutdownSignal,
) -> Result<(), NodeFault>
    ensures kept { OnOk result (WasKept D.Area upkeep.now node.now) }
    ensures refused { IfErr result (IsUnkept D.Area node.now) }
{
    keep(rt, node, upkeep, shutdown)
}

/// Keeps a node of a cluster in order, by its number, as `keep_node` does. Beside that it sends the peers what is
/// published, goes on with what they have sent, and drops what none of the nodes wants any more.
///
/// # Errors
///
/// Those of `keep_node`.
pub fn keep_member<D: Area + Drop, R: AllocGlobal + Clock + Wait>(
    rt: &R,
    cluster: &Cluster<D>,
    number: u16,
    upkeep: &Upkeep,
    shutdown: &ShutdownSignal,
) -> Result<(), NodeFault>
    requires { HasNode cluster.now number }
    ensures kept { OnOk result (WasKeptAt D.Area upkeep.now cluster.now number) }
    ensures refused { IfErr result (IsUnkeptAt D.Area cluster.now number) }
{
    keep(rt, &ClusterNode { cluster, number }, upkeep, shutdown)
}

// A round after each wait, until it is told to end.
fn keep<K: Round, R: AllocGlobal + Clock + Wait>(
    rt: &R,
    kept: &K,
    upkeep: &Upkeep,
    shutdown: &ShutdownSignal,
) -> Result<(), NodeFault>
    ensures kept { OnOk result (K.kept upkeep.now kept.now) }
    ensures refused { IfErr result (K.unkept kept.now) }
{
    for _ in rt.forever() {
        let is_told = shutdown.wait(rt, upkeep.flush_every);
        kept.round(rt, upkeep)?;
        if is_told {
            return Ok(());
        }
    }
    unreachable!()
}
