//! What a cluster leaves whose threads have ended.
ghost use Rattle.std.specs.Prelude.{◌≡◌, ◌++◌, ℕ, All, IfErr, IfOk, OnOk, Some, map, slice_get};
ghost use Rattle.std.specs.Global.{Vec as Several};
ghost use Rattle.lc_rest.specs.Parts.{AreKept};
ghost use Rattle.lc_rest.specs.declared.node_part.NodePart.{NodePart as ThePart};
ghost use Rattle.lc_stage.specs.declared.seats.CommitSeat.{CommitSeat as Seat};
ghost use Rattle.lc_cluster.specs.LeftBy.{AreOwnSeats, node_in, post_of};
ghost use Rattle.lc_log_side.specs.LeftBy.{AreReceived};
ghost use Rattle.lc_segments.specs.LeftBy.{IsSettledPart, token_sent};
ghost use Rattle.lc_node.specs.Refusals.{StopsParts};

use crate::closing_lines::{close_lines, take_ends};
use crate::cluster::Cluster;
use crate::joining::Post;
use crate::leaving_nodes::take_nodes;
use crate::member::Member;
use lc_disk::Area;
use lc_node::{PeerNode, in_order};
use lc_rest::{Parts, SegmentPart};
use lc_segments::{NodeFault, Travelling};
use lc_stage::CommitSeat;
use std::alloc::{AllocError, Global};
use std::sync::Wait;

impl<D: Area + Drop> Cluster<D> {
    /// What the cluster leaves once its threads have ended, of each node and of each segment, as the types of a running
    /// node keep it: `lc_store::into_world` makes a store of it. For each node there is a list of its committers'
    /// seats, which may be empty: each record of which one of them has a receipt stands in the node's log, or is of an
    /// earlier round and known clean. It waits for each lock, so who still has a log or a segment lets it wait for
    /// ever. That the parts agree with one another is not looked at.
    ///
    /// # Errors
    ///
    /// `Mismatch` names the part that does not fit. It is a node's seats, where something is reserved that was not
    /// closed. It is a node's log, where a call of the device or of a segment's area failed, and where the log has not
    /// the room of the geometry's. It is a segment's token, where there is not one alone, with its pages. `NoMemory`.
    /// The cluster is gone.
    pub fn into_parts<R: Wait>(
        self,
        rt: &R,
        alloc: Global,
        seats: Vec<Vec<CommitSeat>>,
    ) -> Result<Parts<D>, NodeFault>
        requires own { AreOwnSeats self seats.items }
        ensures kept { IfOk result (λ parts. AreKept D.Area parts) }
        ensures received { IfOk result (λ parts. (node : ℕ) (part : ThePart D D.Area) (mine : Several Seat)
            → slice_get parts.nodes.items node ≡ Some part → slice_get seats.items node ≡ Some mine
            → AreReceived part.round part.stable.items part.known mine.items) }
        ensures geometry { IfOk result (λ parts. parts.geometry ≡ self.geometry) }
        ensures refused { IfErr result (StopsParts self.geometry) }
    {
        let Cluster {
            geometry,
            members,
            ..
        } = self;
        let (nodes, posts) = take_apart(alloc, members)?;
        let mut tokens = Vec::new(alloc);
        let nodes = take_nodes(rt, alloc, &geometry, nodes, seats, &mut tokens)?;
        let ends = take_ends(rt, alloc, posts)?;
        add_travelling(&mut tokens, close_lines(rt, alloc, ends)?)?;
        let segments = in_order(alloc, &geometry, tokens)?;
        Ok(Parts {
            geometry,
            nodes,
            segments,
        })
    }
}

// The nodes of these members, and the ends beside them.
fn take_apart<D: Area + Drop>(
    alloc: Global,
    members: Vec<Member<D>>,
) -> Result<(Vec<PeerNode<D>>, Vec<Post<Travelling<D>>>), AllocError>
    ensures nodes { IfOk result (λ apart. apart.0.items ≡ map node_in members.items) }
    ensures posts { IfOk result (λ apart. apart.1.items ≡ map post_of members.items) }
{
    let mut members = members;
    let mut nodes = Vec::with_capacity(alloc, members.len())?;
    let mut posts = Vec::with_capacity(alloc, members.len())?;
    for _ in 0..members.len() {
        let Member { node, to, from } = members.remove(0);
        nodes.push_reserved(node);
        posts.push_reserved(Post { to, from });
    }
    Ok((nodes, posts))
}

// The tokens that were on their way go after these.
fn add_travelling<D: Area + Drop>(
    tokens: &mut Vec<SegmentPart<D>>,
    journeys: Vec<Travelling<D>>,
) -> Result<(), AllocError>
    requires settled { All (IsSettledPart D.Area) tokens.old.items }
    ensures tokens { OnOk result (tokens.new.items ≡ tokens.old.items ++ map token_sent journeys.items) }
    ensures settled { OnOk result (All (IsSettledPart D.Area) tokens.new.items) }
{
    let mut journeys = journeys;
    tokens.reserve(journeys.len())?;
    for _ in 0..journeys.len() {
        let journey = journeys.remove(0);
        tokens.push_reserved(journey.into_part());
    }
    Ok(())
}
