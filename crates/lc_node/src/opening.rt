//! The nodes of a store at their beginning.
ghost use Rattle.std.specs.Prelude.{◌≡◌, ◌<◌, ◌≤◌, true, [], All, List, length, vec_capacity, vec_len, IfErr, IfOk};
ghost use Rattle.lc_record.specs.Geometry.{HasNumbers};
ghost use Rattle.lc_recover.specs.Reads.{HaveLengths};
ghost use Rattle.lc_recover.specs.Recovered.{AreFinished};
ghost use Rattle.lc_stage.specs.Staging.{newcomer};
ghost use Rattle.lc_stage.specs.Seats.{commit_view, IsSeatOf};
ghost use Rattle.lc_node.specs.FreshNode.{AreFreshNodes, ComesUpAlone, ComeUp, IsFreshNode};
ghost use Rattle.lc_node.specs.OpenedNode.{IsOpened, StandByNumber};
ghost use Rattle.lc_node.specs.declared.fresh_node.FreshNode.{FreshNode as Fresh};
ghost use Rattle.lc_segments.specs.declared.node_fault.NodeFault.TheVariants.{NoMemory};

use crate::coming_up::fresh_nodes;
use crate::fresh_node::FreshNode;
use crate::node::Node;
use lc_disk::Area;
use lc_record::Geometry;
use lc_recover::Recovered;
use lc_segments::NodeFault;
use lc_stage::CommitSeat;
use std::alloc::Global;

/// A node of a recovered store, and its first committer's seat.
#[derive(Drop)]
pub struct OpenedNode<D: Area + Drop> {
    pub node: Node<D>,
    pub seat: CommitSeat,
}

impl<D: Area + Drop> Node<D> {
    /// The one node of a recovered store, and the first committer's seat: the node of `fresh_nodes`, once it came up.
    /// All segments are here, and nothing is known clean yet. It has no peer, so each truncation forgets the records of
    /// the rounds that have ended. A store of several nodes comes up as one node too, on the log of the first, and is a
    /// store of one node then: the areas of the other logs, which a recovery leaves empty, are dropped. All memory is
    /// taken before the store is taken apart.
    ///
    /// # Errors
    ///
    /// `NoMemory`, which alone it may lack. The store comes back as it was.
    pub fn open(
        alloc: Global,
        recovered: Recovered<D>,
    ) -> Result<(Node<D>, CommitSeat), (Recovered<D>, NodeFault)>
        requires lengths { HaveLengths D.Area recovered.geometry recovered.areas }
        requires finished { AreFinished D.Area recovered }
        ensures seat { IfOk result (λ made. IsSeatOf made.0.stage made.1
            × (commit_view made.1 ≡ newcomer recovered.geometry.words)) }
        ensures number { IfOk result (λ made. made.0.number ≡ 0) }
        ensures room { IfOk result (λ made. made.0.stage.room ≡ recovered.geometry.words) }
        ensures segments { IfOk result (λ made. length made.0.segments.items ≡ recovered.geometry.segments) }
        ensures geometry { IfOk result (λ made.
            HasNumbers made.0.geometry 1 recovered.geometry.threads recovered.geometry.segments recovered.geometry.pages
            recovered.geometry.words) }
        ensures alone { IfOk result (λ made. made.0.is_alone ≡ true) }
        ensures comes_up { IfOk result (λ made. (fresh : Fresh D) × IsFreshNode recovered 1 0 fresh
            × ComesUpAlone fresh made.0 made.1) }
        ensures back { IfErr result (λ back. (back.0 ≡ recovered) × (back.1 ≡ NoMemory)) }
    {
        let mut nodes = fresh_nodes(alloc, recovered, 1)?;
        let fresh = nodes.remove(0);
        nodes.destroy_empty();
        let OpenedNode { mut node, seat } = fresh.come_up();
        node.geometry = with_one_node(node.geometry);
        node.is_alone = true;
        Ok((node, seat))
    }
}

// The same numbers, with one node.
fn with_one_node(geometry: Geometry) -> Geometry
    ensures { HasNumbers result 1 geometry.threads geometry.segments geometry.pages geometry.words }
{
    let Geometry {
        threads,
        segments,
        pages,
        words,
        ..
    } = geometry;
    Geometry::new(1, threads, segments, pages, words).unwrap()
}

/// The first nodes of a store, so many, which share its tokens: those of `fresh_nodes`, once each has come up. All
/// memory is taken before the store is taken apart.
///
/// # Errors
///
/// `NoMemory`, which alone it may lack. The store comes back as it was.
pub fn open_first<D: Area + Drop>(
    alloc: Global,
    recovered: Recovered<D>,
    nodes: u16,
) -> Result<Vec<OpenedNode<D>>, (Recovered<D>, NodeFault)>
    requires some { 0 < nodes }
    requires within { nodes ≤ recovered.geometry.nodes }
    requires few { nodes ≤ 8 }
    requires lengths { HaveLengths D.Area recovered.geometry recovered.areas }
    requires finished { AreFinished D.Area recovered }
    ensures count { IfOk result (λ made. length made.items ≡ nodes) }
    ensures each { IfOk result (λ made. All (IsOpened recovered) made.items) }
    ensures numbered { IfOk result (λ made. StandByNumber made.items) }
    ensures comes_up { IfOk result (λ made. (fresh : List (Fresh D)) × AreFreshNodes recovered nodes fresh
        × ComeUp fresh made.items) }
    ensures back { IfErr result (λ back. (back.0 ≡ recovered) × (back.1 ≡ NoMemory)) }
{
    let Ok(opened) = Vec::with_capacity(alloc, nodes as usize) else {
        return Err((recovered, NodeFault::NoMemory));
    };
    Ok(up_all(fresh_nodes(alloc, recovered, nodes)?, opened))
}

// These nodes, once each has come up, in the room that is there for them. It takes no memory.
fn up_all<D: Area + Drop>(
    fresh: Vec<FreshNode<D>>,
    opened: Vec<OpenedNode<D>>,
) -> Vec<OpenedNode<D>>
    requires empty { opened.items ≡ [] }
    requires space { vec_len fresh ≤ vec_capacity opened }
    ensures { ComeUp fresh.items result.items }
{
    let (mut fresh, mut opened) = (fresh, opened);
    for _ in 0..fresh.len() {
        opened.push_reserved(fresh.remove(0).come_up());
    }
    fresh.destroy_empty();
    opened
}
