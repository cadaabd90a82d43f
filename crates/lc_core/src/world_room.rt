//! The memory of a store that comes up.
ghost use Rattle.std.specs.Prelude.{◌≡◌, ◌+◌, ◌*◌, ◌≤◌, ℕ, true, [], None, Some, length, drop, map};
ghost use Rattle.std.specs.Prelude.{replicate, vec_capacity, vec_len, slice_get, IfOk};
ghost use Rattle.std.specs.Global.{Vec as TheVec};
ghost use Rattle.lc_recover.specs.Reads.{AreOfBytes, HaveLengths};
ghost use Rattle.lc_recover.specs.Recovered.{AreFinished};
ghost use Rattle.lc_rest.specs.Found.{Found};
ghost use Rattle.lc_core.specs.Adopting.{IsAdoptedUp};
ghost use Rattle.lc_core.specs.Blank.{AreBlankNodes, AreFilledNodes};
ghost use Rattle.lc_core.specs.Fresh.{IsFresh};
ghost use Rattle.lc_journal.specs.Log.{Stands, area_of, is_idle};
ghost use Rattle.lc_core.specs.PageState.{AreAtRest};
ghost use Rattle.lc_desk.specs.PageState.{AreNamed};
ghost use Rattle.lc_core.specs.Pages.{RestsAll, areas_of};
ghost use Rattle.lc_core.specs.Made.{AreFound, AreSegments, IsMadeUp};
ghost use Rattle.lc_core.specs.Pieces.{AreNodePieces};
ghost use Rattle.lc_desk.specs.Pieces.{AreTokens};
ghost use Rattle.lc_events.specs.declared.node_state.NodeState.{NodeState};
ghost use Rattle.lc_desk.specs.declared.page_state.PageState.{PageState as TheState};
ghost use Rattle.lc_desk.specs.declared.pages.Pages.{Pages as ThePages};

use crate::adopting::adopt_nodes;
use crate::up::Up;
use lc_desk::{PageState, Pages, SegmentPieces};
use lc_disk::Area;
use lc_events::{NodeState, Running};
use lc_journal::NodePiece;
use lc_record::Geometry;
use lc_recover::Recovered;
use lc_token::Token;
use std::alloc::{AllocError, Global};

/// The memory of a store that comes up, taken before its pages are known.
#[derive(Drop)]
pub(crate) struct WorldRoom<D: Area> {
    pub(crate) geometry: Geometry,
    nodes: Vec<NodeState<D>>,
    travelling: Vec<Option<Token>>,
    writes: Vec<Vec<PageState>>,
    segments: Vec<Pages<D>>,
    ghost count: { vec_len nodes ≡ geometry.nodes },
    ghost blank: { AreBlankNodes D.Area geometry nodes.items },
    ghost none: { travelling.items ≡ replicate geometry.segments None },
    ghost all_segments: { vec_len writes ≡ geometry.segments },
    ghost rest: { AreAtRest geometry writes.items },
    ghost no_segment: { segments.items ≡ [] },
    ghost place: { geometry.segments ≤ vec_capacity segments },
}

impl<D: Area + Drop> WorldRoom<D> {
    /// That of this geometry. It takes memory for each segment and each thread of each node, for a group of each node,
    /// for the tokens that travel, and for each page that may be written.
    pub(crate) fn new(alloc: Global, geometry: Geometry) -> Result<WorldRoom<D>, AllocError>
        ensures geometry { IfOk result (λ room. room.geometry ≡ geometry) }
    {
        let nodes = blank_nodes(alloc, &geometry)?;
        let mut travelling = Vec::with_capacity(alloc, geometry.segments as usize)?;
        for _ in 0..geometry.segments {
            travelling.push(None)?;
        }
        let writes = resting_pages(alloc, &geometry)?;
        let segments = Vec::with_capacity(alloc, geometry.segments as usize)?;
        Ok(WorldRoom {
            geometry,
            nodes,
            travelling,
            writes,
            segments,
        })
    }

    /// The store that a recovery has made, on areas with empty logs, and the areas of its segments, of which no page is
    /// being written. It takes no memory.
    pub(crate) fn furnish(self, alloc: Global, recovered: Recovered<D>) -> Up<D>
        requires geometry { recovered.geometry ≡ self.geometry }
        requires lengths { HaveLengths D.Area recovered.geometry recovered.areas }
        requires each { AreFinished D.Area recovered }
        ensures fresh { IsFresh D.Area recovered result.running }
        ensures geometry { result.running.geometry ≡ recovered.geometry }
        ensures log_areas { (n : ℕ) (node : NodeState D D.Area) → slice_get result.running.nodes.items n ≡ Some node
            → area_of D.Area node.journal.log ≡ slice_get recovered.areas n }
        ensures bytes { AreOfBytes D.Area recovered.areas }
        ensures areas { areas_of D.Area result.segments.items ≡ drop recovered.geometry.nodes recovered.areas }
        ensures rest { RestsAll D.Area recovered.geometry result.segments.items }
    {
        let WorldRoom {
            geometry,
            mut nodes,
            travelling,
            writes,
            segments,
        } = self;
        fill_nodes(nodes.as_mut_slice(), alloc, &recovered);
        let areas = open_logs(nodes.as_mut_slice(), recovered);
        let (segments, spare) = with_areas(segments, writes, areas);
        let running = Running {
            geometry,
            nodes,
            travelling,
        };
        Up {
            running,
            segments,
            spare,
        }
    }

    /// The store that these pieces make: each node with its log and its records, and with the tokens that are at it;
    /// the other tokens are on their way. There is an area for each segment, in room for those of the logs too, and of
    /// no segment is a page being written. It takes no memory.
    pub(crate) fn adopt(
        self,
        alloc: Global,
        pieces: Vec<NodePiece<D>>,
        contents: &SegmentPieces,
        mut tokens: Vec<Option<Token>>,
        areas: Vec<D>,
    ) -> Up<D>
        requires geometry { contents.now.geometry ≡ self.geometry }
        requires all_nodes { vec_len pieces ≡ self.geometry.nodes }
        requires pieces { AreNodePieces D.Area self.geometry.words pieces.items }
        requires all_tokens { vec_len tokens ≡ self.geometry.segments }
        requires tokens { AreTokens self.geometry tokens.items }
        requires all_segments { vec_len areas ≡ self.geometry.segments }
        requires lengths { AreSegments D.Area (2 * 272 * self.geometry.pages) areas.items }
        requires room { self.geometry.nodes + self.geometry.segments ≤ vec_capacity areas }
        ensures made { IsMadeUp D.Area self.geometry contents.now.pieces.items tokens.items pieces.items areas.items
            result }
        ensures adopted { (f : Found) → AreFound D.Area f contents.now tokens.items pieces.items areas.items
            → IsAdoptedUp D.Area f result }
    {
        let WorldRoom {
            geometry,
            mut nodes,
            travelling: _,
            writes,
            segments,
        } = self;
        adopt_nodes(
            nodes.as_mut_slice(),
            alloc,
            pieces,
            contents,
            tokens.as_mut_slice(),
        );
        let (segments, spare) = with_areas(segments, writes, areas);
        let running = Running {
            geometry,
            nodes,
            travelling: tokens,
        };
        Up {
            running,
            segments,
            spare,
        }
    }
}

// All nodes, without their logs.
fn blank_nodes<D: Area + Drop>(
    alloc: Global,
    geometry: &Geometry,
) -> Result<Vec<NodeState<D>>, AllocError>
    ensures count { IfOk result (λ nodes. vec_len nodes ≡ geometry.now.nodes) }
    ensures blank { IfOk result (λ nodes. AreBlankNodes D.Area geometry.now nodes.items) }
{
    let mut nodes = Vec::with_capacity(alloc, geometry.nodes as usize)?;
    for number in 0..geometry.nodes {
        let node = NodeState::blank(alloc, geometry, number)?;
        nodes.push(node)?;
    }
    Ok(nodes)
}

// The states of all pages of all segments, which are at rest.
fn resting_pages(alloc: Global, geometry: &Geometry) -> Result<Vec<Vec<PageState>>, AllocError>
    ensures count { IfOk result (λ segments. vec_len segments ≡ geometry.now.segments) }
    ensures rest { IfOk result (λ segments. AreAtRest geometry.now segments.items) }
{
    let mut segments = Vec::with_capacity(alloc, geometry.segments as usize)?;
    for _ in 0..geometry.segments {
        let mut writes = Vec::with_capacity(alloc, geometry.pages as usize)?;
        for _ in 0..geometry.pages {
            writes.push(PageState::AtRest)?;
        }
        segments.push(writes)?;
    }
    Ok(segments)
}

// The slots of all nodes get what the recovery has made of their segments.
fn fill_nodes<D: Area + Drop>(nodes: &mut [NodeState<D>], alloc: Global, recovered: &Recovered<D>)
    requires { AreBlankNodes D.Area recovered.now.geometry nodes.old }
    ensures { AreFilledNodes D.Area recovered.now nodes.new }
{
    for node in nodes.iter_mut() {
        node.fill(alloc, recovered);
    }
}

// The nodes get the areas of their logs; those of the segments are left.
fn open_logs<D: Area + Drop>(nodes: &mut [NodeState<D>], recovered: Recovered<D>) -> Vec<D>
    requires count { length nodes.old ≡ recovered.geometry.nodes }
    requires filled { AreFilledNodes D.Area recovered nodes.old }
    requires lengths { HaveLengths D.Area recovered.geometry recovered.areas }
    ensures filled { AreFilledNodes D.Area recovered nodes.new }
    ensures log_areas { (n : ℕ) (node : NodeState D D.Area) → slice_get nodes.new n ≡ Some node
        → area_of D.Area node.journal.log ≡ slice_get recovered.areas n }
    ensures logs { AreFinished D.Area recovered → (n : ℕ) (node : NodeState D D.Area) →
        slice_get nodes.new n ≡ Some node →
        Stands D.Area node.journal.log 0 [] [] × (is_idle D.Area node.journal.log ≡ true) }
    ensures bytes { AreOfBytes D.Area recovered.areas }
    ensures areas { result.items ≡ drop recovered.geometry.nodes recovered.areas }
    ensures room { length recovered.areas ≤ vec_capacity result }
{
    let mut areas = recovered.areas();
    for node in nodes.iter_mut() {
        let area = areas.remove(0);
        node.journal.open(area);
    }
    areas
}

// Each area of a segment goes with the states of its pages. The room that they had is left.
fn with_areas<D: Area + Drop>(
    mut segments: Vec<Pages<D>>,
    mut writes: Vec<Vec<PageState>>,
    mut areas: Vec<D>,
) -> (Vec<Pages<D>>, Vec<D>)
    requires empty { segments.items ≡ [] }
    requires place { vec_len areas ≤ vec_capacity segments }
    requires count { vec_len writes ≡ vec_len areas }
    requires long { (k : ℕ) (area : D) (states : TheVec TheState) → slice_get areas.items k ≡ Some area
        → slice_get writes.items k ≡ Some states
        → 2 * 272 * vec_len states ≤ length (D.now area) }
    requires named { (k : ℕ) (states : TheVec TheState) → slice_get writes.items k ≡ Some states
        → AreNamed states.items }
    ensures areas { areas_of D.Area result.0.items ≡ areas.items }
    ensures writes { map (λ (pages : ThePages D D.Area). pages.writes) result.0.items ≡ writes.items }
    ensures none { result.1.items ≡ [] }
    ensures room { vec_capacity result.1 ≡ vec_capacity areas }
{
    for _ in 0..areas.len() {
        let area = areas.remove(0);
        let writes = writes.remove(0);
        segments.push_reserved(Pages::new(area, writes));
    }
    (segments, areas)
}
