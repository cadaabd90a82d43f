//! All nodes of a store that is up.
ghost use Rattle.std.specs.Prelude.{◌≡◌, ◌≤◌, vec_len};
ghost use Rattle.lc_events.specs.Nodes.{AreNamed, AreWhole};

use crate::node_state::NodeState;
use lc_disk::Area;
use lc_record::Geometry;
use lc_token::Token;

/// The nodes of a store that is up, from node 0 on, and the tokens that are on their way, each at the place of its
/// segment.
#[derive(Drop)]
pub struct Running<D: Area> {
    pub geometry: Geometry,
    pub nodes: Vec<NodeState<D>>,
    pub travelling: Vec<Option<Token>>,
    ghost few: { geometry.nodes ≤ 8 },
    ghost all_nodes: { vec_len nodes ≡ geometry.nodes },
    ghost all_places: { vec_len travelling ≡ geometry.segments },
    ghost whole: { AreWhole D.Area geometry nodes.items },
    ghost named: { AreNamed travelling.items },
}
