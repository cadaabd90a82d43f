//! How the nodes of a store are made of their pieces.
ghost use Rattle.std.specs.Prelude.{◌≡◌, ◌≤◌, length, vec_len};
ghost use Rattle.lc_core.specs.Blank.{AreBlankNodes};
ghost use Rattle.lc_core.specs.Pieces.{AreLeftBy, AreMadeNodes, AreNodePieces};
ghost use Rattle.lc_desk.specs.Pieces.{AreTokens};

use lc_desk::SegmentPieces;
use lc_disk::Area;
use lc_events::NodeState;
use lc_journal::NodePiece;
use lc_token::Token;
use std::alloc::Global;

/// The nodes, from node 0 on, get their pieces, and the tokens that are at them. It takes no memory.
pub(crate) fn adopt_nodes<D: Area + Drop>(
    nodes: &mut [NodeState<D>],
    alloc: Global,
    mut pieces: Vec<NodePiece<D>>,
    segments: &SegmentPieces,
    tokens: &mut [Option<Token>],
)
    requires few { length nodes.old ≤ 8 }
    requires count { vec_len pieces ≡ length nodes.old }
    requires blank { AreBlankNodes D.Area segments.now.geometry nodes.old }
    requires pieces { AreNodePieces D.Area segments.now.geometry.words pieces.items }
    requires all_tokens { length tokens.old ≡ segments.now.geometry.segments }
    requires tokens { AreTokens segments.now.geometry tokens.old }
    ensures made { AreMadeNodes D.Area segments.now.geometry segments.now.pieces.items tokens.old pieces.items
        nodes.new }
    ensures left { AreLeftBy (length nodes.old) segments.now.pieces.items tokens.old tokens.new }
{
    for (number, node) in nodes.iter_mut().enumerate() {
        let piece = pieces.remove(0);
        node.adopt(alloc, number as u16, piece, segments, tokens);
    }
}
