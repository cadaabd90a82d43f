//! How a node is made: blank, of what a recovery has made of it, or of its piece.
ghost use Rattle.std.specs.Prelude.{IfOk, ℕ, ◌≡◌, length};
ghost use Rattle.lc_events.specs.Blank.{IsBlankNode};
ghost use Rattle.lc_desk.specs.Blank.{IsBlankDesk};
ghost use Rattle.lc_desk.specs.Pieces.{AreLeftAt, AreTokens};
ghost use Rattle.lc_events.specs.Pieces.{IsMadeNode};
ghost use Rattle.lc_journal.specs.Pieces.{IsNodePiece};

use crate::node_state::NodeState;
use lc_desk::{Desk, SegmentPieces};
use lc_disk::Area;
use lc_journal::{Journal, Log, NodePiece, Records};
use lc_record::{Geometry, Group};
use lc_recover::Recovered;
use lc_token::{KnownClean, Token};
use std::alloc::{AllocError, Global};

impl<D: Area + Drop> NodeState<D> {
    ghost use Rattle.lc_events.specs.Blank.{IsBlankNode, IsFilledNode};

    /// A node without its log. It takes memory for its desk and for a group of as many words as the log has.
    pub fn blank(alloc: Global, geometry: &Geometry, node: u16) -> Result<NodeState<D>, AllocError>
        ensures { IfOk result (IsBlankNode D.Area geometry.now node) }
    {
        let desk = Desk::blank(alloc, geometry, node)?;
        let journal = Journal {
            log: Log::Taken,
            group: Group::new(alloc, geometry.words)?,
            words: geometry.words,
            records: Records::new(alloc),
            dropped: 0,
            trimmed: 0,
            taken: 0,
            acked: 0,
            round: 0,
        };
        let known = KnownClean::new();
        Ok(NodeState {
            desk,
            journal,
            known,
        })
    }

    /// The slots of a node, where no thread does anything, get what the recovery has made of their segments, and the
    /// node sees how clean the tokens that stand there call them. It takes no memory.
    pub fn fill(&mut self, alloc: Global, recovered: &Recovered<D>)
        requires desk { IsBlankDesk recovered.now.geometry self.old.desk }
        ensures fresh { (node : ℕ) → IsBlankNode D.Area recovered.now.geometry node self.old
            → IsFilledNode D.Area recovered.now node self.new }
    {
        self.desk.fill(alloc, recovered);
        let segments = recovered.geometry().segments;
        for before in 0..segments {
            self.see(before + 1);
        }
    }

    /// A node, of which no thread does anything, gets its log and its records, and of each segment what it has here. It
    /// takes no memory.
    pub fn adopt(
        &mut self,
        alloc: Global,
        number: u16,
        piece: NodePiece<D>,
        segments: &SegmentPieces,
        tokens: &mut [Option<Token>],
    )
        requires desk { IsBlankDesk segments.now.geometry self.old.desk }
        requires room { self.old.journal.group.room ≡ segments.now.geometry.words }
        requires piece { IsNodePiece D.Area segments.now.geometry.words piece }
        requires all_tokens { length tokens.old ≡ segments.now.geometry.segments }
        requires tokens { AreTokens segments.now.geometry tokens.old }
        ensures made { IsMadeNode D.Area segments.now.geometry number segments.now.pieces.items tokens.old piece
            self.new }
        ensures left { AreLeftAt number segments.now.pieces.items tokens.old tokens.new }
    {
        self.desk.adopt(alloc, number, segments, tokens);
        let known = self.journal.adopt(piece);
        self.known = known;
    }
}
