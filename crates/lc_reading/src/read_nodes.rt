//! What is read of the nodes of a cluster at rest.
ghost use Rattle.std.specs.Prelude.{◌≡◌, ℕ, IfOk, Some, slice_get};
ghost use Rattle.lc_record.specs.declared.geometry.Geometry.{Geometry};
ghost use Rattle.lc_rest.specs.Parts.{KeepsLog};
ghost use Rattle.lc_reading.specs.ReadNodes.{AreReadNodes, HasOneMore};
ghost use Rattle.lc_rest.specs.declared.node_part.NodePart.{NodePart as ThePart};

use crate::node_images::NodeImages;
use crate::read_node::ReadNode;
use lc_disk::Area;
use lc_journal::NodePiece;
use lc_record::Record;
use lc_rest::NodePart;
use std::alloc::{AllocError, Global};

/// What is read of the nodes of a cluster at rest, from node 0 on. It has the pieces of them that a store is made of,
/// and their images. It has their records too, each node's in the order of its log, and how many of these are stable.
#[derive(Drop)]
pub struct ReadNodes<D: Area> {
    pub pieces: Vec<NodePiece<D>>,
    pub logs: Vec<Vec<Record>>,
    pub counts: Vec<usize>,
    pub images: Vec<NodeImages>,
}

impl<D: Area + Drop> ReadNodes<D> {
    /// What is read of these parts. It takes memory for the records, twice.
    pub fn read(alloc: Global, mut parts: Vec<NodePart<D>>) -> Result<ReadNodes<D>, AllocError>
        ensures { IfOk result (λ nodes. (g : Geometry)
            → ((n : ℕ) (part : ThePart D D.Area) → slice_get parts.items n ≡ Some part → KeepsLog D.Area g part)
            → AreReadNodes D.Area g.words parts.items nodes) }
    {
        let mut nodes = ReadNodes {
            pieces: Vec::new(alloc),
            logs: Vec::new(alloc),
            counts: Vec::new(alloc),
            images: Vec::new(alloc),
        };
        for _ in 0..parts.len() {
            let node = ReadNode::read(alloc, parts.remove(0))?;
            nodes.push(node)?;
        }
        Ok(nodes)
    }

    /// One node more. It takes memory for it.
    pub fn push(&mut self, node: ReadNode<D>) -> Result<(), AllocError>
        ensures { IfOk result (λ _. HasOneMore D.Area self.old self.new node) }
    {
        self.pieces.push(node.piece)?;
        self.logs.push(node.records)?;
        self.counts.push(node.count)?;
        self.images.push(node.images)?;
        Ok(())
    }
}
