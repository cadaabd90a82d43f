//! What is read of a node of a cluster at rest.
ghost use Rattle.std.specs.Prelude.{IfOk};
ghost use Rattle.lc_record.specs.declared.geometry.Geometry.{Geometry};
ghost use Rattle.lc_rest.specs.Parts.{KeepsLog};
ghost use Rattle.lc_reading.specs.ReadNodes.{IsReadNode};

use crate::node_images::NodeImages;
use crate::node_records::NodeRecords;
use lc_disk::Area;
use lc_journal::NodePiece;
use lc_record::Record;
use lc_rest::NodePart;
use std::alloc::{AllocError, Global};

/// What is read of a node of a cluster at rest. It has the piece of it that a store is made of, and its images of the
/// segments. It has its records too, in the order of its log, and how many of them are stable.
#[derive(Drop)]
pub struct ReadNode<D: Area> {
    pub(crate) piece: NodePiece<D>,
    pub(crate) records: Vec<Record>,
    pub(crate) count: usize,
    pub(crate) images: NodeImages,
}

impl<D: Area + Drop> ReadNode<D> {
    /// What is read of this part. It takes memory for the records, twice.
    pub fn read(alloc: Global, part: NodePart<D>) -> Result<ReadNode<D>, AllocError>
        ensures { IfOk result (λ node. (g : Geometry) → KeepsLog D.Area g part → IsReadNode D.Area g.words part node) }
    {
        let NodePart {
            log,
            round,
            ended,
            stable,
            staged,
            known,
            images,
            applied,
        } = part;
        let (stable, staged) = (stable.as_slice(), staged.as_slice());
        let NodeRecords {
            records,
            dropped,
            stable: count,
        } = NodeRecords::read(alloc, ended.as_slice(), stable, staged)?;
        let piece = NodePiece::new(alloc, log, round, known, dropped as u64, stable, staged)?;
        Ok(ReadNode {
            piece,
            records,
            count,
            images: NodeImages { images, applied },
        })
    }
}
