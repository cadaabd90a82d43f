//! A cluster at rest as it is read.
ghost use Rattle.std.specs.Prelude.{◌≡◌, ◌+◌, ◌*◌, ◌≤◌, Err, IfOk, List, vec_capacity, vec_len, ℕ};
ghost use Rattle.lc_core.specs.Made.{AreSegments};
ghost use Rattle.lc_rest.specs.Parts.{AreKept, FailsOnce};
ghost use Rattle.lc_reading.specs.Pictures.{AreImages};
ghost use Rattle.lc_core.specs.Pieces.{AreNodePieces};
ghost use Rattle.lc_reading.specs.ReadAreas.{AreWhole};
ghost use Rattle.lc_reading.specs.Readings.{FailsIn, PassesIn};
ghost use Rattle.lc_rest.specs.declared.adopt_fault.AdoptFault.TheVariants.{DeviceFault as Failed, Mismatch};
ghost use Rattle.lc_rest.specs.declared.cluster_part.ClusterPart.{ClusterPart as ThePart};

use crate::standing::standing;
use crate::up::Up;
use crate::world_room::WorldRoom;
use lc_disk::Area;
use lc_journal::NodePiece;
use lc_reading::{NodeImages, ReadNodes, ReadParts, ReadSegments, read_areas, read_pages};
use lc_rest::{AdoptFault, Parts};
use std::alloc::Global;

/// A cluster at rest as it is read: what its tests look at, with the images of its nodes, and what a store is made of.
/// Of the latter there are the pieces of its nodes, and the areas of its segments, in room for those of the logs too.
#[derive(Drop)]
pub(crate) struct ReadCluster<D: Area> {
    pub(crate) read: ReadParts,
    pub(crate) pieces: Vec<NodePiece<D>>,
    pub(crate) images: Vec<NodeImages>,
    pub(crate) areas: Vec<D>,
    ghost all_nodes: { vec_len pieces ≡ read.geometry.nodes },
    ghost fit: { AreNodePieces D.Area read.geometry.words pieces.items },
    ghost all_images: { AreImages read.geometry images.items },
    ghost all_segments: { vec_len areas ≡ read.geometry.segments },
    ghost lengths: { AreSegments D.Area (2 * 272 * read.geometry.pages) areas.items },
    ghost room: { read.geometry.nodes + read.geometry.segments ≤ vec_capacity areas },
}

impl<D: Area + Drop> ReadCluster<D> {
    ghost use Rattle.lc_core.specs.Cluster.{IsBuilt, IsReadCluster, knowns_of};

    /// What is read of these parts. It takes memory for their records, for what their areas hold, and for the bytes of
    /// their pages, and reads each page area once.
    ///
    /// # Errors
    ///
    /// `NoMemory`; `DeviceFault` where an area could not be read.
    pub(crate) fn read(alloc: Global, parts: Parts<D>) -> Result<ReadCluster<D>, AdoptFault>
        requires { AreKept D.Area parts }
        ensures read { IfOk result (λ cluster. IsReadCluster D.Area parts cluster) }
        ensures device { result ≡ Err Failed → FailsOnce D.Area parts }
        ensures agree { (part : ThePart) → result ≡ Err (Mismatch part) → ⊥ }
    {
        let Parts {
            geometry,
            nodes,
            segments,
        } = parts;
        let room = geometry.nodes as usize + geometry.segments as usize;
        let ReadNodes {
            pieces,
            logs,
            counts,
            images,
        } = ReadNodes::read(alloc, nodes)?;
        let ReadSegments {
            tokens,
            holders,
            mut areas,
        } = ReadSegments::read(alloc, segments, room)?;
        let held = read_areas(alloc, areas.as_mut_slice())?;
        let bytes = read_pages(alloc, &geometry, held.as_slice())?;
        let read = ReadParts {
            geometry,
            logs,
            counts,
            tokens,
            holders,
            areas: held,
            bytes,
        };
        Ok(ReadCluster {
            read,
            pieces,
            images,
            areas,
        })
    }

    /// The store that it makes, in this room, if all its parts agree. It takes memory.
    ///
    /// # Errors
    ///
    /// `Mismatch` with the part whose test fails first; `NoMemory`.
    pub(crate) fn build(self, alloc: Global, room: WorldRoom<D>) -> Result<Up<D>, AdoptFault>
        requires geometry { self.read.geometry ≡ room.geometry }
        requires whole { AreWhole self.read.logs.items }
        ensures built { IfOk result (λ up. (turns : List ℕ)
            × PassesIn self.read (knowns_of D.Area self.pieces.items) self.images.items turns
            × IsBuilt D.Area self turns up) }
        ensures mismatch { (part : ThePart) → result ≡ Err (Mismatch part)
            → FailsIn self.read (knowns_of D.Area self.pieces.items) self.images.items part }
        ensures device { result ≡ Err Failed → ⊥ }
    {
        let ReadCluster {
            read,
            pieces,
            images,
            areas,
        } = self;
        let contents = read.contents(alloc, pieces.as_slice(), images.as_slice())?;
        let ReadParts { tokens, .. } = read;
        let tokens = standing(alloc, tokens)?;
        Ok(room.adopt(alloc, pieces, &contents, tokens, areas))
    }
}
