//! The law of the store that the parts of a cluster at rest make.
ghost use Rattle.std.specs.Prelude.{◌≡◌, List, Option};
ghost use Rattle.lc_rest.specs.Found.{Found};
ghost use Rattle.lc_rest.specs.Passed.{Read};
ghost use Rattle.lc_token.specs.declared.token.Token.{Token as TheToken};
ghost use Rattle.lc_core.specs.Adopting.{IsAdoptedUp};
ghost use Rattle.lc_rest.specs.AtRest.{AreReadAreas, IsReadOf, PassesAll};
ghost use Rattle.lc_core.specs.Built.{IsBuiltOf};
ghost use Rattle.lc_core.specs.Made.{AreFound};
ghost use Rattle.lc_rest.specs.Parts.{AreHonest, AreKept};
ghost use Rattle.lc_core.specs.Adoption.{IsAdoption};
ghost use Rattle.lc_journal.specs.declared.node_piece.NodePiece.{NodePiece};
ghost use Rattle.lc_rest.specs.declared.parts.Parts.{Parts};
ghost use Rattle.lc_core.specs.declared.world_phase.WorldPhase.TheVariants.{Up};
ghost use Rattle.lc_desk.specs.declared.segment_pieces.SegmentPieces.{SegmentPieces};
ghost use Rattle.lc_core.specs.declared.up.Up.{Up as UpStore};
ghost use Rattle.lc_core.specs.declared.world.World.{World as Store};

use lc_disk::Area;

/// A store that is built of the parts of a cluster at rest, which agree, fits a state of the machine with nothing open
/// that has what was handed over.
pub(crate) fn adopted_parts<D: Area>()
    ensures { (parts : Parts D D.Area) (h : Read) (segments : SegmentPieces) (tokens : List (Option TheToken))
        (pieces : List (NodePiece D D.Area)) (areas : List D)
        (up : UpStore D D.Area) (world : Store D D.Area) → AreKept D.Area parts → IsReadOf D.Area parts h
        → PassesAll D.Area parts h →
        (AreHonest D.Area parts → AreReadAreas D.Area parts h) → IsBuiltOf D.Area parts h segments tokens pieces areas
        → ((f : Found) → AreFound D.Area f segments tokens pieces areas → IsAdoptedUp D.Area f up) → world.phase ≡ Up up
        → IsAdoption D.Area parts world }
{}
