//! Laws of parts: what is kept of a transaction is what its record says.
ghost use Rattle.std.specs.Prelude.{◌≡◌, ℕ, List, length, option_map};
ghost use Rattle.lc_record.specs.Part.{number_in, part_of};
ghost use Rattle.lc_range.specs.RangeSet.{EndWithin};
ghost use Rattle.lc_range.specs.declared.range.Range.{Range};
ghost use Rattle.lc_tx.specs.Images.{bytes_of};
ghost use Rattle.lc_tx.specs.Prepared.{runs_record};
ghost use Rattle.lc_tx.specs.Walk.{AreInside};
ghost use Rattle.lc_applied.specs.AppliedParts.{part_of_runs, runs_of};

use lc_tx::Images;

/// The part that the record of some runs has of a segment is the part that the runs have of it, under the number of the
/// record's lock. Where each run lies inside its segment, each of those of a segment lies within its bytes.
pub fn part_of_record<I: Images>()
    ensures part { (images : I) (runs : List Range) (node segment : ℕ)
        → part_of segment (runs_record I.Images images runs node)
        ≡ option_map (λ seq. part_of_runs segment seq runs (bytes_of I.Images images segment))
        (number_in segment (runs_record I.Images images runs node).locks) }
    ensures within { (images : I) (runs : List Range) (segment : ℕ) → AreInside I.Images images runs
        → EndWithin (runs_of segment runs) (length (bytes_of I.Images images segment)) }
{}
