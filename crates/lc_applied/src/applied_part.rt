//! What is kept of one part.
ghost use Rattle.std.specs.Prelude.{◌≡◌, ◌≤◌, drop, length, take};
ghost use Rattle.lc_range.specs.RangeSet.{total_len};
ghost use Rattle.lc_tx.specs.Image.{laid_over};
ghost use Rattle.lc_applied.specs.AppliedPart.{part_in, ranges_of, runs_used};

use lc_range::Range;
use lc_record::Part;
use lc_tx::Image;

/// A part of a record: as it was given; or the segment and number of one that was made here, and how many runs it has.
/// These are the first after those of the parts before it, and so are their bytes.
#[derive(Drop)]
pub(crate) enum AppliedPart {
    Given(Part),
    Own { segment: u32, seq: u64, runs: usize },
}

impl AppliedPart {
    /// Lays the bytes of its part over those of an image, where these are the runs and bytes that follow on the parts
    /// before it. Answers those that follow on it.
    pub(crate) fn lay_on<'a>(
        &self,
        runs: &'a [Range],
        bytes: &'a [u8],
        image: &mut Image,
    ) -> (&'a [Range], &'a [u8])
        requires runs { runs_used self.now ≤ length runs.now }
        requires bytes { total_len (take (runs_used self.now) runs.now) ≤ length bytes.now }
        ensures image { image.new.bytes.items
            ≡ laid_over (part_in self.now runs.now bytes.now).ranges image.old.bytes.items }
        ensures holders { image.new.holders ≡ image.old.holders }
        ensures runs { result.0.now ≡ drop (runs_used self.now) runs.now }
        ensures bytes { result.1.now ≡ drop (total_len (take (runs_used self.now) runs.now)) bytes.now }
    {
        match self {
            AppliedPart::Given(part) => {
                image.put(part);
                (runs, bytes)
            }
            AppliedPart::Own { runs: count, .. } => {
                let (own, later) = runs.split_at(*count);
                let rest = lay_runs(own, bytes, image);
                (later, rest)
            }
        }
    }
}

// Lays the first of these bytes over those of an image where these runs are, one after another. Answers the others.
fn lay_runs<'a>(runs: &[Range], bytes: &'a [u8], image: &mut Image) -> &'a [u8]
    requires { total_len runs.now ≤ length bytes.now }
    ensures image { image.new.bytes.items ≡ laid_over (ranges_of runs.now bytes.now) image.old.bytes.items }
    ensures holders { image.new.holders ≡ image.old.holders }
    ensures rest { result.now ≡ drop (total_len runs.now) bytes.now }
{
    let mut rest = bytes;
    for run in runs {
        let (own, later) = rest.split_at(run.len as usize);
        image.set(run.offset, own);
        rest = later;
    }
    rest
}
