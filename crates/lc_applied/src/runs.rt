//! Runs of a segment are kept, with their bytes.
ghost use Rattle.std.specs.Prelude.{◌≡◌, ◌+◌, ◌<◌, ◌≤◌, ◌++◌, ◌∷◌, [], drop, length, take, vec_len, vec_capacity};
ghost use Rattle.lc_range.specs.RangeSet.{EndWithin, total_len};
ghost use Rattle.lc_applied.specs.AppliedParts.{runs_of};
ghost use Rattle.lc_applied.specs.AppliedPart.{bytes_of};

use lc_range::Range;

/// Adds those of these runs that are of a segment, and the bytes that an image has in them, after what is kept, where
/// there is room for both. Answers how many runs these are.
pub(crate) fn add_runs(
    kept: &mut Vec<Range>,
    bytes: &mut Vec<u8>,
    segment: u32,
    runs: &[Range],
    image: &[u8],
) -> usize
    requires runs_room { vec_len kept.old + length (runs_of segment runs.now) ≤ vec_capacity kept.old }
    requires bytes_room { vec_len bytes.old + total_len (runs_of segment runs.now) ≤ vec_capacity bytes.old }
    requires within { EndWithin (runs_of segment runs.now) (length image.now) }
    ensures count { result ≡ length (runs_of segment runs.now) }
    ensures runs { kept.new.items ≡ kept.old.items ++ runs_of segment runs.now }
    ensures bytes { bytes.new.items ≡ bytes.old.items ++ bytes_of (runs_of segment runs.now) image.now }
    ensures runs_capacity { vec_capacity kept.new ≡ vec_capacity kept.old }
    ensures bytes_capacity { vec_capacity bytes.old ≤ vec_capacity bytes.new }
{
    let before = kept.len();
    for run in runs {
        if run.segment == segment {
            add_run(kept, bytes, *run, image);
        }
    }
    kept.len() - before
}

// Adds a run and the bytes that an image has in it.
fn add_run(kept: &mut Vec<Range>, bytes: &mut Vec<u8>, run: Range, image: &[u8])
    requires run_room { vec_len kept.old < vec_capacity kept.old }
    requires bytes_room { vec_len bytes.old + run.len ≤ vec_capacity bytes.old }
    requires within { run.offset + run.len ≤ length image.now }
    ensures runs { kept.new.items ≡ kept.old.items ++ run ∷ [] }
    ensures runs_len { vec_len kept.new ≡ vec_len kept.old + 1 }
    ensures bytes { bytes.new.items ≡ bytes.old.items ++ take run.len (drop run.offset image.now) }
    ensures bytes_len { vec_len bytes.new ≡ vec_len bytes.old + run.len }
    ensures runs_capacity { vec_capacity kept.new ≡ vec_capacity kept.old }
    ensures bytes_capacity { vec_capacity bytes.old ≤ vec_capacity bytes.new }
{
    let start = run.offset as usize;
    let end = start + run.len as usize;
    bytes.extend_from_slice(&image[start..end]).unwrap();
    kept.push_reserved(run);
}
