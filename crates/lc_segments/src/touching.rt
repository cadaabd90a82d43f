//! The pages that the runs of a transaction touch.
ghost use Rattle.std.specs.Prelude.{◌≡◌, ◌≤◌, ◌^◌, ◌∷◌, [], length, map, Some, IsSome};
ghost use Rattle.std.specs.Option.{ForSome};
ghost use Rattle.lc_applied.specs.AppliedParts.{runs_of};
ghost use Rattle.lc_segments.specs.Touched.{range_at, touched_pages};

use lc_page::PAGE_BYTES;
use lc_range::Range;
use lc_token::TokenPlace;

/// Notes that each page on which one of the runs of a segment has a byte was changed under the number of the token,
/// which stands here. There are at most 2^32 of them, as many as a `u32` numbers. What reaches past the pages is left
/// out. It takes no memory.
pub(crate) fn touch_runs(place: &mut TokenPlace, segment: u32, runs: &[Range])
    requires here { IsSome place.old.token }
    requires few { ForSome place.old.token (λ t. length t.pages ≤ 2 ^ 32) }
    ensures { ForSome place.old.token (λ t. place.new ≡ record place.old {
      token = Some (record t { pages = touched_pages (map range_at (runs_of segment runs.now)) t.seq t.pages });
    }) }
{
    for run in runs {
        if run.segment != segment {
            continue;
        }
        touch_run(place, run);
    }
}

// Notes it of each page on which this run has a byte.
fn touch_run(place: &mut TokenPlace, run: &Range)
    requires here { IsSome place.old.token }
    requires few { ForSome place.old.token (λ t. length t.pages ≤ 2 ^ 32) }
    ensures { ForSome place.old.token (λ t. place.new ≡ record place.old {
      token = Some (record t { pages = touched_pages (range_at run.now ∷ []) t.seq t.pages });
    }) }
{
    if run.len == 0 {
        return;
    }
    let pages = place.token().unwrap().pages().len();
    let offset = run.offset as usize;
    let behind = (offset + run.len as usize).div_ceil(PAGE_BYTES).min(pages);
    for page in offset / PAGE_BYTES..behind {
        place.touch(page as u32);
    }
}
