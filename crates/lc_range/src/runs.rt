//! A set's runs, walked and changed in place.
ghost use Rattle.std.specs.Prelude.{◌≡◌, ◌+◌, ◌-◌, ◌^◌, ◌<◌, ◌≤◌, ◌↔◌, [], ◌∷◌, ◌++◌, IsTrue, true, false, length};
ghost use Rattle.std.specs.Prelude.{take, drop};
ghost use Rattle.std.specs.List.{AllWithin};
ghost use Rattle.std.specs.List.Sorted.{IsPartitionPoint};
ghost use Rattle.smallvec.specs.SmallVec.{small_vec_len};
ghost use Rattle.lc_range.specs.Touched.{IsTouched};
ghost use Rattle.lc_range.specs.RangeSet.{EndWithin, IsCanonical};
ghost use Rattle.lc_range.specs.Walk.{absorbed, is_before, merged, some_holds};

use crate::Range;
use crate::touched::Touched;
use smallvec::SmallVec;

// Whether all of these runs lie before a range. The last of them tells it.
fn are_before(runs: &[Range], range: &Range) -> bool
    requires { IsCanonical runs.now }
    ensures { IsTrue result ↔ AllWithin (λ run. is_before run range.now ≡ true) runs.now 0 (length runs.now) }
{
    match runs.last() {
        Some(last) => last.is_before(range),
        None => true,
    }
}

/// How many of these runs, from the first on, lie before a range. Nothing is searched where all do, or all but the
/// last, as where ranges come in ascending order.
pub fn count_before(runs: &[Range], range: &Range) -> usize
    requires { IsCanonical runs.now }
    ensures within { result ≤ length runs.now }
    ensures place { IsPartitionPoint (λ run. is_before run range.now ≡ true)
        (λ run. is_before run range.now ≡ false) runs.now result }
    ensures rest { take result runs.now ++ absorbed range.now (drop result runs.now) ≡ merged range.now runs.now }
{
    let Some((last, front)) = runs.split_last() else {
        return 0;
    };
    if last.is_before(range) {
        return runs.len();
    }
    if are_before(front, range) {
        return front.len();
    }
    let range = *range;
    runs.partition_point(
        |run: &Range| -> bool
            ensures { result ≡ is_before run.now range }
        { run.is_before(&range) },
    )
}

/// Which runs a range takes the place of, and joined to which run. This is the one search for the place of a range,
/// whatever is then done there.
pub fn touched(runs: &[Range], range: &Range) -> Touched
    requires canonical { IsCanonical runs.now }
    requires ends { EndWithin runs.now (2 ^ 32 - 1) }
    requires end { range.now.offset + range.now.len < 2 ^ 32 }
    ensures place { IsTouched runs.now result }
    ensures range { result.range ≡ range.now }
{
    let start = count_before(runs, range);
    let mut run = *range;
    let mut end = start;
    while end < runs.len() && !run.is_before(&runs[end]) {
        run = run.joined(&runs[end]);
        end += 1;
    }
    Touched {
        range: *range,
        start,
        end,
        run,
    }
}

/// Puts a run in the place of these, of which there is one at least.
pub fn replace(runs: &mut SmallVec<Range, 8>, start: usize, end: usize, run: Range)
    requires some { start < end }
    requires within { end ≤ small_vec_len runs.old }
    ensures items { runs.new.items ≡ take start runs.old.items ++ run ∷ drop end runs.old.items }
    ensures capacity { runs.new.capacity ≡ runs.old.capacity }
{
    let len = runs.len();
    runs[start] = run;
    runs.as_mut_slice().copy_within(end..len, start + 1);
    runs.truncate(len - (end - start - 1));
}

/// Removes all of these, and keeps their memory. The last is taken off first: for one alone this costs less than
/// `clear`.
pub fn remove_all(runs: &mut SmallVec<Range, 8>)
    ensures items { runs.new.items ≡ [] }
    ensures capacity { runs.new.capacity ≡ runs.old.capacity }
{
    if runs.pop().is_some() && !runs.is_empty() {
        runs.clear();
    }
}

/// Whether some run has each position of a range.
pub fn some_holds(runs: &[Range], range: &Range) -> bool
    requires { IsCanonical runs.now }
    ensures { result ≡ some_holds runs.now range.now }
{
    if let [only] = runs {
        return only.is_holding(range);
    }
    let place = count_before(runs, range);
    place < runs.len() && runs[place].is_holding(range)
}
