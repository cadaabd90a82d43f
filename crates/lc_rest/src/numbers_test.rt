//! The test of the numbers that records have of a segment.
ghost use Rattle.std.specs.Prelude.{◌≡◌, ◌↔◌, ◌+◌, ◌-◌, ◌^◌, ◌<◌, ◌≤◌, ◌∷◌, ◌++◌, [], Bool, IfOk, IsTrue, List, false};
ghost use Rattle.std.specs.Prelude.{length, slice_index_or, slice_set, true};
ghost use Rattle.std.specs.List.{list_all};
ghost use Rattle.lc_record.specs.declared.record.Record.{Record as TheRecord};
ghost use Rattle.lc_rest.specs.NumbersTest.{AreMarked, AreNumbered, joined_logs};

use crate::token_test::number_in;
use lc_record::Record;
use std::alloc::{AllocError, Global};

// Marks the place, and says whether there is such a place that was not marked.
fn mark_place(marks: &mut [bool], place: usize) -> bool
    ensures marked { IsTrue result → (place < length marks.old)
        × ((d : Bool) → slice_index_or marks.old place d ≡ false) × (marks.new ≡ slice_set marks.old place true) }
    ensures refused { result ≡ false → place < length marks.old → (d : Bool) → slice_index_or marks.old place d ≡ true }
{
    if place >= marks.len() || marks[place] {
        return false;
    }
    marks[place] = true;
    true
}

// Marks the record's number of the segment, and says whether it has none, or one in its range that was not marked.
fn mark(segment: u32, first: u64, marks: &mut [bool], whole: &Record) -> bool
    ensures marked { IsTrue result → (rs : List TheRecord) → AreMarked segment first rs marks.old
        → AreMarked segment first (rs ++ whole.now ∷ []) marks.new }
    ensures refused { result ≡ false → (rs behind : List TheRecord) → AreMarked segment first rs marks.old
        → AreNumbered segment first (first + length marks.old) (rs ++ whole.now ∷ behind) → ⊥ }
{
    let Some(number) = number_in(segment, whole) else {
        return true;
    };
    number > first && mark_place(marks, (number - first - 1) as usize)
}

// Marks the numbers of a log's records, and says whether each was so.
fn mark_log(segment: u32, first: u64, marks: &mut [bool], log: &[Record]) -> bool
    ensures marked { IsTrue result → (rs : List TheRecord) → AreMarked segment first rs marks.old
        → AreMarked segment first (rs ++ log.now) marks.new }
    ensures refused { result ≡ false → (rs behind : List TheRecord) → AreMarked segment first rs marks.old
        → AreNumbered segment first (first + length marks.old) (rs ++ (log.now ++ behind)) → ⊥ }
{
    for whole in log {
        if !mark(segment, first, marks, whole) {
            return false;
        }
    }
    true
}

// Marks the numbers of the records of all logs, and says whether each was so.
fn mark_logs(segment: u32, first: u64, marks: &mut [bool], logs: &[Vec<Record>]) -> bool
    ensures marked { IsTrue result → AreMarked segment first [] marks.old
        → AreMarked segment first (joined_logs logs.now) marks.new }
    ensures refused { result ≡ false → AreMarked segment first [] marks.old
        → AreNumbered segment first (first + length marks.old) (joined_logs logs.now) → ⊥ }
{
    for log in logs {
        if !mark_log(segment, first, marks, log.as_slice()) {
            return false;
        }
    }
    true
}

// Whether all are marked.
fn are_marked(marks: &[bool]) -> bool
    ensures { result ≡ list_all (λ mark. mark) marks.now }
{
    marks.iter().all(|mark| *mark)
}

// Marks the numbers of the records of all logs, and says whether each number is marked, and none twice.
fn marks_all(segment: u32, first: u64, marks: &mut [bool], logs: &[Vec<Record>]) -> bool
    ensures { AreMarked segment first [] marks.old
        → (IsTrue result ↔ AreNumbered segment first (first + length marks.old) (joined_logs logs.now)) }
{
    mark_logs(segment, first, marks, logs) && are_marked(marks)
}

/// Whether the records of all logs have the segment's numbers above `first` up to `last`, each once. It takes memory
/// for a mark of each of these numbers. This project's own.
pub fn keeps_numbers(
    alloc: Global,
    segment: u32,
    first: u64,
    last: u64,
    logs: &[Vec<Record>],
) -> Result<bool, AllocError>
    requires { first ≤ last }
    ensures { IfOk result (λ once. IsTrue once ↔ AreNumbered segment first last (joined_logs logs.now)) }
{
    let mut marks = Vec::from_elem(alloc, false, (last - first) as usize)?;
    Ok(marks_all(segment, first, marks.as_mut_slice(), logs))
}
