//! Laws of sets of positions and of old bytes.
ghost use Rattle.std.specs.Prelude.{◌≡◌, ◌↔◌, ℕ, List, unwrap_or};
ghost use Rattle.lc_range.specs.Undo.{kept};
ghost use Rattle.lc_range.specs.Steps.{State, AreSteps, start};
ghost use Rattle.lc_range.specs.RangeSet.{Has, IsCanonical};
ghost use Rattle.lc_range.specs.declared.range.Range.{Range};

/// A set of positions has one canonical list of runs.
pub fn one_canonical_list()
    ensures { (one other : List Range) → IsCanonical one → IsCanonical other
        → ((s k : ℕ) → Has one s k ↔ Has other s k) → one ≡ other }
{}

/// An abort gives back the old bytes: whatever a transaction has written in its set since `keep_old` and `add` of each
/// of its ranges, what is kept makes each position what it was in the beginning.
pub fn abort_restores()
    ensures { (before : ℕ → ℕ → ℕ) (ranges : List Range) (now : State) → AreSteps (start before) ranges now
        → (s k : ℕ) → unwrap_or (kept now.copies s k) (now.content s k) ≡ before s k }
{}
