//! Laws of heaps.
ghost use Rattle.std.specs.Prelude.{◌≡◌, ◌+◌, ◌*◌, ◌^◌, ◌<◌, ◌++◌, ℕ, List, length, replicate};
ghost use Rattle.lc_heap.specs.Calls.{Allocates, Frees, changed, left_by};
ghost use Rattle.lc_heap.specs.Heap.{AreApart, IsFree, IsHeapOf, Use};
ghost use Rattle.lc_heap.specs.declared.allocation.Allocation.{Allocation};
ghost use Rattle.lc_heap.specs.declared.allocation.Change.{Change};

/// The blocks in use of a heap are those of its bytes, and lie apart and within them.
pub fn one_heap()
    ensures same { (bytes : List ℕ) (uses others : List Use) → IsHeapOf bytes uses → IsHeapOf bytes others
        → uses ≡ others }
    ensures apart { (bytes : List ℕ) (uses : List Use) → IsHeapOf bytes uses → AreApart 8 uses (length bytes) }
{}

/// What was allocated can be freed, and the blocks in use are then as before.
pub fn freed_again()
    ensures { (bytes : List ℕ) (len : ℕ) (given : Allocation) (change : Change) (uses : List Use)
        → Allocates bytes len given → Frees (left_by given bytes) given.offset change → IsHeapOf bytes uses
        → IsHeapOf (changed change (left_by given bytes)) uses }
{}

/// A heap whose segment grew by zeros, in whole words, is a heap with the same blocks in use, and what is new is free.
pub fn grown()
    ensures heap { (bytes : List ℕ) (words : ℕ) (uses : List Use) → IsHeapOf bytes uses
        → length bytes + 8 * words < 2 ^ 32 → IsHeapOf (bytes ++ replicate (8 * words) 0) uses }
    ensures room { (bytes : List ℕ) (words : ℕ)
        → IsFree (bytes ++ replicate (8 * words) 0) (length bytes) (length bytes + 8 * words) }
{}
