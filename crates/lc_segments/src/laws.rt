//! Laws of transactions' works.
ghost use Rattle.std.specs.Prelude.{◌≡◌, ℕ, List, length, slice_index};
ghost use Rattle.lc_range.specs.RangeSet.{Has};
ghost use Rattle.lc_range.specs.declared.range.Range.{Range as Run};
ghost use Rattle.lc_tx.specs.declared.tx.Tx.{Tx as Kept};
ghost use Rattle.lc_tx.specs.Image.{laid_over};
ghost use Rattle.lc_tx.specs.Images.{IsSame, IsWritten};
ghost use Rattle.lc_tx.specs.Tx.{AreSet, Locked, RunsOn, SetsRange};
ghost use Rattle.lc_segments.specs.Laid.{of_segment, LieInside};
ghost use Rattle.lc_segments.specs.Works.{Works};

use lc_tx::Images;

/// Where what is not set has the bytes that it had, the bytes that a transaction's work left are those before with the
/// ranges of its record laid over them.
pub fn work_is_laid_over()
    ensures { (s : ℕ) (bytes : ℕ → List ℕ) (runs : List Run) (before : List ℕ) → length before ≡ length (bytes s)
        → LieInside s (length (bytes s)) runs
        → ((k : ℕ) → (Has runs s k → ⊥) → slice_index before k ≡ slice_index (bytes s) k)
        → laid_over (of_segment s bytes runs) before ≡ bytes s }
{}

/// What leaves the images and the transaction as they are is what a work may do, as a read, or a call that was refused.
pub fn works_nothing<I: Images>()
    ensures { (old new : I) (tx : Kept) → RunsOn I.Images old tx → IsSame I.Images old new
        → Works I.Images old tx new tx }
{}

/// A set range is what a work may do.
pub fn works_range<I: Images>()
    ensures { (old new : I) (tx next : Kept) (segment offset len : ℕ) → RunsOn I.Images old tx
        → SetsRange I.Images old tx segment offset len next → IsSame I.Images old new → Works I.Images old tx new next }
{}

/// Bytes that are written where all is set are what a work may do.
pub fn works_write<I: Images>()
    ensures { (old new : I) (tx : Kept) (segment offset : ℕ) (bytes : List ℕ) → RunsOn I.Images old tx
        → IsWritten I.Images old segment offset bytes new → AreSet tx segment offset (length bytes) → Locked tx segment
        → Works I.Images old tx new tx }
{}

/// What a work may do, and then what a work may do, is what a work may do.
pub fn works_then<I: Images>()
    ensures { (a b c : I) (s t u : Kept) → Works I.Images a s b t → Works I.Images b t c u → Works I.Images a s c u }
{}
