//! Laws of calls: what threads do to images without a lock, and to a store under one, is a run of the plain machine.
ghost use Rattle.std.specs.Prelude.{◌≡◌, ◌↔◌, ◌+◌, ◌<◌, ◌≤◌, ◌∷◌, ◌++◌, ℕ, List, [], All, Some, None, true, length};
ghost use Rattle.lc_record.specs.Marks.{marked, no_marks};
ghost use Rattle.lc_record.specs.Transaction.{Transaction, effect, locks};
ghost use Rattle.lc_record.specs.declared.geometry.Geometry.{Geometry};
ghost use Rattle.lc_record.specs.Geometry.{segment_len};
ghost use Rattle.lc_range.specs.RangeSet.{AddsPositions, IsCanonical, NeedsRunsAbove};
ghost use Rattle.lc_range.specs.declared.range.Range.{Range as Stretch};
ghost use Rattle.lc_model.specs.History.{value};
ghost use Rattle.lc_model.specs.Machine.{Run, Step, dropped};
ghost use Rattle.lc_model.specs.Refusals.{set_range_refusal, write_refusal};
ghost use Rattle.lc_model.specs.Sound.{Sound, IsProper};
ghost use Rattle.lc_model.specs.State.{State, Setting, running_of};
ghost use Rattle.lc_changes.specs.Calls.{AreRangesOf, Call, Called, EndsLike, Gives, IsLike, IsStopOrRecovery};
ghost use Rattle.lc_changes.specs.Calls.{IsWorking, OnlyHasSet, Workspace, Works, Steps, Aborts, Ends, Sets, Reads};
ghost use Rattle.lc_changes.specs.Calls.{accepting, answered, blocks_left, handing, in_blocks, left_done};
ghost use Rattle.lc_changes.specs.Calls.{nothing_done, shown};
ghost use Rattle.lc_changes.specs.Gathering.{LieInImages};
ghost use Rattle.lc_changes.specs.Images.{FitsImages, Images};
ghost use Rattle.lc_changes.specs.Setting.{AreSet};
ghost use Rattle.lc_model.specs.declared.event.Event.TheVariants.{Abort, Begin, Read, RecoverStep, Reserve, SetRange};
ghost use Rattle.lc_model.specs.declared.refusal.Refusal.TheVariants.{EmptyRange, NoRange, OutOfSegment, TooManyRanges};
ghost use Rattle.lc_model.specs.declared.reply.Reply.TheVariants.{Ok as Accepted, Recovered};

use lc_model::{Event, Reply};

/// `Changes` answers to a range and to a write just what the machine answers of a transaction. The transaction locked
/// the segment for writing, the set positions are its own, and the image has the segment's length.
pub fn changes_answer_as_rows()
    ensures empty { (g : Geometry) (t : Transaction) (segment offset len : ℕ) → locks t segment ≡ true
        → (set_range_refusal g t segment offset len ≡ Some EmptyRange) ↔ (len ≡ 0) }
    ensures outside { (g : Geometry) (t : Transaction) (segment offset len : ℕ) → locks t segment ≡ true
        → (set_range_refusal g t segment offset len ≡ Some (OutOfSegment None))
        ↔ ((0 < len) × (segment_len g < offset + len)) }
    ensures too_many { (g : Geometry) (t : Transaction) (set : List Stretch) (segment offset len : ℕ) → IsProper g t
        → AreRangesOf t.marks set → locks t segment ≡ true
        → (set_range_refusal g t segment offset len ≡ Some TooManyRanges)
        ↔ ((0 < len) × (offset + len ≤ segment_len g) × NeedsRunsAbove 64 set segment offset len) }
    ensures sets { (g : Geometry) (t : Transaction) (set later : List Stretch) (segment offset len : ℕ) → IsProper g t
        → AreRangesOf t.marks set → locks t segment ≡ true → offset + len ≤ segment_len g
        → AddsPositions set segment offset len later → AreRangesOf (marked t segment offset len).marks later }
    ensures write_outside { (g : Geometry) (t : Transaction) (segment offset : ℕ) (bytes : List ℕ)
        → locks t segment ≡ true → (write_refusal g t segment offset bytes ≡ Some (OutOfSegment None))
        ↔ (segment_len g < offset + length bytes) }
    ensures no_range { (g : Geometry) (t : Transaction) (set : List Stretch) (segment offset : ℕ) (bytes : List ℕ)
        → AreRangesOf t.marks set → locks t segment ≡ true
        → (write_refusal g t segment offset bytes ≡ Some NoRange)
        ↔ ((offset + length bytes ≤ segment_len g) × ¬ AreSet set segment offset (length bytes)) }
{}

/// The ranges that an end hands over, with the bytes that the images have there, make of the content what all work of
/// the transaction made of it. None of them is refused. An abort after them leaves nothing.
pub fn ends_are_their_work()
    ensures same { (m : Setting) (s handed : State) (node thread : ℕ) (images : Images) (ranges : List Stretch)
        (t done : Transaction) → Sound m.geometry s → running_of node thread s ≡ Some t → t.marks ≡ no_marks m.geometry
        → t.writes ≡ [] → OnlyHasSet t done → IsProper m.geometry done → AreRangesOf done.marks ranges
        → LieInImages images ranges
        → ((g : ℕ) → locks done g ≡ true → images g ≡ shown done (value m.start s.earlier s.history) g)
        → Run m s (handing node thread images ranges) (accepting ranges) handed
        → (v : Transaction) × (running_of node thread handed ≡ Some v) × (v.marks ≡ done.marks)
        × (effect v (value m.start s.earlier s.history) ≡ effect done (value m.start s.earlier s.history)) }
    ensures accepted { (m : Setting) (s : State) (node thread : ℕ) (images : Images) (set : List Stretch)
        (t done : Transaction) → Sound m.geometry s → IsWorking s → running_of node thread s ≡ Some t
        → t.marks ≡ no_marks m.geometry → OnlyHasSet t done → IsProper m.geometry done → IsCanonical set
        → AreRangesOf done.marks set → LieInImages images set
        → (handed : State) × Run m s (handing node thread images set) (accepting set) handed }
    ensures aborted { (m : Setting) (s handed new : State) (node thread : ℕ) (images : Images) (some : List Stretch)
        (t : Transaction) → running_of node thread s ≡ Some t
        → Run m s (handing node thread images some) (accepting some) handed
        → Step m handed (Abort node thread) Accepted new → new ≡ dropped s node thread }
{}

/// Two threads take turns. In the list of events each one's work stands just before its own end.
pub fn two_take_turns()
    ensures { (a b c d e : Reply) (ranges : List Stretch) → in_blocks nothing_done
        (Steps (Begin 0 0 (1 ∷ []) []) Accepted ∷ Steps (Begin 0 1 (2 ∷ []) []) Accepted ∷ Works 0 0 (Sets 1 0 4) a
        ∷ Works 0 1 (Sets 2 0 4) b ∷ Works 0 0 (Reads 1 0 4) c ∷ Ends 0 1 ranges d ∷ Works 0 0 (Reads 1 0 1) e
        ∷ Aborts 0 0 ∷ [])
        ≡ answered (Begin 0 0 (1 ∷ []) []) Accepted ∷ answered (Begin 0 1 (2 ∷ []) []) Accepted
        ∷ answered (SetRange 0 1 2 0 4) b ∷ answered (Reserve 0 1) d
        ∷ answered (SetRange 0 0 1 0 4) a ∷ answered (Read 0 0 1 0 4) c ∷ answered (Read 0 0 1 0 1) e
        ∷ answered (Abort 0 0) Accepted ∷ [] }
{}

/// Calls of any threads are a run of the plain machine. A transaction's work touches images alone, without a lock; what
/// it set comes to the store in one step, at its end. The machine gives the same answers to a list of events, in which
/// all work of a transaction stands in a block just before its `Reserve` or its `Abort`. The machine comes to the state
/// of the store, but for the writes by which transactions came to their bytes.
///
/// The work of transactions that are open stands in blocks at the end. Then each has set in the machine what its thread
/// has set, and the images have what the machine would answer to each read.
pub fn calls_are_a_run()
    ensures blocks { (m : Setting) (s other new : State) (work later : Workspace) (calls : List Call)
        → Sound m.geometry s → IsWorking s → s.running ≡ [] → FitsImages m s work.images work.olds → IsLike m s other
        → Called m s work calls new later
        → (last : State) × Gives m other (in_blocks nothing_done calls) last × IsLike m new last }
    ensures opened { (m : Setting) (s other new : State) (first last : Workspace) (calls : List Call)
        → Sound m.geometry s → IsWorking s → s.running ≡ [] → FitsImages m s first.images first.olds → IsLike m s other
        → Called m s first calls new last
        → (end : State)
        × Gives m other (in_blocks nothing_done calls ++ blocks_left (left_done nothing_done calls) new.running) end
        × EndsLike m new last end }
{}

/// States that are alike, but for what is open and for writes, stop and recover alike. So the law on calls holds of one
/// life after another.
pub fn alike_over_stops()
    ensures run { (m : Setting) (s other new : State) (events : List Event) (replies : List Reply) → Sound m.geometry s
        → Sound m.geometry other → IsLike m (record s { running = other.running }) other
        → All IsStopOrRecovery events → Run m s events replies new
        → (next : State) × Run m other events replies next × IsLike m (record new { running = next.running }) next }
    ensures recovered { (m : Setting) (s other new : State) → Sound m.geometry s → Sound m.geometry other
        → IsLike m (record s { running = other.running }) other → Step m s RecoverStep Recovered new
        → (next : State) × Step m other RecoverStep Recovered next × IsLike m new next }
{}
