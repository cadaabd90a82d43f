//! Laws of images: of what is gathered of them and put, and of what the plain machine answers beside them.
ghost use Rattle.std.specs.Prelude.{◌≡◌, ◌<◌, ℕ, List, All, IsTrue, Some, true, false, length, slice_index, take, drop};
ghost use Rattle.lc_record.specs.Content.{segment_of};
ghost use Rattle.lc_record.specs.Marks.{marked};
ghost use Rattle.lc_record.specs.Record.{Chain};
ghost use Rattle.lc_record.specs.Transaction.{Transaction, holds, is_member, locks};
ghost use Rattle.lc_range.specs.RangeSet.{Has, IsCanonical};
ghost use Rattle.lc_range.specs.declared.range.Range.{Range as Run};
ghost use Rattle.lc_model.specs.History.{value};
ghost use Rattle.lc_model.specs.Machine.{Run as Runs, Step, seen};
ghost use Rattle.lc_model.specs.Sound.{Sound};
ghost use Rattle.lc_model.specs.State.{State, Setting, Up, running_of};
ghost use Rattle.lc_changes.specs.Gathering.{gathered, puts_at, values_of, LieInImages};
ghost use Rattle.lc_changes.specs.Held.{IsOfOthers, SeesSame, Writes};
ghost use Rattle.lc_changes.specs.Images.{Does, FitsImages, Images, IsNoStop, RunsWith};
ghost use Rattle.lc_model.specs.declared.event.Event.TheVariants.{Abort, Begin, Read, Reserve, SetRange, Write};
ghost use Rattle.lc_model.specs.declared.reply.Reply.TheVariants.{Bytes, Ok as Accepted, Reserved};

use lc_model::{Event, Reply};

/// What is gathered of the images of segments, ascending, with each that has a range among them, is the bytes of all
/// ranges, in their order.
pub fn gathered_in_order()
    ensures { (images : ℕ → List ℕ) (segments : List ℕ) (set : List Run) → IsCanonical set
        → Chain (λ a b. a < b) segments → ((s k : ℕ) → Has set s k → IsTrue (is_member s segments))
        → gathered images segments set ≡ values_of images set }
{}

/// Where the bytes of images at ranges are put, in turn, over bytes that are those of an image outside of its ranges,
/// they are those of the image.
pub fn puts_give_images()
    ensures { (images : ℕ → List ℕ) (set : List Run) (s : ℕ) (before : List ℕ) → LieInImages images set
        → length before ≡ length (images s)
        → ((k : ℕ) → ¬ Has set s k → slice_index before k ≡ slice_index (images s) k)
        → puts_at s set (values_of images set) before ≡ images s }
{}

/// A transaction stays open as it is, whatever events of other threads come between, and whatever they are answered.
/// So do the bytes that it would read of a segment which it holds, for writing or for reading. So a copy of the segment
/// that is taken when it begins, with its own writes on top, has what the machine answers to each read.
pub fn held_alone()
    ensures step { (m : Setting) (s new : State) (event : Event) (reply : Reply) (node thread segment : ℕ)
        (t : Transaction) → Sound m.geometry s → s.phase ≡ Up → Step m s event reply new
        → IsOfOthers node thread event → running_of node thread s ≡ Some t → IsTrue (holds t segment)
        → SeesSame m s node thread segment t new }
    ensures run { (m : Setting) (s new : State) (events : List Event) (replies : List Reply)
        (node thread segment : ℕ) (t : Transaction) → Sound m.geometry s → s.phase ≡ Up
        → Runs m s events replies new → All (IsOfOthers node thread) events → running_of node thread s ≡ Some t
        → IsTrue (holds t segment) → SeesSame m s node thread segment t new }

    // Its own writes are over what it saw, and its reads give what it sees.
    ensures own { (m : Setting) (s new : State) (node thread segment offset : ℕ) (bytes : List ℕ) (t : Transaction)
        → running_of node thread s ≡ Some t → Step m s (Write node thread segment offset bytes) Accepted new
        → Writes m s node thread segment offset bytes t new }
    ensures read { (m : Setting) (s new : State) (node thread segment offset len : ℕ) (bytes : List ℕ)
        (t : Transaction) → running_of node thread s ≡ Some t
        → Step m s (Read node thread segment offset len) (Bytes bytes) new
        → bytes ≡ take len (drop offset (segment_of segment (seen m.start s t))) }

    // No other begins that holds a segment which it may write.
    ensures apart { (m : Setting) (s new : State) (node thread n k segment : ℕ) (segments reading : List ℕ)
        (t u : Transaction) → Sound m.geometry s → running_of node thread s ≡ Some t → locks t segment ≡ true
        → Step m s (Begin n k segments reading) Accepted new → running_of n k new ≡ Some u → holds u segment ≡ false }

    // It begins with the value of the history, and a range that it sets changes nothing. Once it is reserved the value
    // of the history is what it saw; once it is dropped, the value is as it was.
    ensures begins { (m : Setting) (s new : State) (node thread : ℕ) (segments reading : List ℕ)
        → Step m s (Begin node thread segments reading) Accepted new
        → (t : Transaction) × (running_of node thread new ≡ Some t)
        × (seen m.start new t ≡ value m.start s.earlier s.history) }
    ensures sets { (m : Setting) (s new : State) (node thread segment offset len : ℕ) (t : Transaction)
        → running_of node thread s ≡ Some t → Step m s (SetRange node thread segment offset len) Accepted new
        → (running_of node thread new ≡ Some (marked t segment offset len))
        × (seen m.start new (marked t segment offset len) ≡ seen m.start s t) }
    ensures ends { (m : Setting) (s new : State) (node thread place words : ℕ) (t : Transaction)
        → running_of node thread s ≡ Some t → Step m s (Reserve node thread) (Reserved place words) new
        → value m.start new.earlier new.history ≡ seen m.start s t }
    ensures drops { (m : Setting) (s new : State) (node thread : ℕ) → Step m s (Abort node thread) Accepted new
        → value m.start new.earlier new.history ≡ value m.start s.earlier s.history }
{}

/// A program may keep an image of each segment, which its writer alone changes, without a lock. It has at each moment
/// what the plain machine would answer: of a segment that is written what its writer sees, else the value of the
/// history. So a read of a held segment, taken from its image, is the machine's, whatever others do meanwhile.
pub fn private_images()
    ensures step { (m : Setting) (s new : State) (event : Event) (reply : Reply) (images olds later kept : Images)
        → Sound m.geometry s → s.phase ≡ Up → IsNoStop event → Step m s event reply new → FitsImages m s images olds
        → Does m.geometry s event reply images olds later kept → FitsImages m new later kept }
    ensures run { (m : Setting) (s new : State) (events : List Event) (replies : List Reply)
        (images olds later kept : Images) → Sound m.geometry s → s.phase ≡ Up → FitsImages m s images olds
        → RunsWith m s events replies images olds new later kept → FitsImages m new later kept }
    ensures reads { (m : Setting) (s new : State) (node thread segment offset len : ℕ) (bytes : List ℕ)
        (t : Transaction) (images olds : Images) → Sound m.geometry s → running_of node thread s ≡ Some t
        → holds t segment ≡ true → FitsImages m s images olds
        → Step m s (Read node thread segment offset len) (Bytes bytes) new
        → bytes ≡ take len (drop offset (images segment)) }
    ensures aborts { (m : Setting) (s new : State) (node thread : ℕ) (t : Transaction) (images olds later : Images)
        → Sound m.geometry s → running_of node thread s ≡ Some t → FitsImages m s images olds
        → Step m s (Abort node thread) Accepted new → ((g : ℕ) → locks t g ≡ true → later g ≡ olds g)
        → ((g : ℕ) → locks t g ≡ false → later g ≡ images g) → FitsImages m new later olds }
{}
