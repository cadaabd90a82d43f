//! The laws of desks and of page writes, each the contract of a function with nothing to do.
ghost use Rattle.std.specs.Prelude.{◌≡◌, ◌⊎◌, ◌+◌, ◌<◌, ℕ, List, Some, true, slice_get, slice_set};
ghost use Rattle.lc_disk.specs.Area.{IsImage};
ghost use Rattle.lc_record.specs.declared.geometry.Geometry.{Geometry as Shape};
ghost use Rattle.lc_record.specs.Transaction.{Transaction};
ghost use Rattle.lc_model.specs.Machine.{appended, closed_by, placed};
ghost use Rattle.lc_model.specs.Sound.{Sound};
ghost use Rattle.lc_model.specs.State.{Place, At, Travelling, State, Setting, running_of};
ghost use Rattle.lc_desk.specs.Beside.{Beside};
ghost use Rattle.lc_desk.specs.Desk.{FitsDesk};
ghost use Rattle.lc_settled.specs.Follows.{SameButLog};
ghost use Rattle.lc_settled.specs.FollowsDesk.{SameButOpen};
ghost use Rattle.lc_settled.specs.Numbers.{Numbers};
ghost use Rattle.lc_desk.specs.Seats.{AllRun};
ghost use Rattle.lc_desk.specs.Pages.{FitsArea, FitsPages, IsStored};
ghost use Rattle.lc_settled.specs.Turns.{called, page_settled};
ghost use Rattle.lc_desk.specs.declared.pages.Pages.{Pages as ItsPages};
ghost use Rattle.lc_desk.specs.declared.here.Here.{Here as Slots};
ghost use Rattle.lc_desk.specs.Seat.{Seat as Sitting};

use lc_disk::Area;

/// What one node does leaves the desks of the others fitting the machine: what becomes of its open transactions and of
/// its log, a transaction that gets its place, one that is closed, and a token that leaves or arrives.
pub(crate) fn other_desks()
    ensures stays { (m : Setting) (node other : ℕ) (s after : State) (here : Slots) (seats : List Sitting) →
        (other ≡ node → ⊥) → Beside m node s after → AllRun here seats → FitsDesk m other here seats s →
        FitsDesk m other here seats after }
    ensures open { (m : Setting) (node : ℕ) (s after : State) → SameButOpen node s after → Beside m node s after }
    ensures logged { (m : Setting) (node : ℕ) (s after : State) → SameButLog node s after → Beside m node s after }
    ensures reserved { (m : Setting) (node thread : ℕ) (s : State) (t : Transaction) → Sound m.geometry s →
        running_of node thread s ≡ Some t → Beside m node s (appended s t) }
    ensures closed { (m : Setting) (node thread : ℕ) (s : State) →
        Beside m node s (record s { history = closed_by node thread s.history }) }
    ensures placed { (m : Setting) (node segment : ℕ) (place : Place) (s : State) →
        (s.place segment ≡ At node) ⊎ (s.place segment ≡ Travelling) → (place ≡ At node) ⊎ (place ≡ Travelling) →
        Beside m node s (placed s segment place) }
{}

/// Whatever a stop leaves of the area of a segment, each page is one that the numbers allow. A call in one segment, and
/// the end of a page write, leave the others fitting.
pub(crate) fn page_areas<D: Area>()
    ensures images { (g : Shape) (segment page : ℕ) (pages : ItsPages D D.Area) (x : Numbers) (image : List ℕ)
        → D.honest pages.area ≡ true → FitsArea D.Area g segment pages x → page < g.pages
        → IsImage (D.now pages.area) (D.dirty pages.area) image
        → IsStored segment page image x }
    ensures called { (m : Setting) (s : State) (segments : List (ItsPages D D.Area)) (k page calls : ℕ)
        (old new : ItsPages D D.Area) (x : Numbers)
        → slice_get segments k ≡ Some old → FitsPages D.Area m segments x
        → FitsArea D.Area m.geometry (k + 1) new (called m s x (k + 1) page calls)
        → FitsPages D.Area m (slice_set segments k new) (called m s x (k + 1) page calls) }
    ensures settled { (m : Setting) (s : State) (segments : List (ItsPages D D.Area)) (k page : ℕ)
        (old new : ItsPages D D.Area) (x : Numbers)
        → slice_get segments k ≡ Some old → FitsPages D.Area m segments x
        → FitsArea D.Area m.geometry (k + 1) new (page_settled x (k + 1) page)
        → FitsPages D.Area m (slice_set segments k new) (page_settled x (k + 1) page) }
{}
