//! The laws of journals and of the numbers beside them, each the contract of a function with nothing to do.
ghost use Rattle.std.specs.Prelude.{◌≡◌, ℕ, List, Some, true};
ghost use Rattle.lc_page.specs.declared.page_text.PageText.{PageText};
ghost use Rattle.lc_record.specs.Transaction.{Transaction};
ghost use Rattle.lc_model.specs.Machine.{Step, appended, closed_by};
ghost use Rattle.lc_model.specs.Merge.{Page};
ghost use Rattle.lc_model.specs.Recovered.{recovered_disks};
ghost use Rattle.lc_model.specs.State.{At, Up, State, Setting, fresh, running_of};
ghost use Rattle.lc_model.specs.Stored.{Fits as FitsDisks};
ghost use Rattle.lc_model.specs.History.{kept};
ghost use Rattle.lc_journal.specs.Beside.{BesideLogs};
ghost use Rattle.lc_journal.specs.Coherent.{AreCoherent};
ghost use Rattle.lc_settled.specs.Follows.{SameButLog};
ghost use Rattle.lc_settled.specs.FollowsDesk.{SameButOpen};
ghost use Rattle.lc_settled.specs.Numbers.{Numbers, recovered_numbers};
ghost use Rattle.lc_settled.specs.Settled.{Settled};
ghost use Rattle.lc_journal.specs.Journal.{FitsLog};
ghost use Rattle.lc_journal.specs.Records.{KeptRecords};
ghost use Rattle.lc_journal.specs.declared.log.Log.{Log as Between};
ghost use Rattle.lc_settled.specs.Turns.{Turns};

use lc_disk::Area;
use lc_model::{Event, Reply};

/// And their journals.
pub(crate) fn other_journals<D: Area>()
    ensures stays { (m : Setting) (node other : ℕ) (s : State) (x : Numbers) (after : State) (y : Numbers)
        (log : Between D D.Area)
        (kept : KeptRecords) (dropped trimmed taken acked : ℕ) → (other ≡ node → ⊥) → BesideLogs m node s x after y
        → FitsLog D.Area m other log kept dropped trimmed taken acked s x
        → FitsLog D.Area m other log kept dropped trimmed taken acked after y }
    ensures open { (m : Setting) (node : ℕ) (s after : State) (x : Numbers) → SameButOpen node s after →
        BesideLogs m node s x after x }
    ensures logged { (m : Setting) (node : ℕ) (s after : State) (x : Numbers) → SameButLog node s after →
        BesideLogs m node s x after x }
    ensures reserved { (m : Setting) (node thread : ℕ) (s : State) (x : Numbers) (t : Transaction) →
        running_of node thread s ≡ Some t → BesideLogs m node s x (appended s t) x }
    ensures closed { (m : Setting) (node thread : ℕ) (s : State) (x : Numbers) →
        BesideLogs m node s x (record s { history = closed_by node thread s.history }) x }
{}

/// What a recovery leaves of the numbers is coherent, and each event of a store that stays up keeps it so, and keeps
/// the disks fitting the state. A node that is halted stays so, and its tokens stay with it.
pub fn coherent_numbers()
    ensures fresh { (m : Setting) (earlier : List Transaction) (numbers : ℕ → ℕ) (pages : ℕ → ℕ → Page)
        (texts : ℕ → ℕ → PageText) → FitsDisks m (fresh m.geometry earlier Up) (recovered_disks numbers pages) →
        AreCoherent m (fresh m.geometry earlier Up) (recovered_numbers m.geometry numbers pages texts) }
    ensures keeps { (m : Setting) (s : State) (x : Numbers) (event : Event) (reply : Reply) (after : State)
        (next : Numbers) → s.phase ≡ Up → after.phase ≡ Up → FitsDisks m s x.disks → AreCoherent m s x →
        Step m s event reply after → Settled m s x event reply → Turns m s x event reply next →
        AreCoherent m after next × FitsDisks m after next.disks }
    ensures halted { (m : Setting) (s : State) (event : Event) (reply : Reply) (after : State) → s.phase ≡ Up →
        after.phase ≡ Up → Step m s event reply after →
        ((node : ℕ) → s.halted node ≡ true → after.halted node ≡ true) ×
        ((node segment : ℕ) → s.halted node ≡ true → s.place segment ≡ At node → after.place segment ≡ At node) }
{}
