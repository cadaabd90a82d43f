//! What runs of the plain machine keep, each law the contract of a function with nothing to do.
ghost use Rattle.std.specs.Prelude.{◌≡◌, ◌≢◌, ◌<◌, ◌≤◌, ℕ, List, [], ◌++◌, length, filter, take, slice_index};
ghost use Rattle.std.specs.Prelude.{All, Contains};
ghost use Rattle.lc_record.specs.declared.geometry.Geometry.{Geometry};
ghost use Rattle.lc_record.specs.Transaction.{Transaction};
ghost use Rattle.lc_disk.specs.declared.choice.Choice.{Choice};
ghost use Rattle.lc_model.specs.History.{Cut, kept, transactions, is_of, front};
ghost use Rattle.lc_model.specs.State.{State, Setting, Up, DownAt, fresh};
ghost use Rattle.lc_model.specs.Stops.{MayCutAt, MayCut};
ghost use Rattle.lc_model.specs.Sound.{Sound};
ghost use Rattle.lc_model.specs.Machine.{Step, Run};
ghost use Rattle.lc_model.specs.Told.{told_of, told_by_all, committed, IsLess};
ghost use Rattle.lc_model.specs.Told.{IsAcknowledged, acknowledged_of};

use crate::{Event, Reply};

/// A recovery that ends keeps of the history exactly what the stop's cut keeps, and a stop may make
/// that cut. All else begins anew.
pub fn kept_cut()
    ensures kept_cut { (m : Setting) (s new : State) → Sound m.geometry s →
        Step m s Event.RecoverStep Reply.Recovered new →
        (cut : Cut) × (s.phase ≡ DownAt cut) × MayCut m.geometry s cut
        × (new ≡ fresh m.geometry (s.earlier ++ kept s.history cut) Up) }
{}

/// What a cut keeps of a node is the first part of what it reserved: each is closed, and all that are
/// acknowledged are among them.
pub fn kept_of_a_node()
    ensures first_part { (g : Geometry) (s : State) (cut : Cut) (node : ℕ) → Sound g s → MayCut g s cut →
        filter (is_of node) (kept s.history cut)
        ≡ take (slice_index cut node) (filter (is_of node) (transactions s.history)) }
    ensures closed { (g : Geometry) (s : State) (cut : Cut) (node : ℕ) → Sound g s → MayCut g s cut →
        slice_index cut node ≤ front node s.history }
    ensures with_acknowledged { (g : Geometry) (s : State) (cut : Cut) (node : ℕ) → Sound g s →
        MayCut g s cut → node < g.nodes → s.ack node ≤ slice_index cut node }
{}

/// In a sound state a stop is possible; while it is up, at each cut whose numbers a stop allows.
pub fn stop_possible()
    ensures some { (m : Setting) (s : State) (choices : List (List Choice)) → Sound m.geometry s →
        (new : State) × Step m s (Event.Stop choices) Reply.Down new }
    ensures at_each { (m : Setting) (s : State) (choices : List (List Choice)) (cut : Cut) →
        Sound m.geometry s → s.phase ≡ Up → length cut ≡ m.geometry.nodes →
        ((node : ℕ) → node < m.geometry.nodes → MayCutAt s node (slice_index cut node)) →
        Step m s (Event.Stop choices) Reply.Down (record s { phase = DownAt cut }) }
{}

/// What is acknowledged stays so over every run, as often and in its order, and each later recovery
/// keeps it.
pub fn acknowledged()
    ensures step { (m : Setting) (s new : State) (event : Event) (reply : Reply) (t : Transaction) →
        Sound m.geometry s → Step m s event reply new → IsAcknowledged s t → IsAcknowledged new t }
    ensures run { (m : Setting) (s new : State) (events : List Event) (replies : List Reply) (t : Transaction) →
        Sound m.geometry s → Run m s events replies new → IsAcknowledged s t → IsAcknowledged new t }
    ensures recovered { (m : Setting) (s new : State) (t : Transaction) → Sound m.geometry s →
        Step m s Event.RecoverStep Reply.Recovered new → IsAcknowledged s t → Contains new.earlier t }
    ensures kept { (m : Setting) (s new : State) (events : List Event) (replies : List Reply) (t : Transaction) →
        Sound m.geometry s → Run m s events replies new → new.history ≡ [] → IsAcknowledged s t →
        Contains new.earlier t }
    ensures in_order { (m : Setting) (s new : State) (events : List Event) (replies : List Reply) →
        Sound m.geometry s → Run m s events replies new →
        IsLess (acknowledged_of s) (acknowledged_of new) }
    ensures kept_in_order { (m : Setting) (s new : State) (events : List Event) (replies : List Reply) →
        Sound m.geometry s → Run m s events replies new → new.history ≡ [] →
        IsLess (acknowledged_of s) new.earlier }
{}

/// The events of a run and their replies tell by themselves which transactions are open and which were
/// reserved. Those that stand are the reserved ones, one for one and in order, less what stops cut;
/// without a recovery they are all of them.
pub fn told()
    ensures running { (m : Setting) (s new : State) (events : List Event) (replies : List Reply) →
        Sound m.geometry s → Run m s events replies new →
        new.running ≡ (told_by_all m.geometry (told_of s) events replies).running }
    ensures reserved { (m : Setting) (s new : State) (events : List Event) (replies : List Reply) →
        Sound m.geometry s → Run m s events replies new →
        IsLess (committed new) (told_by_all m.geometry (told_of s) events replies).reserved }
    ensures without_recovery { (m : Setting) (s new : State) (events : List Event) (replies : List Reply) →
        Sound m.geometry s → Run m s events replies new →
        All (λ reply. reply ≢ Reply.Recovered) replies →
        committed new ≡ (told_by_all m.geometry (told_of s) events replies).reserved }
{}

/// An event and its reply determine the next state. Only a stop leaves more open, and no more than
/// where it cuts.
pub fn next_state()
    ensures step { (m : Setting) (s new other : State) (event : Event) (reply : Reply) →
        ((choices : List (List Choice)) → event ≢ Event.Stop choices) →
        Step m s event reply new → Step m s event reply other → new ≡ other }
    ensures run { (m : Setting) (s new other : State) (events : List Event) (replies : List Reply) →
        All (λ event. (choices : List (List Choice)) → event ≢ Event.Stop choices) events →
        Run m s events replies new → Run m s events replies other → new ≡ other }
    ensures stop { (m : Setting) (s new : State) (choices : List (List Choice)) (reply : Reply) →
        Step m s (Event.Stop choices) reply new → new ≡ record s { phase = new.phase } }
{}
