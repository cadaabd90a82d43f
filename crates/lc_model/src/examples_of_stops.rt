//! What a stop may leave of the small store, and what a recovery makes of it.
ghost use Rattle.std.specs.Prelude.{◌≡◌, ◌≢◌, ℕ, false, List, [], ◌∷◌};
ghost use Rattle.lc_disk.specs.declared.choice.Choice.{Choice};
ghost use Rattle.lc_model.specs.History.{Cut, front};
ghost use Rattle.lc_model.specs.State.{State, At, first_state};
ghost use Rattle.lc_model.specs.Machine.{Run, flushed_to, halting, acknowledged, placed};
ghost use Rattle.lc_model.specs.Stops.{MayCutAt};
ghost use Rattle.lc_model.specs.Examples.{small, store, unflushed, flushing, stopped, stopped_at, May, Never, Refuses};
ghost use Rattle.lc_model.specs.ExamplesOfStops.{closed_since, stopped_halted, recovered, begun_again};

use crate::{Event, Refusal, Reply};

/// A record that is closed after a flush took its part is in no cut of a stop: a stop cuts at what is acknowledged, and
/// from the third step on at what was taken.
pub fn closed_behind_a_flush()
    ensures closed { front 0 (closed_since 3).history ≡ 3 }
    ensures two_acked { MayCutAt (closed_since 2) 0 1 }
    ensures two_not_taken { MayCutAt (closed_since 2) 0 2 → ⊥ }
    ensures two_not_closed { MayCutAt (closed_since 2) 0 3 → ⊥ }
    ensures three_acked { MayCutAt (closed_since 3) 0 1 }
    ensures three_taken { MayCutAt (closed_since 3) 0 2 }
    ensures three_not_closed { MayCutAt (closed_since 3) 0 3 → ⊥ }
    ensures three_not_none { MayCutAt (closed_since 3) 0 0 → ⊥ }
    ensures four_taken { MayCutAt (halting (closed_since 4) 0) 0 2 }
    ensures four_not_closed { MayCutAt (halting (closed_since 4) 0) 0 3 → ⊥ }
{}

/// A flush acknowledges what it took, and the next one takes what was closed since.
pub fn flush_takes_once()
    ensures acked { May (closed_since 3) (Event.FlushStep 0) (Reply.Acked 2) (acknowledged (closed_since 3) 0 2) }
    ensures not_closed { Never (closed_since 3) (Event.FlushStep 0) (Reply.Acked 3) }
    ensures still_two { May (closed_since 1) (Event.FlushStep 0) (Reply.Stepped 2) (flushed_to (closed_since 1) 0 2 2) }
    ensures not_three { May (closed_since 1) (Event.FlushStep 0) (Reply.Stepped 2) (flushed_to (closed_since 1) 0 2 3) →
        ⊥ }
    ensures then_the_next { let flushed = acknowledged (closed_since 3) 0 2 in
        May flushed (Event.FlushStep 0) (Reply.Stepped 1) (flushed_to flushed 0 1 3) }
    ensures not_nothing { Never (acknowledged (closed_since 3) 0 2) (Event.FlushStep 0) Reply.Nothing }
{}

/// A stop is never refused, whatever the choices: it goes down at one number for each node, neither too few nor too
/// many.
pub fn stop_behind_a_flush()
    ensures at_taken { (choices : List (List Choice)) →
        May (closed_since 3) (Event.Stop choices) Reply.Down (stopped_at (2 ∷ 1 ∷ []) (closed_since 3)) }
    ensures at_acked { (choices : List (List Choice)) →
        May (closed_since 3) (Event.Stop choices) Reply.Down (stopped_at (1 ∷ 1 ∷ []) (closed_since 3)) }
    ensures not_at_closed { (choices : List (List Choice)) →
        May (closed_since 3) (Event.Stop choices) Reply.Down (stopped_at (3 ∷ 1 ∷ []) (closed_since 3)) → ⊥ }
    ensures not_at_none { (choices : List (List Choice)) →
        May (closed_since 3) (Event.Stop choices) Reply.Down (stopped_at (0 ∷ 1 ∷ []) (closed_since 3)) → ⊥ }
    ensures of_each_node { (choices : List (List Choice)) →
        May (closed_since 3) (Event.Stop choices) Reply.Down (stopped_at (2 ∷ 0 ∷ []) (closed_since 3)) → ⊥ }
    ensures no_shorter_cut { (choices : List (List Choice)) →
        May (closed_since 3) (Event.Stop choices) Reply.Down (stopped_at (2 ∷ []) (closed_since 3)) → ⊥ }
    ensures two_at_acked { (choices : List (List Choice)) →
        May (closed_since 2) (Event.Stop choices) Reply.Down (stopped_at (1 ∷ 1 ∷ []) (closed_since 2)) }
    ensures two_not_at_taken { (choices : List (List Choice)) →
        May (closed_since 2) (Event.Stop choices) Reply.Down (stopped_at (2 ∷ 1 ∷ []) (closed_since 2)) → ⊥ }
    ensures goes_down { (choices : List (List Choice)) (new : State)
        → May (closed_since 3) (Event.Stop choices) Reply.Down new
        → (cut : Cut) × (new ≡ stopped_at cut (closed_since 3)) }
    ensures no_refusal { (choices : List (List Choice)) (refusal : Refusal) →
        Never (closed_since 3) (Event.Stop choices) (Reply.Refused refusal) }
{}

/// A cut that is not closed is not allowed, though each of its numbers is; and a halted node is in the way of no stop.
pub fn stop_is_closed()
    ensures not_closed { (choices : List (List Choice)) →
        May (flushing 3) (Event.Stop choices) Reply.Down (stopped_at (2 ∷ 0 ∷ []) (flushing 3)) → ⊥ }
    ensures taken_may { MayCutAt (flushing 3) 0 2 }
    ensures none { (choices : List (List Choice)) →
        May (flushing 3) (Event.Stop choices) Reply.Down (stopped_at (0 ∷ 0 ∷ []) (flushing 3)) }
    ensures halted { (choices : List (List Choice))
        → May (halting (flushing 3) 0) (Event.Stop choices) Reply.Down
        (stopped_at (0 ∷ 0 ∷ []) (halting (flushing 3) 0)) }
{}

/// A store that is down stays at the cut of its first stop.
pub fn stop_while_down()
    ensures same { (choices : List (List Choice)) →
        May stopped (Event.Stop choices) Reply.Down stopped }
    ensures no_other_cut { (choices : List (List Choice)) (cut : Cut) →
        May stopped (Event.Stop choices) Reply.Down (stopped_at cut unflushed) → cut ≡ 1 ∷ 1 ∷ [] }
    ensures not_none { (choices : List (List Choice)) →
        May stopped (Event.Stop choices) Reply.Down (stopped_at (0 ∷ 0 ∷ []) unflushed) → ⊥ }
    ensures no_refusal { (choices : List (List Choice)) →
        Never stopped (Event.Stop choices) (Reply.Refused Refusal.Down) }
{}

/// A step of a recovery is never refused, but for a fault, which changes nothing.
pub fn recovery_is_not_refused()
    ensures no_refusal { (refusal : Refusal) → refusal ≢ Refusal.DeviceFault →
        Never stopped Event.RecoverStep (Reply.Refused refusal) }
    ensures halted_or_not { (refusal : Refusal) → refusal ≢ Refusal.DeviceFault →
        Never stopped_halted Event.RecoverStep (Reply.Refused refusal) }
    ensures fault { Refuses stopped_halted Event.RecoverStep Refusal.DeviceFault }
    ensures fault_halts_none { May stopped_halted Event.RecoverStep (Reply.Refused Refusal.DeviceFault)
        (halting stopped_halted 0) →
        ⊥ }
    ensures not_ok { Never stopped_halted Event.RecoverStep Reply.Ok }
    ensures not_nothing { Never stopped_halted Event.RecoverStep Reply.Nothing }
{}

/// After a recovery no node is halted, and each token is where it was at first.
pub fn recovery_begins_anew()
    ensures again { May stopped_halted Event.RecoverStep Reply.Recovered recovered }
    ensures no_other { (new : State) → May stopped_halted Event.RecoverStep Reply.Recovered new → new ≡ recovered }
    ensures none_halted { (node : ℕ) → recovered.halted node ≡ false }
    ensures not_halted { May stopped_halted Event.RecoverStep Reply.Recovered (halting recovered 1) → ⊥ }
    ensures places { (segment : ℕ) → recovered.place segment ≡ (first_state small).place segment }
    ensures not_moved { May stopped_halted Event.RecoverStep Reply.Recovered (placed recovered 1 (At 0)) → ⊥ }
    ensures works_again { May recovered (Event.FlushStep 1) Reply.Nothing recovered }
    ensures not_refused { Never recovered (Event.FlushStep 1) (Reply.Refused Refusal.Halted) }
{}

/// A read after a recovery sees what the cut kept, and nothing of what was lost.
pub fn read_behind_a_recovery()
    ensures kept { May begun_again (Event.Read 0 0 2 0 2) (Reply.Bytes (22 ∷ 0 ∷ [])) begun_again }
    ensures not_lost { Never begun_again (Event.Read 0 0 2 0 2) (Reply.Bytes (32 ∷ 0 ∷ [])) }
    ensures not_zeros { Never begun_again (Event.Read 0 0 2 0 2) (Reply.Bytes (0 ∷ 0 ∷ [])) }
    ensures from_the_stop { (new : State)
        × Run store stopped
        (Event.RecoverStep ∷ Event.Begin 0 0 (2 ∷ []) [] ∷ Event.Read 0 0 2 0 2 ∷ [])
        (Reply.Recovered ∷ Reply.Ok ∷ Reply.Bytes (22 ∷ 0 ∷ []) ∷ []) new }
{}
