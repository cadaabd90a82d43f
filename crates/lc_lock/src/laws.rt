//! Laws of the rule, which holds between any two steps.
ghost use Rattle.std.specs.Prelude.{◌≡◌, ℕ, [], ◌∷◌, Option};
ghost use mathlib.Core.Option.{none, some};
ghost use lib.ListN.{get_elem?};
ghost use Rattle.atomic_table.specs.Table.{State};
ghost use Rattle.lc_lock.specs.TicketQueue.{IsQueue};
ghost use Rattle.lc_lock.specs.declared.turn.LockView.{LockView as Seen};
ghost use Rattle.lc_lock.specs.declared.turn.TicketState.TheVariants.{Holds};

use crate::Keyed;

/// Two seats of one lock that hold its value, as the loans do, are one seat.
pub fn holders_are_one<T: Keyed<K>, K>()
    ensures { (key : K) (s : State (Option T) (Seen K)) (i j m n : ℕ) (v w : Seen K) → IsQueue T.fits key s
        → get_elem? s.views i ≡ some v → get_elem? s.views j ≡ some w → v.turn ≡ Holds m → w.turn ≡ Holds n → i ≡ j }
{}

/// While a seat of a lock holds its value, the lock has none.
pub fn held_value_is_out<T: Keyed<K>, K>()
    ensures { (key : K) (s : State (Option T) (Seen K)) (i n : ℕ) (v : Seen K) → IsQueue T.fits key s
        → get_elem? s.views i ≡ some v → v.turn ≡ Holds n → s.homes ≡ none ∷ [] }
{}
