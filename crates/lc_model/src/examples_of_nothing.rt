//! Runs of the plain machine with nothing to do: no segments, no bytes, nothing to flush.
ghost use Rattle.std.specs.Prelude.{◌≡◌, ℕ, false, None, [], ◌∷◌};
ghost use Rattle.lc_model.specs.State.{is_held};
ghost use Rattle.lc_model.specs.History.{front, reserved};
ghost use Rattle.lc_record.specs.Marks.{written};
ghost use Rattle.lc_model.specs.Machine.{begun, changed};
ghost use Rattle.lc_model.specs.Examples.{small, unflushed, half_closed, reader, reading, sharing};
ghost use Rattle.lc_model.specs.Examples.{May, Never, OnlyRefuses};
ghost use Rattle.lc_model.specs.ExamplesOfLocks.{empty_handed};

use crate::{Event, Refusal, Reply};

/// A transaction of no segments begins and takes no lock.
pub fn begin_of_no_segments()
    ensures begins { May unflushed (Event.Begin 0 1 [] []) Reply.Ok empty_handed }
    ensures not_refused { (refusal : Refusal) →
        Never unflushed (Event.Begin 0 1 [] []) (Reply.Refused refusal) }
    ensures holds_none { (segment : ℕ) → is_held segment empty_handed ≡ false }
    ensures others_begin { May empty_handed (Event.Begin 0 0 (2 ∷ []) []) Reply.Ok
        (begun small empty_handed 0 0 (2 ∷ []) []) }
    ensures others_not_busy { Never empty_handed (Event.Begin 0 0 (2 ∷ []) []) (Reply.Refused (Refusal.Busy 2)) }
    ensures has_begun { OnlyRefuses empty_handed (Event.Begin 0 1 (2 ∷ []) []) Refusal.OutOfTurn }
    ensures sets_nothing { OnlyRefuses empty_handed (Event.SetRange 0 1 2 0 1) Refusal.NotLocked }
    ensures ends { May empty_handed (Event.Reserve 0 1) Reply.Ended unflushed }
    ensures not_reserved { (place words : ℕ) →
        Never empty_handed (Event.Reserve 0 1) (Reply.Reserved place words) }
{}

/// A write of no bytes needs no range, only a lock to write and a place in the segment or at its end.
pub fn write_of_no_bytes()
    ensures in_a_range { May reading (Event.Write 0 1 1 1 []) Reply.Ok (changed reading (written reader 1 1 [])) }
    ensures under_no_range { May reading (Event.Write 0 1 1 9 []) Reply.Ok (changed reading (written reader 1 9 [])) }
    ensures not_no_range { Never reading (Event.Write 0 1 1 9 []) (Reply.Refused Refusal.NoRange) }
    ensures at_the_end { May reading (Event.Write 0 1 1 256 []) Reply.Ok (changed reading (written reader 1 256 [])) }
    ensures past_the_end { OnlyRefuses reading (Event.Write 0 1 1 257 []) (Refusal.OutOfSegment None) }
    ensures not_locked { OnlyRefuses reading (Event.Write 0 1 2 0 []) Refusal.NotLocked }
    ensures read_only { OnlyRefuses sharing (Event.Write 0 0 1 0 []) (Refusal.ReadOnly 1) }
    ensures one_byte { OnlyRefuses reading (Event.Write 0 1 1 9 (5 ∷ [])) Refusal.NoRange }
    ensures reads_the_same { let wrote = changed reading (written reader 1 1 []) in
        May wrote (Event.Read 0 1 1 0 3) (Reply.Bytes (21 ∷ 99 ∷ 0 ∷ [])) wrote }
    ensures no_other_bytes { let wrote = changed reading (written reader 1 1 []) in
        Never wrote (Event.Read 0 1 1 0 3) (Reply.Bytes (21 ∷ 0 ∷ 0 ∷ [])) }
{}

/// A flush goes by what is closed: a record that is reserved and not closed gives it nothing to do.
pub fn flush_of_nothing_closed()
    ensures one_more_reserved { reserved 0 half_closed.history ≡ 2 }
    ensures not_closed { front 0 half_closed.history ≡ 1 }
    ensures nothing { May half_closed (Event.FlushStep 0) Reply.Nothing half_closed }
    ensures no_step { (steps : ℕ) → Never half_closed (Event.FlushStep 0) (Reply.Stepped steps) }
    ensures no_fault { Never half_closed (Event.FlushStep 0) (Reply.Refused Refusal.DeviceFault) }
    ensures another_has_some { Never unflushed (Event.FlushStep 0) Reply.Nothing }
{}
