//! Runs of the plain machine where locks and tokens are in the way, and what those that read pull into a cut.
ghost use Rattle.std.specs.Prelude.{◌≡◌, true, false, [], ◌∷◌, ◌++◌};
ghost use Rattle.lc_record.specs.Transaction.{Meet};
ghost use Rattle.lc_model.specs.History.{kept, rest, IsClosed, KeepsOrder};
ghost use Rattle.lc_model.specs.Machine.{begun};
ghost use Rattle.lc_model.specs.Examples.{small, moving, May, Never, Refuses, OnlyRefuses};
ghost use Rattle.lc_model.specs.ExamplesOfLocks.{read_one, write_one, read_beside, both, read_at, held_elsewhere};

use crate::{Event, Refusal, Reply};

/// One that writes a segment is kept only with the one of another node that read it before.
pub fn write_behind_read()
    ensures meet { Meet read_one write_one }
    ensures both_kept { IsClosed (both read_one write_one) (1 ∷ 1 ∷ []) }
    ensures reader_alone { IsClosed (both read_one write_one) (1 ∷ 0 ∷ []) }
    ensures keeps_reader { kept (both read_one write_one) (1 ∷ 0 ∷ []) ≡ read_one ∷ [] }
    ensures not_writer_alone { IsClosed (both read_one write_one) (0 ∷ 1 ∷ []) → ⊥ }
    ensures none { IsClosed (both read_one write_one) (0 ∷ 0 ∷ []) }
{}

/// One that read a segment is kept only with the one of another node that wrote it before.
pub fn read_behind_write()
    ensures meet { Meet write_one read_one }
    ensures both_kept { IsClosed (both write_one read_one) (1 ∷ 1 ∷ []) }
    ensures writer_alone { IsClosed (both write_one read_one) (0 ∷ 1 ∷ []) }
    ensures not_reader_alone { IsClosed (both write_one read_one) (1 ∷ 0 ∷ []) → ⊥ }
{}

/// Two that read a segment do not meet there, so each is kept without the other.
pub fn read_behind_read()
    ensures not_meet { Meet read_one read_beside → ⊥ }
    ensures first_alone { IsClosed (both read_one read_beside) (1 ∷ 0 ∷ []) }
    ensures second_alone { IsClosed (both read_one read_beside) (0 ∷ 1 ∷ []) }
    ensures keeps_second { kept (both read_one read_beside) (0 ∷ 1 ∷ []) ≡ read_beside ∷ [] }
{}

/// Of two that meet, one that read and one that wrote, no order turns them round: so not that of a cut that keeps the
/// later alone. Two that read may be turned round.
pub fn order_of_two()
    ensures as_they_stood { KeepsOrder (read_one ∷ write_one ∷ []) (read_one ∷ write_one ∷ []) }
    ensures not_turned_round { KeepsOrder (read_one ∷ write_one ∷ []) (write_one ∷ read_one ∷ []) → ⊥ }
    ensures writer_alone { kept (both read_one write_one) (0 ∷ 1 ∷ []) ++ rest (both read_one write_one) (0 ∷ 1 ∷ [])
        ≡ write_one ∷ read_one ∷ [] }
    ensures not_round_again { KeepsOrder (write_one ∷ read_one ∷ []) (read_one ∷ write_one ∷ []) → ⊥ }
    ensures none_is_lost { KeepsOrder (read_one ∷ write_one ∷ []) (write_one ∷ []) → ⊥ }
    ensures readers_turn_round { KeepsOrder (read_one ∷ read_beside ∷ []) (read_beside ∷ read_one ∷ []) }
{}

/// A reader's record that is not closed has its lock still, and its token leaves only once it is stable.
pub fn reader_holds_on()
    ensures writer_waits { OnlyRefuses (read_at false) (Event.Begin 0 1 (1 ∷ []) []) (Refusal.Busy 1) }
    ensures reader_beside { May (read_at false) (Event.Begin 0 1 [] (1 ∷ [])) Reply.Ok
        (begun small (read_at false) 0 1 [] (1 ∷ [])) }
    ensures reader_not_busy { Never (read_at false) (Event.Begin 0 1 [] (1 ∷ [])) (Reply.Refused (Refusal.Busy 1)) }
    ensures token_stays { OnlyRefuses (read_at false) (Event.Leave 0 1) Refusal.Held }
    ensures then_free { May (read_at true) (Event.Begin 0 1 (1 ∷ []) []) Reply.Ok
        (begun small (read_at true) 0 1 (1 ∷ []) []) }
    ensures then_not_busy { Never (read_at true) (Event.Begin 0 1 (1 ∷ []) []) (Reply.Refused (Refusal.Busy 1)) }
    ensures unflushed { Refuses (read_at true) (Event.Leave 0 1) Refusal.Unflushed }
    ensures not_to_another { Never (read_at true) (Event.Leave 0 1) Reply.Ok }
{}

/// Of a segment that is elsewhere and held, it is told that it is not here; a thread out of turn is told that first.
pub fn elsewhere_before_held()
    ensures begin { OnlyRefuses held_elsewhere (Event.Begin 0 1 (1 ∷ []) []) (Refusal.NotHere 1) }
    ensures begin_reading { OnlyRefuses held_elsewhere (Event.Begin 0 1 [] (1 ∷ [])) (Refusal.NotHere 1) }
    ensures busy_where_it_is { OnlyRefuses held_elsewhere (Event.Begin 1 1 (1 ∷ []) []) (Refusal.Busy 1) }
    ensures turn_first { OnlyRefuses held_elsewhere (Event.Begin 1 0 (2 ∷ []) []) Refusal.OutOfTurn }
    ensures not_here_in_turn { OnlyRefuses held_elsewhere (Event.Begin 1 1 (2 ∷ []) []) (Refusal.NotHere 2) }
    ensures leave { OnlyRefuses held_elsewhere (Event.Leave 0 1) (Refusal.NotHere 1) }
    ensures leave_where_it_is { OnlyRefuses held_elsewhere (Event.Leave 1 1) Refusal.Held }
    ensures leave_on_its_way { OnlyRefuses moving (Event.Leave 0 1) (Refusal.NotHere 1) }
{}
