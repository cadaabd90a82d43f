//! Runs of the plain machine that touch one thing alone: one thread of several, one token; and what is told past a
//! segment's end.
ghost use Rattle.std.specs.Prelude.{◌≡◌, true, false, None, [], ◌∷◌};
ghost use Rattle.lc_model.specs.State.{State, At};
ghost use Rattle.lc_model.specs.Machine.{placed};
ghost use Rattle.lc_model.specs.Examples.{opened, third, reader, moving, reading, May, Never, Only, OnlyRefuses};
ghost use Rattle.lc_model.specs.ExamplesOfLocks.{three_open, two_reserved};

use crate::{Event, Refusal, Reply};

/// An abort drops the transaction of its thread, and neither that of another thread of the node nor that of another
/// node.
pub fn aborts_one()
    ensures second_thread { Only three_open (Event.Abort 0 1) Reply.Ok
        (record three_open { running = third ∷ opened 1 0 [] ∷ [] }) }
    ensures first_thread { Only three_open (Event.Abort 0 0) Reply.Ok
        (record three_open { running = reader ∷ opened 1 0 [] ∷ [] }) }
    ensures other_node { Only three_open (Event.Abort 1 0) Reply.Ok
        (record three_open { running = reader ∷ third ∷ [] }) }
    ensures none_of_its { OnlyRefuses three_open (Event.Abort 1 1) Refusal.OutOfTurn }
{}

/// A close closes the record of its thread, and not that of another thread of the node.
pub fn closes_one()
    ensures second_thread { Only (two_reserved false false) (Event.Close 0 1) Reply.Ok (two_reserved false true) }
    ensures first_thread { Only (two_reserved false false) (Event.Close 0 0) Reply.Ok (two_reserved true false) }
    ensures then_the_other { Only (two_reserved false true) (Event.Close 0 0) Reply.Ok (two_reserved true true) }
    ensures not_again { OnlyRefuses (two_reserved false true) (Event.Close 0 1) Refusal.OutOfTurn }
    ensures none_of_its { OnlyRefuses (two_reserved false false) (Event.Close 1 0) Refusal.OutOfTurn }
{}

/// A token that arrives stands at the node that takes it, and no other token moves.
pub fn arrives_at_one()
    ensures at_the_second { May moving (Event.Arrive 1 1) Reply.Ok (placed moving 1 (At 1)) }
    ensures nowhere_else { (new : State) → May moving (Event.Arrive 1 1) Reply.Ok new → new ≡ placed moving 1 (At 1) }
    ensures stands_there { (new : State) → May moving (Event.Arrive 1 1) Reply.Ok new → new.place 1 ≡ At 1 }
    ensures at_the_first { (new : State) → May moving (Event.Arrive 0 1) Reply.Ok new → new.place 1 ≡ At 0 }
    ensures other_stays { (new : State) → May moving (Event.Arrive 1 1) Reply.Ok new → new.place 2 ≡ moving.place 2 }
    ensures not_on_its_way { OnlyRefuses moving (Event.Arrive 1 2) Refusal.OutOfTurn }
    ensures not_stepped { Never moving (Event.Arrive 1 1) Reply.Nothing }
{}

/// Past a segment's last byte a read and a write are refused, the write before its range is looked at; a range of
/// nothing is refused before its place is.
pub fn past_the_segment()
    ensures reads_the_last { Only reading (Event.Read 0 1 1 255 1) (Reply.Bytes (0 ∷ [])) reading }
    ensures read_past { OnlyRefuses reading (Event.Read 0 1 1 255 2) (Refusal.OutOfSegment None) }
    ensures read_behind { OnlyRefuses reading (Event.Read 0 1 1 256 1) (Refusal.OutOfSegment None) }
    ensures write_of_no_range { OnlyRefuses reading (Event.Write 0 1 1 255 (5 ∷ [])) Refusal.NoRange }
    ensures write_past { OnlyRefuses reading (Event.Write 0 1 1 255 (5 ∷ 6 ∷ [])) (Refusal.OutOfSegment None) }
    ensures range_past { OnlyRefuses reading (Event.SetRange 0 1 1 255 2) (Refusal.OutOfSegment None) }
    ensures range_of_nothing { OnlyRefuses reading (Event.SetRange 0 1 1 300 0) Refusal.EmptyRange }
{}
