//! Runs of the plain machine on a small store: the right answer is allowed, and a wrong one is not.
ghost use Rattle.std.specs.Prelude.{◌≡◌, ℕ, true, false, None, List, [], ◌∷◌, IsTrue};
ghost use Rattle.lc_model.specs.History.{kept, rest, IsClosed};
ghost use Rattle.lc_model.specs.State.{State, At, Travelling, Up, fresh, first_state};
ghost use Rattle.lc_model.specs.Machine.{Run, begun, changed, dropped, appended};
ghost use Rattle.lc_model.specs.Machine.{flushed_to, halting, acknowledged, placed};
ghost use Rattle.lc_record.specs.Marks.{ranges, marked};
ghost use Rattle.lc_model.specs.Stops.{MayCutAt};
ghost use Rattle.lc_model.specs.Examples.{small, store, first, second, third, three};
ghost use Rattle.lc_model.specs.Examples.{all_at, many, setting_many, unflushed, flushing, half_closed, busy, reader};
ghost use Rattle.lc_model.specs.Examples.{reading, sharing, idle, stopped, stopped_again, May, Never, Refuses};

use crate::{Event, Refusal, Reply};

/// Of three transactions of two nodes, the first of each node make a closed cut. Both of the first node do not: the
/// second of them locks what the other node locked before.
pub fn cuts()
    ensures closed { IsClosed (three true true true) (1 ∷ 1 ∷ []) }
    ensures keeps_two { kept (three true true true) (1 ∷ 1 ∷ []) ≡ first ∷ second ∷ [] }
    ensures leaves_one { rest (three true true true) (1 ∷ 1 ∷ []) ≡ third ∷ [] }
    ensures not_closed { IsClosed (three true true true) (2 ∷ 0 ∷ []) → ⊥ }
    ensures keeps_both { kept (three true true true) (2 ∷ 0 ∷ []) ≡ first ∷ third ∷ [] }
{}

/// The first two steps of a flush.
pub fn flush_begins()
    ensures first_step { May unflushed (Event.FlushStep 0) (Reply.Stepped 1) (flushing 1) }
    ensures some_to_do { Never unflushed (Event.FlushStep 0) Reply.Nothing }
    ensures second_step { May (flushing 1) (Event.FlushStep 0) (Reply.Stepped 2) (flushed_to (flushing 1) 0 2 2) }
    ensures not_first { Never (flushing 1) (Event.FlushStep 0) (Reply.Stepped 1) }
    ensures not_acked { Never (flushing 1) (Event.FlushStep 0) (Reply.Acked 2) }
{}

/// The last step acknowledges what the flush took, and no other number.
pub fn flush_ends()
    ensures last_step { May (flushing 3) (Event.FlushStep 0) (Reply.Acked 2) (acknowledged (flushing 3) 0 2) }
    ensures no_fewer { Never (flushing 3) (Event.FlushStep 0) (Reply.Acked 1) }
    ensures no_more_steps { Never (flushing 3) (Event.FlushStep 0) (Reply.Stepped 4) }
    ensures then_nothing { let flushed = acknowledged unflushed 0 2 in
        May flushed (Event.FlushStep 0) Reply.Nothing flushed }
    ensures not_again { Never (acknowledged unflushed 0 2) (Event.FlushStep 0) (Reply.Stepped 1) }
{}

/// A fault at any of the four steps counts as the step, halts the node and acknowledges nothing.
pub fn flush_faults()
    ensures first_step { May unflushed (Event.FlushStep 0) (Reply.Refused Refusal.DeviceFault)
        (halting (flushing 1) 0) }
    ensures second_step { May (flushing 1) (Event.FlushStep 0) (Reply.Refused Refusal.DeviceFault)
        (halting (flushed_to (flushing 1) 0 2 2) 0) }
    ensures third_step { May (flushing 2) (Event.FlushStep 0) (Reply.Refused Refusal.DeviceFault)
        (halting (flushed_to (flushing 2) 0 3 2) 0) }
    ensures fourth_step { May (flushing 3) (Event.FlushStep 0) (Reply.Refused Refusal.DeviceFault)
        (halting (flushed_to (flushing 3) 0 4 2) 0) }
    ensures halts { (new : State) →
        May (flushing 3) (Event.FlushStep 0) (Reply.Refused Refusal.DeviceFault) new →
        IsTrue (new.halted 0) × (new.ack 0 ≡ 0) }
    ensures not_unchanged { Refuses unflushed (Event.FlushStep 0) Refusal.DeviceFault → ⊥ }
    ensures then_halted { Refuses (halting (flushing 3) 0) (Event.FlushStep 0) Refusal.Halted }
    ensures no_ack_behind { Never (halting (flushing 3) 0) (Event.FlushStep 0) (Reply.Acked 2) }
{}

/// A token stays while another segment's record of its node is not stable.
pub fn leave_waits()
    ensures unflushed { Refuses half_closed (Event.Leave 0 1) Refusal.Unflushed }
    ensures not_ok { Never half_closed (Event.Leave 0 1) Reply.Ok }
    ensures held { Refuses half_closed (Event.Leave 0 2) Refusal.Held }
    ensures held_first { Never half_closed (Event.Leave 0 2) (Reply.Refused Refusal.Unflushed) }
    ensures leaves { let flushed = acknowledged (all_at 0 unflushed) 0 2 in
        May flushed (Event.Leave 0 1) Reply.Ok (placed flushed 1 Travelling) }
    ensures not_unflushed { let flushed = acknowledged (all_at 0 unflushed) 0 2 in
        Never flushed (Event.Leave 0 1) (Reply.Refused Refusal.Unflushed) }
{}

/// A thread that begins is refused at the first segment that it cannot have, in ascending order.
pub fn begin_refused()
    ensures not_here { Refuses busy (Event.Begin 0 1 (2 ∷ 1 ∷ []) []) (Refusal.NotHere 1) }
    ensures not_busy { Never busy (Event.Begin 0 1 (2 ∷ 1 ∷ []) []) (Reply.Refused (Refusal.Busy 2)) }
    ensures not_ok { Never busy (Event.Begin 0 1 (2 ∷ 1 ∷ []) []) Reply.Ok }
    ensures busy { Refuses busy (Event.Begin 0 1 (2 ∷ []) []) (Refusal.Busy 2) }
    ensures out_of_turn { Refuses busy (Event.Begin 0 0 (1 ∷ []) []) Refusal.OutOfTurn }
    ensures free { May unflushed (Event.Begin 0 1 (2 ∷ []) []) Reply.Ok (begun small unflushed 0 1 (2 ∷ []) []) }
    ensures not_busy_there { Never unflushed (Event.Begin 0 1 (2 ∷ []) []) (Reply.Refused (Refusal.Busy 2)) }
{}

/// Those that read a segment are side by side; one that writes it is alone.
pub fn locks_by_kind()
    ensures beside { May sharing (Event.Begin 0 1 [] (1 ∷ [])) Reply.Ok (begun small sharing 0 1 [] (1 ∷ [])) }
    ensures not_busy { Never sharing (Event.Begin 0 1 [] (1 ∷ [])) (Reply.Refused (Refusal.Busy 1)) }
    ensures no_writer { Refuses sharing (Event.Begin 0 1 (1 ∷ []) []) (Refusal.Busy 1) }
    ensures no_writer_of_both { Refuses sharing (Event.Begin 0 1 (1 ∷ []) (1 ∷ [])) (Refusal.Busy 1) }
    ensures no_reader { Refuses reading (Event.Begin 0 0 [] (2 ∷ 1 ∷ [])) (Refusal.Busy 1) }
    ensures written { begun small unflushed 0 1 (2 ∷ []) (2 ∷ []) ≡ begun small unflushed 0 1 (2 ∷ []) [] }
    ensures read_only { Refuses sharing (Event.SetRange 0 0 1 0 1) (Refusal.ReadOnly 1) }
    ensures read_only_first { Refuses sharing (Event.SetRange 0 0 1 300 0) (Refusal.ReadOnly 1) }
    ensures no_write { Refuses sharing (Event.Write 0 0 1 0 (5 ∷ [])) (Refusal.ReadOnly 1) }
    ensures not_locked { Refuses sharing (Event.SetRange 0 0 2 0 1) Refusal.NotLocked }
    ensures read { May sharing (Event.Read 0 0 1 0 2) (Reply.Bytes (21 ∷ 0 ∷ [])) sharing }
    ensures held { Refuses sharing (Event.Leave 0 1) Refusal.Held }
{}

/// A read under the lock gives the history's bytes with the own writes on top.
pub fn read_sees()
    ensures own_on_top { May reading (Event.Read 0 1 1 0 3) (Reply.Bytes (21 ∷ 99 ∷ 0 ∷ [])) reading }
    ensures not_without_own { Never reading (Event.Read 0 1 1 0 3) (Reply.Bytes (21 ∷ 0 ∷ 0 ∷ [])) }
    ensures not_before { Never reading (Event.Read 0 1 1 0 3) (Reply.Bytes (11 ∷ 99 ∷ 0 ∷ [])) }
    ensures not_locked { Refuses reading (Event.Read 0 1 2 0 1) Refusal.NotLocked }
    ensures no_other_bytes { (bytes : List ℕ) →
        Never reading (Event.Read 0 1 2 0 1) (Reply.Bytes bytes) }
{}

/// A write stays within what was set, and a range within the segment.
pub fn write_within()
    ensures no_range { Refuses reading (Event.Write 0 1 1 1 (5 ∷ 6 ∷ [])) Refusal.NoRange }
    ensures not_ok { Never reading (Event.Write 0 1 1 1 (5 ∷ 6 ∷ [])) Reply.Ok }
    ensures outside { Refuses reading (Event.SetRange 0 1 1 255 2) (Refusal.OutOfSegment None) }
    ensures no_bytes { Refuses reading (Event.SetRange 0 1 1 9 0) Refusal.EmptyRange }
    ensures no_turn { Refuses reading (Event.Write 1 1 1 1 (5 ∷ [])) Refusal.OutOfTurn }
{}

/// Ranges that touch are one, and a 65th is refused.
pub fn ranges_merge()
    ensures three_ranges { ranges ((true ∷ true ∷ false ∷ true ∷ []) ∷ (true ∷ []) ∷ []) ≡ 3 }
    ensures too_many { Refuses setting_many (Event.SetRange 0 1 1 128 1) Refusal.TooManyRanges }
    ensures not_ok { Never setting_many (Event.SetRange 0 1 1 128 1) Reply.Ok }
    ensures touching { May setting_many (Event.SetRange 0 1 1 127 1) Reply.Ok
        (changed setting_many (marked many 1 127 1)) }
    ensures not_too_many { Never setting_many (Event.SetRange 0 1 1 127 1) (Reply.Refused Refusal.TooManyRanges) }
{}

/// A transaction that set nothing ends, and one that did is reserved.
pub fn reserving()
    ensures ended { May idle (Event.Reserve 0 1) Reply.Ended (dropped idle 0 1) }
    ensures not_reserved { (place words : ℕ) →
        Never idle (Event.Reserve 0 1) (Reply.Reserved place words) }
    ensures reserved { (place words : ℕ) →
        May reading (Event.Reserve 0 1) (Reply.Reserved place words) (appended reading reader) }
    ensures not_ended { Never reading (Event.Reserve 0 1) Reply.Ended }
{}

/// A reservation may be refused for these reasons and no other, and the transaction stays open.
pub fn reserve_refused()
    ensures spent { Refuses reading (Event.Reserve 0 1) (Refusal.SequenceSpent 1) }
    ensures too_long { Refuses reading (Event.Reserve 0 1) (Refusal.TooLong 5000) }
    ensures sealed { Refuses reading (Event.Reserve 0 1) Refusal.Sealed }
    ensures full { Refuses reading (Event.Reserve 0 1) (Refusal.Full 60 8) }
    ensures not_busy { Never reading (Event.Reserve 0 1) (Reply.Refused (Refusal.Busy 1)) }
    ensures no_turn { Refuses unflushed (Event.Reserve 0 1) Refusal.OutOfTurn }
    ensures not_twice { Never unflushed (Event.Reserve 0 1) (Reply.Reserved 0 8) }
{}

/// A thread closes what it reserved, and can do nothing else before.
pub fn closing()
    ensures closes { May busy (Event.Close 0 0) Reply.Ok (record busy { history = three true true true }) }
    ensures not_abort { Never busy (Event.Abort 0 0) Reply.Ok }
    ensures of_another { Refuses busy (Event.Close 0 1) Refusal.OutOfTurn }
    ensures not_again { Never unflushed (Event.Close 0 0) Reply.Ok }
    ensures aborts { May reading (Event.Abort 0 1) Reply.Ok (all_at 0 unflushed) }
    ensures not_ended { Never reading (Event.Abort 0 1) Reply.Ended }
{}

/// A token arrives where it travels, or may be refused as `Behind`.
pub fn arriving()
    ensures arrives { let travelling = placed unflushed 1 Travelling in
        May travelling (Event.Arrive 0 1) Reply.Ok (placed travelling 1 (At 0)) }
    ensures behind { Refuses (placed unflushed 1 Travelling) (Event.Arrive 0 1) (Refusal.Behind 2 3) }
    ensures no_turn { Refuses unflushed (Event.Arrive 0 1) Refusal.OutOfTurn }
    ensures not_taken { Never unflushed (Event.Arrive 0 1) Reply.Ok }
    ensures not_left { Never (placed unflushed 1 Travelling) (Event.Leave 1 1) Reply.Ok }
{}

/// A delivery and a trim may have these answers, and change nothing.
pub fn delivering()
    ensures applied { May unflushed (Event.Deliver 0 1 1 1) (Reply.Applied 1) unflushed }
    ensures held_back { May unflushed (Event.Deliver 0 1 1 1) Reply.HeldBack unflushed }
    ensures ignored { May unflushed (Event.Deliver 0 1 1 1) Reply.Ignored unflushed }
    ensures unknown { Refuses unflushed (Event.Deliver 0 1 1 1) Refusal.Unknown }
    ensures not_ok { Never unflushed (Event.Deliver 0 1 1 1) Reply.Ok }
    ensures trimmed { May unflushed (Event.Trim 0) (Reply.Trimmed 2) unflushed }
    ensures not_nothing { Never unflushed (Event.Trim 0) Reply.Nothing }
    ensures same_state { May unflushed (Event.Trim 0) (Reply.Trimmed 2) busy → ⊥ }
{}

/// Numbers outside the geometry are unknown, and a halted node's events are refused; a delivery to
/// it too, but not one from it.
pub fn outside_and_halted()
    ensures no_node { Refuses unflushed (Event.FlushStep 2) Refusal.Unknown }
    ensures no_thread { Refuses unflushed (Event.Abort 0 2) Refusal.Unknown }
    ensures no_segment { Refuses unflushed (Event.Begin 0 0 (1 ∷ 3 ∷ []) []) Refusal.Unknown }
    ensures no_segment_zero { Refuses unflushed (Event.Arrive 0 0) Refusal.Unknown }
    ensures no_trim { Refuses unflushed (Event.Trim 2) Refusal.Unknown }
    ensures down_first { Refuses stopped (Event.FlushStep 2) Refusal.Down }
    ensures unknown_first { Refuses (halting unflushed 0) (Event.Abort 0 2) Refusal.Unknown }
    ensures to_halted { Refuses (halting unflushed 1) (Event.Deliver 0 1 1 1) Refusal.Halted }
    ensures from_halted { let halted = halting unflushed 0 in
        May halted (Event.Deliver 0 1 1 1) (Reply.Applied 1) halted }
    ensures others_go_on { let halted = halting unflushed 1 in
        May halted (Event.FlushStep 0) (Reply.Stepped 1) (flushed_to halted 0 1 2) }
{}

/// What a stop may cut a node at, before the gate may be open and from then on.
pub fn stop_cuts()
    ensures two_acked { MayCutAt (flushing 2) 0 0 }
    ensures two_not_taken { MayCutAt (flushing 2) 0 2 → ⊥ }
    ensures three_acked { MayCutAt (flushing 3) 0 0 }
    ensures three_taken { MayCutAt (flushing 3) 0 2 }
    ensures three_not_between { MayCutAt (flushing 3) 0 1 → ⊥ }
{}

/// A recovery keeps what the cut kept, after what earlier ones kept.
pub fn recoveries()
    ensures down { (node thread : ℕ) (segments reading : List ℕ) →
        Refuses stopped (Event.Begin node thread segments reading) Refusal.Down }
    ensures recovered { May stopped Event.RecoverStep Reply.Recovered (fresh small (first ∷ second ∷ []) Up) }
    ensures keeps_no_more { May stopped Event.RecoverStep Reply.Recovered (fresh small (first ∷ second ∷ third ∷ []) Up)
        → ⊥ }
    ensures again { May stopped_again Event.RecoverStep Reply.Recovered
        (fresh small (first ∷ second ∷ third ∷ []) Up) }
    ensures loses_none { May stopped_again Event.RecoverStep Reply.Recovered (fresh small (third ∷ []) Up) → ⊥ }
    ensures step_changes_nothing { (steps : ℕ) →
        May stopped_again Event.RecoverStep (Reply.Stepped steps) stopped_again }
    ensures up { Refuses unflushed Event.RecoverStep Refusal.OutOfTurn }
    ensures not_while_up { Never unflushed Event.RecoverStep Reply.Recovered }
{}

/// From the first state a recovery and one commit, to its acknowledgment.
pub fn one_commit()
    ensures { (new : State)
        × Run store (first_state small)
        (Event.RecoverStep
        ∷ Event.Begin 0 0 (2 ∷ []) [] ∷ Event.SetRange 0 0 2 0 1 ∷ Event.Write 0 0 2 0 (32 ∷ [])
        ∷ Event.Reserve 0 0 ∷ Event.Close 0 0
        ∷ Event.FlushStep 0 ∷ Event.FlushStep 0 ∷ Event.FlushStep 0 ∷ Event.FlushStep 0 ∷ [])
        (Reply.Recovered
        ∷ Reply.Ok ∷ Reply.Ok ∷ Reply.Ok
        ∷ Reply.Reserved 0 8 ∷ Reply.Ok
        ∷ Reply.Stepped 1 ∷ Reply.Stepped 2 ∷ Reply.Stepped 3 ∷ Reply.Acked 1 ∷ []) new
        × (new.history ≡ record { transaction = third; closed = true } ∷ [])
        × (new.ack 0 ≡ 1) }
{}
