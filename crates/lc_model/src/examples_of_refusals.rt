//! Runs of the plain machine that are refused, each with the one refusal that its row gives.
ghost use Rattle.std.specs.Prelude.{[], ◌∷◌};
ghost use Rattle.lc_model.specs.Machine.{halting};
ghost use Rattle.lc_model.specs.Examples.{unflushed, busy, reading, moving, May, Never, OnlyRefuses};

use crate::{Event, Refusal, Reply};

/// A node outside the geometry is unknown to each event that names one, to a delivery also the one from which it comes.
pub fn unknown_nodes()
    ensures begin { OnlyRefuses unflushed (Event.Begin 2 1 (1 ∷ []) []) Refusal.Unknown }
    ensures set_range { OnlyRefuses reading (Event.SetRange 2 1 1 0 1) Refusal.Unknown }
    ensures write { OnlyRefuses reading (Event.Write 2 1 1 1 (5 ∷ [])) Refusal.Unknown }
    ensures read { OnlyRefuses reading (Event.Read 2 1 1 0 1) Refusal.Unknown }
    ensures abort { OnlyRefuses reading (Event.Abort 2 1) Refusal.Unknown }
    ensures reserve { OnlyRefuses reading (Event.Reserve 2 1) Refusal.Unknown }
    ensures close { OnlyRefuses busy (Event.Close 2 0) Refusal.Unknown }
    ensures flush_step { OnlyRefuses unflushed (Event.FlushStep 2) Refusal.Unknown }
    ensures leave { OnlyRefuses unflushed (Event.Leave 2 1) Refusal.Unknown }
    ensures arrive { OnlyRefuses moving (Event.Arrive 2 1) Refusal.Unknown }
    ensures deliver { OnlyRefuses unflushed (Event.Deliver 1 1 1 2) Refusal.Unknown }
    ensures trim { OnlyRefuses unflushed (Event.Trim 2) Refusal.Unknown }
    ensures page_step { OnlyRefuses unflushed (Event.PageStep 2 1 0) Refusal.Unknown }
    ensures reset_step { OnlyRefuses unflushed (Event.ResetStep 2) Refusal.Unknown }
    ensures sender { OnlyRefuses unflushed (Event.Deliver 2 1 1 1) Refusal.Unknown }
    ensures last_node { Never unflushed (Event.FlushStep 1) (Reply.Refused Refusal.Unknown) }
{}

/// A thread outside the geometry is unknown to each event of a thread.
pub fn unknown_threads()
    ensures begin { OnlyRefuses unflushed (Event.Begin 0 2 (1 ∷ []) []) Refusal.Unknown }
    ensures set_range { OnlyRefuses reading (Event.SetRange 0 2 1 0 1) Refusal.Unknown }
    ensures write { OnlyRefuses reading (Event.Write 0 2 1 1 (5 ∷ [])) Refusal.Unknown }
    ensures read { OnlyRefuses reading (Event.Read 0 2 1 0 1) Refusal.Unknown }
    ensures abort { OnlyRefuses reading (Event.Abort 0 2) Refusal.Unknown }
    ensures reserve { OnlyRefuses reading (Event.Reserve 0 2) Refusal.Unknown }
    ensures close { OnlyRefuses busy (Event.Close 0 2) Refusal.Unknown }
    ensures last_thread { Never reading (Event.Abort 0 1) (Reply.Refused Refusal.Unknown) }
{}

/// A segment past the last is unknown to each event that names one, also among those that are only to be read.
pub fn unknown_segments()
    ensures begin { OnlyRefuses unflushed (Event.Begin 0 1 (3 ∷ []) []) Refusal.Unknown }
    ensures begin_reading { OnlyRefuses unflushed (Event.Begin 0 1 [] (3 ∷ [])) Refusal.Unknown }
    ensures set_range { OnlyRefuses reading (Event.SetRange 0 1 3 0 1) Refusal.Unknown }
    ensures write { OnlyRefuses reading (Event.Write 0 1 3 1 (5 ∷ [])) Refusal.Unknown }
    ensures read { OnlyRefuses reading (Event.Read 0 1 3 0 1) Refusal.Unknown }
    ensures leave { OnlyRefuses unflushed (Event.Leave 0 3) Refusal.Unknown }
    ensures arrive { OnlyRefuses moving (Event.Arrive 0 3) Refusal.Unknown }
    ensures deliver { OnlyRefuses unflushed (Event.Deliver 1 1 3 0) Refusal.Unknown }
    ensures page_step { OnlyRefuses unflushed (Event.PageStep 0 3 0) Refusal.Unknown }
    ensures among_others { OnlyRefuses unflushed (Event.Begin 0 1 (2 ∷ []) (3 ∷ 2 ∷ [])) Refusal.Unknown }
    ensures last_segment { Never unflushed (Event.Begin 0 1 (2 ∷ []) []) (Reply.Refused Refusal.Unknown) }
{}

/// There is no segment 0, to none of these events.
pub fn unknown_segment_zero()
    ensures begin { OnlyRefuses unflushed (Event.Begin 0 1 (0 ∷ []) []) Refusal.Unknown }
    ensures begin_reading { OnlyRefuses unflushed (Event.Begin 0 1 [] (0 ∷ [])) Refusal.Unknown }
    ensures set_range { OnlyRefuses reading (Event.SetRange 0 1 0 0 1) Refusal.Unknown }
    ensures write { OnlyRefuses reading (Event.Write 0 1 0 1 (5 ∷ [])) Refusal.Unknown }
    ensures read { OnlyRefuses reading (Event.Read 0 1 0 0 1) Refusal.Unknown }
    ensures leave { OnlyRefuses unflushed (Event.Leave 0 0) Refusal.Unknown }
    ensures arrive { OnlyRefuses moving (Event.Arrive 0 0) Refusal.Unknown }
    ensures deliver { OnlyRefuses unflushed (Event.Deliver 1 1 0 0) Refusal.Unknown }
    ensures page_step { OnlyRefuses unflushed (Event.PageStep 0 0 0) Refusal.Unknown }
    ensures first_segment { Never unflushed (Event.Begin 1 1 (1 ∷ []) []) (Reply.Refused Refusal.Unknown) }
{}

/// A page past the last of a segment is unknown.
pub fn unknown_pages()
    ensures page { OnlyRefuses unflushed (Event.PageStep 0 1 1) Refusal.Unknown }
    ensures last_page { Never unflushed (Event.PageStep 0 1 0) (Reply.Refused Refusal.Unknown) }
{}

/// Each event of a halted node is refused, whatever it would be answered otherwise.
pub fn halted_nodes()
    ensures begin { OnlyRefuses (halting unflushed 0) (Event.Begin 0 1 (2 ∷ []) []) Refusal.Halted }
    ensures set_range { OnlyRefuses (halting reading 0) (Event.SetRange 0 1 1 0 1) Refusal.Halted }
    ensures write { OnlyRefuses (halting reading 0) (Event.Write 0 1 1 1 (5 ∷ [])) Refusal.Halted }
    ensures read { OnlyRefuses (halting reading 0) (Event.Read 0 1 1 0 1) Refusal.Halted }
    ensures abort { OnlyRefuses (halting reading 0) (Event.Abort 0 1) Refusal.Halted }
    ensures reserve { OnlyRefuses (halting reading 0) (Event.Reserve 0 1) Refusal.Halted }
    ensures close { OnlyRefuses (halting busy 0) (Event.Close 0 0) Refusal.Halted }
    ensures flush_step { OnlyRefuses (halting unflushed 0) (Event.FlushStep 0) Refusal.Halted }
    ensures leave { OnlyRefuses (halting unflushed 0) (Event.Leave 0 1) Refusal.Halted }
    ensures arrive { OnlyRefuses (halting moving 0) (Event.Arrive 0 1) Refusal.Halted }
    ensures deliver { OnlyRefuses (halting unflushed 0) (Event.Deliver 1 1 1 0) Refusal.Halted }
    ensures trim { OnlyRefuses (halting unflushed 0) (Event.Trim 0) Refusal.Halted }
    ensures page_step { OnlyRefuses (halting unflushed 0) (Event.PageStep 0 1 0) Refusal.Halted }
    ensures reset_step { OnlyRefuses (halting unflushed 0) (Event.ResetStep 0) Refusal.Halted }
    ensures other_node { Never (halting unflushed 1) (Event.FlushStep 0) (Reply.Refused Refusal.Halted) }
{}

/// A delivery from a halted node goes on, and one to it is refused.
pub fn halted_deliveries()
    ensures from_halted { May (halting unflushed 0) (Event.Deliver 0 1 1 1) Reply.HeldBack (halting unflushed 0) }
    ensures not_halted { Never (halting unflushed 0) (Event.Deliver 0 1 1 1) (Reply.Refused Refusal.Halted) }
    ensures to_halted { OnlyRefuses (halting unflushed 1) (Event.Deliver 0 1 1 1) Refusal.Halted }
    ensures both_halted { OnlyRefuses (halting (halting unflushed 0) 1) (Event.Deliver 0 1 1 1) Refusal.Halted }
    ensures unknown_first { OnlyRefuses (halting unflushed 1) (Event.Deliver 2 1 1 1) Refusal.Unknown }
{}
