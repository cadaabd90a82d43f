//! What the plain machine lets a page write, a reset and a trim answer: they change nothing but by a fault.
ghost use Rattle.std.specs.Prelude.{◌≡◌, ℕ};
ghost use Rattle.lc_model.specs.State.{State};
ghost use Rattle.lc_model.specs.Machine.{halting};
ghost use Rattle.lc_model.specs.Examples.{half_closed, May, Never, Refuses};

use crate::{Event, Refusal, Reply};

/// A page write may have these answers and not those, and a fault in it halts the node and does no more.
pub fn page_steps()
    ensures first_step { May half_closed (Event.PageStep 0 1 0) (Reply.Stepped 1) half_closed }
    ensures last_step { May half_closed (Event.PageStep 0 1 0) (Reply.Stepped 5) half_closed }
    ensures no_step_before { Never half_closed (Event.PageStep 0 1 0) (Reply.Stepped 0) }
    ensures no_step_behind { Never half_closed (Event.PageStep 0 1 0) (Reply.Stepped 6) }
    ensures written { (number : ℕ) → May half_closed (Event.PageStep 0 1 0) (Reply.Written number) half_closed }
    ensures not_here { May half_closed (Event.PageStep 0 1 0) (Reply.Refused (Refusal.NotHere 1)) half_closed }
    ensures uncommitted { May half_closed (Event.PageStep 0 1 0) (Reply.Refused Refusal.Uncommitted) half_closed }
    ensures unflushed { May half_closed (Event.PageStep 0 1 0) (Reply.Refused Refusal.Unflushed) half_closed }
    ensures not_newer { May half_closed (Event.PageStep 0 1 0) (Reply.Refused Refusal.NotNewer) half_closed }
    ensures not_nothing { Never half_closed (Event.PageStep 0 1 0) Reply.Nothing }
    ensures not_reset { Never half_closed (Event.PageStep 0 1 0) Reply.Reset }
    ensures not_writing { Never half_closed (Event.PageStep 0 1 0) (Reply.Refused Refusal.Writing) }
    ensures not_unclean { Never half_closed (Event.PageStep 0 1 0) (Reply.Refused (Refusal.Unclean 1 2)) }
    ensures fault_halts { May half_closed (Event.PageStep 0 1 0) (Reply.Refused Refusal.DeviceFault)
        (halting half_closed 0) }
    ensures fault_does_no_more { (new : State) →
        May half_closed (Event.PageStep 0 1 0) (Reply.Refused Refusal.DeviceFault) new → new ≡ halting half_closed 0 }
    ensures fault_does_no_less { Refuses half_closed (Event.PageStep 0 1 0) Refusal.DeviceFault → ⊥ }
    ensures nothing_changes { (new : State) →
        May half_closed (Event.PageStep 0 1 0) (Reply.Written 2) new → new ≡ half_closed }
{}

/// A reset may have these answers and not those, and a fault in it halts the node and does no more.
pub fn reset_steps()
    ensures first_step { May half_closed (Event.ResetStep 0) (Reply.Stepped 1) half_closed }
    ensures last_step { May half_closed (Event.ResetStep 0) (Reply.Stepped 3) half_closed }
    ensures no_step_before { Never half_closed (Event.ResetStep 0) (Reply.Stepped 0) }
    ensures no_step_behind { Never half_closed (Event.ResetStep 0) (Reply.Stepped 4) }
    ensures reset { May half_closed (Event.ResetStep 0) Reply.Reset half_closed }
    ensures nothing { May half_closed (Event.ResetStep 0) Reply.Nothing half_closed }
    ensures unflushed { May half_closed (Event.ResetStep 0) (Reply.Refused Refusal.Unflushed) half_closed }
    ensures unclean { May half_closed (Event.ResetStep 0) (Reply.Refused (Refusal.Unclean 1 2)) half_closed }
    ensures rounds_spent { May half_closed (Event.ResetStep 0) (Reply.Refused Refusal.RoundsSpent) half_closed }
    ensures not_written { Never half_closed (Event.ResetStep 0) (Reply.Written 2) }
    ensures not_ok { Never half_closed (Event.ResetStep 0) Reply.Ok }
    ensures not_sealed { Never half_closed (Event.ResetStep 0) (Reply.Refused Refusal.Sealed) }
    ensures not_not_here { Never half_closed (Event.ResetStep 0) (Reply.Refused (Refusal.NotHere 1)) }
    ensures fault_halts { May half_closed (Event.ResetStep 0) (Reply.Refused Refusal.DeviceFault)
        (halting half_closed 0) }
    ensures fault_does_no_more { (new : State) →
        May half_closed (Event.ResetStep 0) (Reply.Refused Refusal.DeviceFault) new → new ≡ halting half_closed 0 }
    ensures fault_does_no_less { Refuses half_closed (Event.ResetStep 0) Refusal.DeviceFault → ⊥ }
    ensures nothing_changes { (new : State) → May half_closed (Event.ResetStep 0) Reply.Reset new → new ≡ half_closed }
{}

/// A trim counts what it drops, and has no refusal but those that are common to all events.
pub fn trims()
    ensures none { May half_closed (Event.Trim 0) (Reply.Trimmed 0) half_closed }
    ensures some { May half_closed (Event.Trim 0) (Reply.Trimmed 1) half_closed }
    ensures no_refusal { (refusal : Refusal) →
        Never half_closed (Event.Trim 0) (Reply.Refused refusal) }
    ensures no_step { Never half_closed (Event.Trim 0) (Reply.Stepped 1) }
{}
