//! A log that serves no more, and whether one may be truncated.
ghost use Rattle.std.specs.Prelude.{◌≡◌, ◌↔◌, false, true, Err, IfErr, OnOk};
ghost use Rattle.lc_log_side.specs.Halting.{IsUntruncatable};
ghost use Rattle.lc_log_side.specs.Resets.{IsSpent};
ghost use Rattle.lc_segments.specs.declared.node_fault.NodeFault.TheVariants.{Halted, RoundsSpent};

use crate::log_side::LogSide;
use crate::log_state::LogState;
use crate::resetting::LAST_ROUND;
use lc_disk::Area;
use lc_segments::NodeFault;
use std::mem;

impl<D: Area + Drop> LogSide<D> {
    /// The log serves no more, since a call on the pages of a segment failed.
    pub(crate) fn halt(&mut self)
        ensures { self.new ≡ record self.old { is_halted = true } }
    {
        self.log = match mem::replace(&mut self.log, LogState::Taken) {
            LogState::Idle(log) => LogState::Stopped(log),
            state => state,
        };
    }

    /// Whether the log may be truncated at all.
    ///
    /// # Errors
    ///
    /// `Halted` exactly where it serves no more, and else `RoundsSpent` exactly where it is in its last round.
    pub fn may_truncate(&self) -> Result<(), NodeFault>
        ensures halted { (result ≡ Err Halted) ↔ (self.now.is_halted ≡ true) }
        ensures spent { (result ≡ Err RoundsSpent) ↔ ((self.now.is_halted ≡ false) × IsSpent self.now) }
        ensures may { OnOk result ((self.now.is_halted ≡ false) × ¬ IsSpent self.now) }
        ensures refused { IfErr result (IsUntruncatable self.now) }
    {
        if self.is_halted() {
            return Err(NodeFault::Halted);
        }
        if self.round == LAST_ROUND {
            return Err(NodeFault::RoundsSpent);
        }
        Ok(())
    }
}
