//! What a service does each time.
ghost use Rattle.std.specs.Prelude.{IfErr, OnOk};

use crate::Upkeep;
use lc_node::NodeFault;
use std::sync::Wait;

/// What is kept in order, a round at a time.
pub(crate) trait Round {
    ghost use Rattle.lc_segments.specs.declared.node_fault.NodeFault.{NodeFault};
    ghost use Rattle.lc_committer.specs.declared.upkeep.Upkeep.{Upkeep};

    /// What one round did.
    ghost kept: { Upkeep → Self → Type 0 };

    /// For which fault a round ended.
    ghost unkept: { Self → NodeFault → Type 0 };

    /// Flushes what is closed, and does what else is due. What is refused is asked for again by the next round.
    ///
    /// # Errors
    ///
    /// `Halted` where a device failed before, and `DeviceFault` where it fails now.
    fn round<R: AllocGlobal + Wait>(&self, rt: &R, upkeep: &Upkeep) -> Result<(), NodeFault>
        ensures kept { OnOk result (kept upkeep.now self.now) }
        ensures refused { IfErr result (unkept self.now) };
}
