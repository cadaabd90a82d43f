//! What a service does at a node.
ghost use Rattle.lc_committer.specs.Round.{IsUnkept, WasKept};

use crate::Upkeep;
use crate::round::Round;
use lc_disk::Area;
use lc_node::{Node, NodeFault};
use std::sync::Wait;

impl<D: Area + Drop> Round for Node<D> {
    ghost kept = { WasKept D.Area };

    ghost unkept = { IsUnkept D.Area };

    fn round<R: AllocGlobal + Wait>(&self, rt: &R, upkeep: &Upkeep) -> Result<(), NodeFault> {
        self.flush(rt)?;
        if !upkeep.is_due(self.stable_words(rt), self.geometry().words) {
            return Ok(());
        }
        match self.truncate(rt, rt.alloc()) {
            Err(NodeFault::DeviceFault) => Err(NodeFault::DeviceFault),
            Err(NodeFault::Halted) => Err(NodeFault::Halted),
            _ => Ok(()),
        }
    }
}
