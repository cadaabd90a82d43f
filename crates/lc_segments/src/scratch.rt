//! What a commit works with.
ghost use Rattle.std.specs.Prelude.{◌≡◌, []};
ghost use Rattle.lc_tx.specs.Tx.{IsIdle};

use crate::lent::LentSlot;
use lc_tx::Tx;
use std::alloc::Global;

/// A transaction that is idle, the words of a record and the slots of images, kept from one commit to the next, so
/// that a commit takes no memory where one before it was as large.
#[derive(Drop)]
pub struct Scratch {
    pub tx: Tx,
    pub words: Vec<u64>,
    pub slots: Vec<LentSlot>,
    ghost idle: { IsIdle tx },
    ghost empty: { slots.items ≡ [] },
}

impl Scratch {
    /// One that takes no memory.
    pub fn new(alloc: Global) -> Scratch {
        Scratch {
            tx: Tx::idle(alloc),
            words: Vec::new(alloc),
            slots: Vec::new(alloc),
        }
    }
}
