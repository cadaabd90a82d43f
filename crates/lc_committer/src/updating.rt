//! What a work that changes bytes does.
ghost use Rattle.lc_committer.specs.Update.{Updates};

use crate::{Change, Update};
use lc_node::Work;
use lc_tx::{Images, Tx, TxFault};
use std::alloc::Global;

impl<C: Change> Work for Update<C> {
    ghost ran = { Updates C.changes };

    /// # Errors
    ///
    /// Those of `Tx::read`, which takes memory for the copy, and of `Tx::set_range`: the change is then as before.
    fn run<I: Images>(
        &mut self,
        alloc: Global,
        tx: &mut Tx,
        images: &mut I,
    ) -> Result<(), TxFault> {
        let mut bytes = tx.read(alloc, images, self.segment, self.offset, self.len)?;
        tx.set_range(images, self.segment, self.offset, self.len)?;
        self.change.change(&mut bytes);
        tx.write(images, self.segment, self.offset, &bytes)
    }
}
