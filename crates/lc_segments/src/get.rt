//! A work that gets bytes of a segment.
ghost use Rattle.lc_segments.specs.Get.{Gets};

use crate::work::Work;
use lc_tx::{Images, Tx, TxFault};
use std::alloc::Global;

/// Reads bytes of a segment; they stand in `found` after a run that was not refused.
#[derive(Drop)]
pub struct Get {
    pub segment: u32,
    pub offset: u32,
    pub len: u32,
    pub found: Vec<u8>,
}

impl Work for Get {
    ghost ran = { Gets };

    /// # Errors
    ///
    /// Those of `Tx::read`; what was found is then as before.
    fn run<I: Images>(
        &mut self,
        alloc: Global,
        tx: &mut Tx,
        images: &mut I,
    ) -> Result<(), TxFault> {
        self.found = tx.read(alloc, images, self.segment, self.offset, self.len)?;
        Ok(())
    }
}
