//! A work that puts bytes into a segment.
ghost use Rattle.std.specs.Prelude.{◌≡◌};
ghost use Rattle.lc_segments.specs.Put.{Puts};

use crate::work::Work;
use lc_tx::{Images, Tx, TxFault};
use std::alloc::Global;

/// Sets the range of these bytes in a segment and writes them.
#[derive(Clone, Copy)]
pub struct Put<'a> {
    pub segment: u32,
    pub offset: u32,
    pub bytes: &'a [u8],
}

impl Work for Put<'_> {
    ghost ran = { λ old new locked before set answer after sets. (new ≡ old)
        × Puts old locked before set answer after sets };

    /// # Errors
    ///
    /// Those of `Tx::set_range`, and of `Tx::write`; `OutOfSegment` too where there are more bytes than a segment may
    /// have.
    fn run<I: Images>(
        &mut self,
        alloc: Global,
        tx: &mut Tx,
        images: &mut I,
    ) -> Result<(), TxFault> {
        let Ok(len) = u32::try_from(self.bytes.len()) else {
            return Err(TxFault::OutOfSegment);
        };
        tx.set_range(images, self.segment, self.offset, len)?;
        tx.write(images, self.segment, self.offset, self.bytes)
    }
}
