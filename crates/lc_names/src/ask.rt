//! A work that asks a table of names.
ghost use Rattle.lc_names.specs.Ask.{Asks};

use crate::deciding::decide;
use crate::name_entry::ENTRY;
use crate::{NameAnswer, NameCommand, NameFault};
use lc_node::{Put, Work};
use lc_tx::{Images, Tx, TxFault};
use std::alloc::Global;

/// The segment that has the table.
pub const SEGMENT: u32 = 1;

/// Asks the table of names in the first `len` bytes of segment 1; the answer stands in `answer` after a run that was
/// not refused.
#[derive(Drop)]
pub struct Ask<'a> {
    pub len: u32,
    pub command: NameCommand<'a>,
    pub answer: Option<Result<NameAnswer, NameFault>>,
}

impl Work for Ask<'_> {
    ghost ran = { Asks };

    /// # Errors
    ///
    /// Those of `Tx::read`, and of a change those of `Tx::set_range` and `Tx::write`; `NoMemory` too where there is
    /// none for the answer, which only `Find` and `List` want. What was answered is then as before.
    fn run<I: Images>(
        &mut self,
        alloc: Global,
        tx: &mut Tx,
        images: &mut I,
    ) -> Result<(), TxFault> {
        let table = tx.read(alloc, images, SEGMENT, 0, self.len)?;
        let (change, answer) = decide(alloc, &table, &self.command).map_err(|_| TxFault::NoMemory)?;
        if let Some(change) = change {
            let mut put = Put {
                segment: SEGMENT,
                offset: (ENTRY * change.0) as u32,
                bytes: &change.1,
            };
            put.run(alloc, tx, images)?;
        }
        self.answer = Some(answer);
        Ok(())
    }
}
