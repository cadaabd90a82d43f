//! What a caller does in a transaction.
ghost use Rattle.lc_tx.specs.Images.{bytes_of};
ghost use Rattle.lc_tx.specs.Tx.{RunsOn};
ghost use Rattle.lc_segments.specs.Ran.{Tells};
ghost use Rattle.lc_segments.specs.Works.{Works};

use lc_tx::{Images, Tx, TxFault};
use std::alloc::Global;

/// What a caller does in a transaction: it sets ranges, writes and reads, whatever it runs on.
pub trait Work {
    /// What a run makes of the work itself, and, with these segments locked for writing, of the bytes of each and of
    /// the runs that are set, and what it answers, so that a caller knows what was done.
    ghost ran: { Self → Self → Tells };

    /// Runs in a transaction. What is not set has the bytes that it had, also after a refusal.
    fn run<I: Images>(&mut self, alloc: Global, tx: &mut Tx, images: &mut I) -> Result<(), TxFault>
        requires runs { RunsOn I.Images images.old tx.old }
        ensures ran { ran self.old self.new tx.old.locked.items (bytes_of I.Images images.old) tx.old.set result
            (bytes_of I.Images images.new) tx.new.set }
        ensures runs { RunsOn I.Images images.new tx.new }
        ensures works { Works I.Images images.old tx.old images.new tx.new };
}
