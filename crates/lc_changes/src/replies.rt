//! What is answered of work on images, as the store would.
ghost use Rattle.std.specs.Prelude.{◌≡◌, IfErr, IsTrue};
ghost use Rattle.lc_changes.specs.Replies.{RangeReplied, WriteReplied, refusal_to};
ghost use Rattle.lc_changes.specs.Setting.{is_of_set, is_of_write};

use lc_model::{Refusal, Reply};
use lc_tx::TxFault;
use std::alloc::AllocError;

/// What the store answers to a range that is set or refused so.
pub(crate) fn range_reply(done: Result<(), TxFault>) -> Result<Reply, AllocError>
    requires { IfErr done (λ fault. IsTrue (is_of_set fault)) }
    ensures { RangeReplied done result }
{
    match done {
        Ok(()) => Ok(Reply::Ok),
        Err(TxFault::NoMemory) => Err(AllocError),
        Err(fault) => Ok(Reply::Refused(refusal_to(fault))),
    }
}

/// And to a write.
pub(crate) fn write_reply(done: Result<(), TxFault>) -> Reply
    requires { IfErr done (λ fault. IsTrue (is_of_write fault)) }
    ensures { WriteReplied done result }
{
    match done {
        Ok(()) => Reply::Ok,
        Err(fault) => Reply::Refused(refusal_to(fault)),
    }
}

// The store's refusal for what is refused of images; what is not is out of turn.
fn refusal_to(fault: TxFault) -> Refusal
    ensures { result ≡ refusal_to fault }
{
    match fault {
        TxFault::EmptyRange => Refusal::EmptyRange,
        TxFault::OutOfSegment => Refusal::OutOfSegment { area: None },
        TxFault::TooManyRanges => Refusal::TooManyRanges,
        TxFault::NoRange => Refusal::NoRange,
        _ => Refusal::OutOfTurn,
    }
}
