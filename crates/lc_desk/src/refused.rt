//! What a node answers where a transaction refused.
ghost use Rattle.std.specs.Prelude.{◌≡◌, ◌≢◌, IsErr, Ok, Some, MatchOption};
ghost use Rattle.lc_model.specs.declared.reply.Reply.TheVariants.{Refused};
ghost use Rattle.lc_desk.specs.Refused.{refusal_of};

use lc_model::{Refusal, Reply};
use lc_tx::TxFault;
use std::alloc::AllocError;

/// The refusal to what a transaction refused for another reason than want of memory.
pub(crate) fn refusal_of(fault: TxFault) -> Refusal
    requires { fault ≢ TxFault.NoMemory }
    ensures { refusal_of fault ≡ Some result }
{
    match fault {
        TxFault::Busy { segment } => Refusal::Busy { segment },
        TxFault::NotHere { segment } => Refusal::NotHere { segment },
        TxFault::NoRange => Refusal::NoRange,
        TxFault::OutOfSegment => Refusal::OutOfSegment { area: None },
        TxFault::NotLocked => Refusal::NotLocked,
        TxFault::NoMemory => unreachable!(),
        TxFault::TooLong { words } => Refusal::TooLong { words },
        TxFault::SequenceSpent { segment } => Refusal::SequenceSpent { segment },
        TxFault::EmptyRange => Refusal::EmptyRange,
        TxFault::TooManyRanges => Refusal::TooManyRanges,
        TxFault::ReadOnly { segment } => Refusal::ReadOnly { segment },
    }
}

/// The reply to what a transaction refused.
pub(crate) fn refused(fault: TxFault) -> Result<Reply, AllocError>
    ensures { MatchOption (refusal_of fault) (IsErr result) (λ refusal. result ≡ Ok (Refused refusal)) }
{
    match fault {
        TxFault::NoMemory => Err(AllocError),
        _ => Ok(Reply::Refused(refusal_of(fault))),
    }
}
