//! What the calls of a store hand out, as the replies of their events.
ghost use Rattle.std.specs.Prelude.{◌≡◌, IfOk, OnErr, Err, Some};
ghost use Rattle.lc_events.specs.Answered.{flushed, place_taken};
ghost use Rattle.lc_events.specs.declared.call_fault.CallFault.TheVariants.{NoMemory};

use lc_core::{CallFault, FlushProgress, Placement, Refusal, Reply};
use std::alloc::AllocError;

/// Of a flush.
pub(crate) fn flush_reply(progress: Result<FlushProgress, Refusal>) -> Reply
    ensures { result ≡ flushed progress }
{
    match progress {
        Ok(FlushProgress::Stepped(calls)) => Reply::Stepped(calls),
        Ok(FlushProgress::Acked(count)) => Reply::Acked(count),
        Ok(FlushProgress::Nothing) => Reply::Nothing,
        Err(refusal) => Reply::Refused(refusal),
    }
}

/// Of a transaction that is ended. Where memory was wanted there is none.
pub(crate) fn end_reply(placed: Result<Placement, CallFault>) -> Result<Reply, AllocError>
    ensures reply { IfOk result (λ reply. place_taken placed ≡ Some reply) }
    ensures memory { OnErr result (placed ≡ Err NoMemory) }
{
    match placed {
        Ok(Placement::Record { place, words }) => Ok(Reply::Reserved { place, words }),
        Ok(Placement::Empty) => Ok(Reply::Ended),
        Err(CallFault::Refused(refusal)) => Ok(Reply::Refused(refusal)),
        Err(CallFault::NoMemory) => Err(AllocError),
    }
}
