//! What a step of a recovery answers.
ghost use Rattle.std.specs.Prelude.{◌≡◌, Ok, IsErr, MatchOption};
ghost use Rattle.lc_model.specs.declared.reply.Reply.TheVariants.{Refused};
ghost use Rattle.lc_recover.specs.Fault.{refusal_to};
ghost use Rattle.lc_core.specs.Recovering.{RepliesTo};

use lc_model::Reply;
use lc_recover::{Progress, RecoverFault};
use std::alloc::AllocError;

/// The reply to how far a recovery has come, or to why it has stopped.
pub(crate) fn reply_to(step: Result<Progress, RecoverFault>) -> Result<Reply, AllocError>
    ensures { RepliesTo step result }
{
    match step {
        Ok(Progress::Stepped(steps)) => Ok(Reply::Stepped(steps)),
        Ok(Progress::Recovered) => Ok(Reply::Recovered),
        Err(fault) => fault_reply(fault),
    }
}

/// The reply to why a recovery has stopped.
pub(crate) fn fault_reply(fault: RecoverFault) -> Result<Reply, AllocError>
    ensures { MatchOption (refusal_to fault) (IsErr result) (λ refusal. result ≡ Ok (Refused refusal)) }
{
    match fault.refusal() {
        Some(refusal) => Ok(Reply::Refused(refusal)),
        None => Err(AllocError),
    }
}
