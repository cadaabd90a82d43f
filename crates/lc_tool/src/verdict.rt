//! What became of a command.
ghost use Rattle.std.specs.Prelude.{◌≡◌};

use lc_core::{Refusal, Reply};

/// How a command ended.
#[derive(Clone, Copy)]
pub(crate) enum Verdict {
    Done,
    Refused,
    /// A device has failed.
    Faulted,
}

impl Verdict {
    ghost use Rattle.lc_tool.specs.Verdict.{verdict_of};

    /// By the answer to its last event.
    pub(crate) fn of(reply: &Reply) -> Verdict
        ensures { result ≡ verdict_of reply.now }
    {
        match reply {
            Reply::Refused(Refusal::DeviceFault) => Verdict::Faulted,
            Reply::Refused(_) => Verdict::Refused,
            _ => Verdict::Done,
        }
    }
}
