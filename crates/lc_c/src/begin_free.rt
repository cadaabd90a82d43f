//! How a free thread begins.
ghost use Rattle.std.specs.Prelude.{◌≡◌};
ghost use Rattle.lc_c.specs.BeginsFree.{BeginsFree, is_taken, threads_in};
ghost use Rattle.lc_c.specs.Beside.{IsSameBeside};

use crate::session::Session;
use crate::session_state::SessionState;
use lc_core::{Refusal, Reply};

impl Session {
    /// The threads of a node are asked in their order to begin a transaction, until one is not refused for having one.
    /// It and its answer are told; where all have one these are the last thread, and `OutOfTurn`. It takes no memory.
    pub(crate) fn begin_free(&mut self, node: u16, writing: &[u32], reading: &[u32]) -> (u16, Reply)
        ensures begins { BeginsFree node writing.now reading.now self.old.stage result.0 result.1 self.new.stage }
        ensures beside { IsSameBeside self.old self.new }
    {
        let last = self.threads().saturating_sub(1);
        for thread in 0..last {
            let reply = self.begin(node, thread, writing, reading);
            if !is_taken(&reply) {
                return (thread, reply);
            }
        }
        (last, self.begin(node, last, writing, reading))
    }

    // How many threads each node of a store has that is up.
    fn threads(&self) -> u16
        ensures { result ≡ threads_in self.now.stage }
    {
        match &self.stage {
            SessionState::Open(world) => world.threads(),
            _ => 0,
        }
    }
}

// Whether a begin was refused since the thread has a transaction.
fn is_taken(reply: &Reply) -> bool
    ensures { result ≡ is_taken reply.now }
{
    matches!(reply, Reply::Refused(Refusal::OutOfTurn))
}
