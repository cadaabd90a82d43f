//! How the log of a node is emptied, a device call at a time.
ghost use Rattle.std.specs.Prelude.{◌≡◌};
ghost use Rattle.lc_c.specs.Truncating.{Truncates, TruncatesStage, going_on};

use crate::session::Session;
use crate::session_state::SessionState;
use lc_core::{Reply, Truncation, TruncationStep};
use std::alloc::Global;

impl Session {
    /// The next device call of a truncation of a node's log: of that which is under way there, or else of a new one. It
    /// answers that more is to come, or the last reply. It takes no memory.
    pub(crate) fn truncate_step(&mut self, alloc: Global, node: u16) -> Reply
        ensures { Truncates node self.old result self.new }
    {
        let truncation = going_on(self.truncation, node);
        match self.stage.truncate_step(alloc, truncation) {
            TruncationStep::Continues(next) => {
                self.truncation = Some(next);
                Reply::Stepped(0)
            }
            TruncationStep::Ends(reply) => {
                self.truncation = None;
                reply
            }
        }
    }
}

impl SessionState {
    // The next device call of a truncation; a store that is not open refuses it.
    fn truncate_step(&mut self, alloc: Global, truncation: Truncation) -> TruncationStep
        ensures { TruncatesStage self.old truncation result self.new }
    {
        match self {
            SessionState::Open(world) => world.truncate_step(alloc, truncation),
            stage => TruncationStep::Ends(Reply::Refused(stage.refusal())),
        }
    }
}

// That which is under way at the node, or else a new one.
fn going_on(truncation: Option<Truncation>, node: u16) -> Truncation
    ensures { result ≡ going_on truncation node }
{
    match truncation {
        Some(truncation) if truncation.node() == node => truncation,
        _ => Truncation::new(node),
    }
}
