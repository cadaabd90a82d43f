//! What C calls to empty a log.
ghost use Rattle.std.specs.Prelude.{◌≡◌};
ghost use Rattle.lc_c.specs.TruncationCalls.{IsTruncated, TruncatesIf};

use crate::answer::Answer;
use crate::handle::Handle;
use lc_core::{Refusal, Reply};
use std::alloc::Global;

/// The next device call of a truncation of a node's log, which empties it: of that which is under way there, or else of
/// a new one. The reply is 3 where more is to come, and else the last: 11, 5 where the log was empty, or what was
/// refused.
#[unsafe(no_mangle)]
pub extern "C" fn lcrvm_session_truncate_step(
    alloc: Global,
    handle: &mut Handle,
    node: u16,
    answer: &mut Answer,
) -> u32
    ensures truncates { IsTruncated handle.old node answer.new handle.new }
    ensures status { result ≡ answer.new.status }
{
    let said = Ok(truncated(alloc, handle, node));
    *answer = Answer::of(&said);
    answer.status
}

fn truncated(alloc: Global, handle: &mut Handle, node: u16) -> Reply
    ensures truncates { TruncatesIf handle.old.held node handle.old.value result handle.new.value }
    ensures held { handle.new.held ≡ handle.old.held }
{
    if !handle.is_held() {
        return Reply::Refused(Refusal::Down);
    }
    handle.get_mut().truncate_step(alloc, node)
}
