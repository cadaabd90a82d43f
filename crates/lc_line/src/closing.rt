//! A line whose ends are in one hand.
ghost use Rattle.std.specs.Prelude.{◌≡◌, ◌≤◌, ◌++◌, ◌∷◌, [], length, MatchOption};
ghost use Rattle.lc_line.specs.Ends.{sent_on, taken_from, rest_of, line_to, line_from};

use crate::pass_view::{Roles, Total};
use crate::{RecvEnd, Rest, SendEnd};
use std::sync::Wait;

/// Ends the sending on a line: what was taken is what was sent first, and the rest, at most `ROOM` messages, can still
/// be taken.
pub fn close_line<T: Drop>(to: SendEnd<T>, from: RecvEnd<T>) -> Rest<T>
    requires line { line_from from ≡ line_to to }
    ensures rest { sent_on to ≡ taken_from from ++ rest_of result }
    ensures room { length (rest_of result) ≤ 64 }
{
    let SendEnd { to, mut pass } = to;
    let RecvEnd { from, pass: other } = from;
    to.absorb::<Roles>(&mut pass, other);
    to.learn_as::<Total>(&mut pass);
    Rest { from, pass }
}

impl<T: Drop> Rest<T> {
    /// Takes the first message of the rest; `None` exactly where none is left.
    pub fn take<R: Wait>(&mut self, rt: &R) -> Option<T>
        ensures { MatchOption result ((rest_of self.old ≡ []) × (rest_of self.new ≡ [])) (λ message. rest_of self.old
            ≡ message ∷ rest_of self.new) }
    {
        self.from.try_recv_as::<Total, R>(rt, &mut self.pass).ok()
    }
}
