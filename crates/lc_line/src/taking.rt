//! What is taken from a line.
ghost use Rattle.std.specs.Prelude.{◌≡◌, ◌++◌, ◌∷◌, [], MatchOption};
ghost use Rattle.lc_line.specs.Ends.{taken_from, line_from};

use crate::RecvEnd;
use crate::pass_view::Taken;
use std::sync::Wait;

impl<T: Drop> RecvEnd<T> {
    /// Takes the message that was sent first of those on their way; `None` where there was none at one moment of the
    /// call, which no clause says, since this end does not know what was sent. It waits for no message to be sent, and
    /// takes no memory.
    pub fn take<R: Wait>(&mut self, rt: &R) -> Option<T>
        ensures taken { MatchOption result (taken_from self.new ≡ taken_from self.old) (λ message. taken_from self.new
            ≡ taken_from self.old ++ message ∷ []) }
        ensures line { line_from self.new ≡ line_from self.old }
    {
        self.from.try_recv_as::<Taken, R>(rt, &mut self.pass).ok()
    }
}
