//! What is sent on a line.
ghost use Rattle.std.specs.Prelude.{◌≡◌, ◌++◌, ◌∷◌, [], OnOk, OnErr, IfErr};
ghost use Rattle.lc_line.specs.Ends.{sent_on, message_of, line_to, IsFull, WasFull};

use crate::pass_view::Sent;
use crate::{Refused, SendEnd};
use crossbeam_channel::TrySendError;
use std::sync::Wait;

impl<T: Drop> SendEnd<T> {
    /// Sends a message after those that were sent, or hands it back: Full only where `ROOM` messages that were sent
    /// were not taken at one moment of the call. It waits for no message to be taken, and takes no memory.
    pub fn send<R: Wait>(&mut self, rt: &R, message: T) -> Result<(), Refused<T>>
        ensures sent { OnOk result (sent_on self.new ≡ sent_on self.old ++ message ∷ []) }
        ensures none { OnErr result (sent_on self.new ≡ sent_on self.old) }
        ensures back { IfErr result (λ refused. message_of refused ≡ message) }
        ensures full { IfErr result (λ refused. IsFull refused → WasFull self.old) }
        ensures line { line_to self.new ≡ line_to self.old }
    {
        match self.to.try_send_as::<Sent, R>(rt, &mut self.pass, message) {
            Ok(()) => Ok(()),
            Err(TrySendError::Full(back)) => Err(Refused::Full(back)),
            Err(TrySendError::Disconnected(back)) => Err(Refused::Gone(back)),
            Err(TrySendError::OutOfMemory(_)) => unreachable!(),
        }
    }
}
