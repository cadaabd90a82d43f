//! The ends of a line.
ghost use Rattle.std.specs.Prelude.{◌≡◌, true};
ghost use Rattle.crossbeam_channel.specs.Claims.{view, IsSeatAt};
ghost use Rattle.crossbeam_channel.specs.Ends.{sends_on, receives_on, ruled_capacity};

use crate::pass_view::{InOrder, PassView};
use crossbeam_channel::{Pass, RuledReceiver, RuledSender};

/// The sending end of a line, which knows what was sent on it (`sent_on`). There is one of each line. What is known
/// takes no memory. This project's own.
#[derive(Drop)]
pub struct SendEnd<T: Drop> {
    pub(crate) to: RuledSender<T, PassView<T>, InOrder>,
    pub(crate) pass: Pass<T, PassView<T>>,
    ghost seat: { IsSeatAt (sends_on to) pass },
    ghost sends: { (view pass).sends ≡ true },
    ghost room: { ruled_capacity (sends_on to) ≡ 64 },
}

/// The receiving end of a line, which knows what was taken from it (`taken_from`). There is one of each line.
#[derive(Drop)]
pub struct RecvEnd<T: Drop> {
    pub(crate) from: RuledReceiver<T, PassView<T>, InOrder>,
    pub(crate) pass: Pass<T, PassView<T>>,
    ghost seat: { IsSeatAt (receives_on from) pass },
    ghost takes: { (view pass).takes ≡ true },
}

/// A line on which nothing more is sent, with what is still to be taken from it (`rest_of`). Messages that are left in
/// it are dropped with it.
#[derive(Drop)]
pub struct Rest<T: Drop> {
    pub(crate) from: RuledReceiver<T, PassView<T>, InOrder>,
    pub(crate) pass: Pass<T, PassView<T>>,
    ghost seat: { IsSeatAt (receives_on from) pass },
    ghost sends: { (view pass).sends ≡ true },
    ghost takes: { (view pass).takes ≡ true },
}
