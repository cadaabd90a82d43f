//! What a pass of a line knows, and the rule of a line.
use crossbeam_channel::protocol::{Join, Lesson, Outcome, Protocol, Split};
use std::collections::LinkedList;

/// What a pass may do and what it knows: one that may send has all that was sent, one that may take has all that was
/// taken, oldest first. No value of it is made.
pub struct PassView<T> {
    pub sends: bool,
    pub takes: bool,
    pub sent: LinkedList<T>,
    pub taken: LinkedList<T>,
}

/// What was sent is what was taken and then what is on its way.
pub struct InOrder;

impl<T> Protocol<T, PassView<T>> for InOrder {
    ghost use Rattle.std.specs.Prelude.{true, []};
    ghost use Rattle.lc_line.specs.Order.{log, IsInOrder};

    ghost holds = { IsInOrder };

    ghost first = { log true true [] [] };
}

/// One pass sends and another takes, or one does both.
pub struct Roles;

impl<T> Split<PassView<T>> for Roles {
    ghost use Rattle.std.specs.Prelude.{true, false, []};
    ghost use Rattle.lc_line.specs.Order.{log};

    ghost left = { λ v. log true false v.sent [] };

    ghost right = { λ v. log false true [] v.taken };
}

impl<T> Join<PassView<T>> for Roles {
    ghost use Rattle.std.specs.Prelude.{true, false, []};
    ghost use Rattle.lc_line.specs.Order.{log};

    ghost both = { λ v w. log true true v.sent w.taken };

    ghost spent = { log false false [] [] };
}

/// What a send tells: of the one that is refused, how what was sent ends.
pub struct Sent;

impl<T> Outcome<T, PassView<T>> for Sent {
    ghost use Rattle.lc_line.specs.Order.{Sends};

    ghost then = { Sends };
}

impl<T> Lesson<T, PassView<T>> for Sent {
    ghost use Rattle.lc_line.specs.Order.{EndsWith};

    ghost fact = { EndsWith };
}

/// What a take tells who does not send.
pub struct Taken;

impl<T> Outcome<T, PassView<T>> for Taken {
    ghost use Rattle.lc_line.specs.Order.{Takes};

    ghost then = { Takes };
}

impl<T> Lesson<T, PassView<T>> for Taken {
    ghost use Rattle.std.specs.Prelude.{⊤};

    ghost fact = { λ v waiting. ⊤ };
}

/// What a take and a look tell who both sends and takes.
pub struct Total;

impl<T> Outcome<T, PassView<T>> for Total {
    ghost use Rattle.lc_line.specs.Order.{TakesFirst};

    ghost then = { TakesFirst };
}

impl<T> Lesson<T, PassView<T>> for Total {
    ghost use Rattle.lc_line.specs.Order.{IsTotal};

    ghost fact = { IsTotal };
}
