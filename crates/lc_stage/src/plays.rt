//! What each step on the table tells.
ghost use Rattle.lc_stage.specs.Staging.{knew_durable, knew_stored, joining, seals, clears_one, clears_ended, reopens};
ghost use Rattle.lc_stage.specs.Staging.{hears, note_of, looked, exchanged, put, closed, headed, copied, published};
ghost use Rattle.lc_stage.specs.Staging.{agreed, newcomer, with_commit, no_commit, only_commit};
ghost use Rattle.std.specs.Prelude.{max};

use crate::stage_view::StageView;
use atomic_table::{Join, Play, Split};

pub(crate) struct LoadTail;

impl Play<(), StageView> for LoadTail {
    ghost then = { looked };
}

pub(crate) struct Exchange;

impl Play<(), StageView> for Exchange {
    ghost then = { exchanged };
}

pub(crate) struct FillWord;

impl Play<(), StageView> for FillWord {
    ghost then = { put };
}

pub(crate) struct Shut;

impl Play<(), StageView> for Shut {
    ghost then = { closed };
}

pub(crate) struct Header;

impl Play<(), StageView> for Header {
    ghost then = { headed };
}

pub(crate) struct Copied;

impl Play<(), StageView> for Copied {
    ghost then = { copied };
}

pub(crate) struct Publish;

impl Play<(), StageView> for Publish {
    ghost then = { published };
}

pub(crate) struct Agreed;

impl Play<(), StageView> for Agreed {
    ghost then = { agreed };
}

// A new committer, who has nothing.
pub(crate) struct SplitSeat;

impl Split<StageView> for SplitSeat {
    ghost left = { λ v. v };

    ghost right = { λ v. newcomer v.room };
}

// One committer takes over what another has.
pub(crate) struct Glue;

impl Join<StageView> for Glue {
    ghost both = { joining };

    ghost spent = { newcomer 0 };
}

// The flusher is told which tail a committer saw last.
pub(crate) struct Note;

impl Split<StageView> for Note {
    ghost left = { λ v. v };

    ghost right = { note_of };
}

impl Join<StageView> for Note {
    ghost both = { λ v w. hears (max v.heard w.seen) v };

    ghost spent = { newcomer 0 };
}

// The flusher's seat and a committer's are one for a while.
pub(crate) struct Meeting;

impl Join<StageView> for Meeting {
    ghost both = { with_commit };

    ghost spent = { newcomer 0 };
}

impl Split<StageView> for Meeting {
    ghost left = { no_commit };

    ghost right = { only_commit };
}

pub(crate) struct Learn;

impl Play<(), StageView> for Learn {
    ghost then = { knew_durable };
}

pub(crate) struct LearnStored;

impl Play<(), StageView> for LearnStored {
    ghost then = { knew_stored };
}

pub(crate) struct Seal;

impl Play<(), StageView> for Seal {
    ghost then = { seals };
}

pub(crate) struct Clear;

impl Play<(), StageView> for Clear {
    ghost then = { clears_one };
}

pub(crate) struct ClearEnded;

impl Play<(), StageView> for ClearEnded {
    ghost then = { clears_ended };
}

pub(crate) struct Reopen;

impl Play<(), StageView> for Reopen {
    ghost then = { reopens };
}
