//! A reply as C reads it.
ghost use Rattle.std.specs.Prelude.{◌≡◌, ℕ, List};
ghost use Rattle.lc_model.specs.declared.reply.Reply.TheVariants.{Bytes, Ok as IsDone};
ghost use Rattle.lc_c.specs.Answer.{answer_of, of_refusal, of_reply, nothing_said};

use lc_core::{Refusal, Reply};
use std::alloc::AllocError;

/// The status where all is done.
pub(crate) const DONE: u32 = 0;

/// The status where there is no memory.
pub(crate) const NO_MEMORY: u32 = 64;

/// What a store answers: a status, which is 0, the number of the refusal, or 64 where there is no memory; which reply
/// it is; and what belongs to it. What does not is 0.
#[repr(C)]
#[derive(Clone, Copy, Drop)]
pub struct Answer {
    pub status: u32,
    /// Done 0, reserved 1, ended 2, stepped 3, acknowledged 4, nothing to do 5, applied 6, held back 7, ignored 8,
    /// trimmed 9, written 10, reset 11, recovered 12, read 13, down 14.
    pub reply: u32,
    /// Of a refusal whose area is not always there.
    pub has_area: bool,
    pub segment: u32,
    pub area: u32,
    pub words: u32,
    pub tail: u32,
    pub need: u32,
    pub place: u32,
    pub sequence: u64,
    pub applied: u64,
    /// How many steps, records or rounds, or the number that a page or a segment has now.
    pub count: u64,
}

impl Answer {
    /// What there was no memory for, or else the reply.
    pub(crate) fn of(said: &Result<Reply, AllocError>) -> Answer
        ensures { result ≡ answer_of said.now }
    {
        match said {
            Ok(reply) => Answer::of_reply(reply),
            Err(_) => Answer {
                status: NO_MEMORY,
                ..Answer::nothing()
            },
        }
    }

    /// It is done.
    pub(crate) fn of_done() -> Answer
        ensures { result ≡ of_reply IsDone }
    {
        Answer::of_reply(&Reply::Ok)
    }

    /// Bytes were read.
    pub(crate) fn of_bytes() -> Answer
        ensures { (bytes : List ℕ) → result ≡ of_reply (Bytes bytes) }
    {
        Answer::counted(13, 0)
    }

    // All 0.
    fn nothing() -> Answer
        ensures { result ≡ nothing_said }
    {
        Answer {
            status: DONE,
            reply: 0,
            has_area: false,
            segment: 0,
            area: 0,
            words: 0,
            tail: 0,
            need: 0,
            place: 0,
            sequence: 0,
            applied: 0,
            count: 0,
        }
    }

    // A reply of this number, which counts so many.
    fn counted(reply: u32, count: u64) -> Answer
        ensures { result ≡ record nothing_said { reply = reply; count = count } }
    {
        Answer {
            reply,
            count,
            ..Answer::nothing()
        }
    }

    fn of_reply(reply: &Reply) -> Answer
        ensures { result ≡ of_reply reply.now }
    {
        match reply {
            Reply::Ok => Answer::counted(0, 0),
            Reply::Reserved { place, words } => Answer {
                reply: 1,
                place: *place,
                words: *words,
                ..Answer::nothing()
            },
            Reply::Ended => Answer::counted(2, 0),
            Reply::Stepped(steps) => Answer::counted(3, *steps),
            Reply::Acked(records) => Answer::counted(4, *records),
            Reply::Nothing => Answer::counted(5, 0),
            Reply::Applied(number) => Answer::counted(6, *number),
            Reply::HeldBack => Answer::counted(7, 0),
            Reply::Ignored => Answer::counted(8, 0),
            Reply::Trimmed(records) => Answer::counted(9, *records),
            Reply::Written(number) => Answer::counted(10, *number),
            Reply::Reset => Answer::counted(11, 0),
            Reply::Recovered => Answer::counted(12, 0),
            Reply::Bytes(_) => Answer::counted(13, 0),
            Reply::Down => Answer::counted(14, 0),
            Reply::Refused(refusal) => Answer::of_refusal(*refusal),
        }
    }

    /// A refusal, with its fields.
    pub(crate) fn of_refusal(refusal: Refusal) -> Answer
        ensures { result ≡ of_refusal refusal }
    {
        let plain = Answer {
            status: refusal.code() as u32,
            ..Answer::nothing()
        };
        match refusal {
            Refusal::Busy { segment }
            | Refusal::NotHere { segment }
            | Refusal::SequenceSpent { segment }
            | Refusal::ReadOnly { segment } => Answer { segment, ..plain },
            Refusal::OutOfSegment { area: Some(area) } => Answer {
                has_area: true,
                area,
                ..plain
            },
            Refusal::TooLong { words } => Answer { words, ..plain },
            Refusal::Full { tail, need } => Answer {
                tail,
                need,
                ..plain
            },
            Refusal::Behind { applied, seq } => Answer {
                applied,
                sequence: seq,
                ..plain
            },
            Refusal::Unclean { segment, seq }
            | Refusal::Twice { segment, seq }
            | Refusal::Gap { segment, seq } => Answer {
                segment,
                sequence: seq,
                ..plain
            },
            Refusal::BadGeometry { area } => Answer { area, ..plain },
            _ => plain,
        }
    }
}
