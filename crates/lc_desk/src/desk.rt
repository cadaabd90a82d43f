//! The images of a node, and the transactions of its threads on them.
ghost use Rattle.std.specs.Prelude.{◌≡◌, ◌<◌, ◌≤◌, ℕ, vec_len, replicate, IfOk, OnErr, true};
ghost use Rattle.lc_model.specs.declared.event.Event.TheVariants.{Abort};
ghost use Rattle.lc_desk.specs.Here.{the_images};
ghost use Rattle.lc_desk.specs.Seats.{AllRun, AreShort};
ghost use Rattle.lc_desk.specs.Slots.{AreInPlace, besides_of};
ghost use Rattle.lc_desk.specs.Seat.{Free};
ghost use Rattle.lc_desk.specs.MayReply.{done_or, is_turn};

use crate::here::Here;
use crate::seat::Seat;
use lc_model::{Refusal, Reply};
use std::alloc::{AllocError, Global};

/// The segments at a node, at most 16, and what each of its threads is doing.
#[derive(Drop)]
pub struct Desk {
    pub here: Here,
    pub(crate) seats: Vec<Seat>,
    // Where the words of the next record are spelled: the memory of one before.
    pub memory: Vec<u64>,
    ghost runs: { AllRun here seats.items },
    ghost few: { vec_len seats ≤ 16 },
    ghost few_slots: { vec_len here.slots ≤ 16 },
    ghost short: { AreShort here },
    ghost in_place: { AreInPlace (besides_of here) },
}

impl Desk {
    ghost use Rattle.lc_desk.specs.FollowsDesk.{FollowsOpen};

    /// The desk of so many threads, from 1 to 16, none of which has a transaction.
    pub fn new(alloc: Global, here: Here, threads: u16) -> Result<Desk, AllocError>
        requires few { threads ≤ 16 }
        requires few_slots { vec_len here.slots ≤ 16 }
        requires short { AreShort here }
        requires in_place { AreInPlace (besides_of here) }
        ensures here { IfOk result (λ desk. desk.here ≡ here) }
        ensures seats { IfOk result (λ desk. desk.seats.items ≡ replicate threads Free) }
        ensures threads { IfOk result (λ desk. vec_len desk.seats ≡ threads) }
        ensures no_memory { OnErr result (0 < threads) }
    {
        let mut seats = Vec::with_capacity(alloc, threads as usize)?;
        for _ in 0..threads {
            seats.push(Seat::new(alloc))?;
        }
        Ok(Desk {
            here,
            seats,
            memory: Vec::new(alloc),
        })
    }

    /// A thread drops its open transaction: the images have the bytes that they had, and its locks are free.
    pub fn abort(&mut self, thread: u16) -> Reply
        requires seat { thread < vec_len self.old.seats }
        ensures follows { (node : ℕ) → FollowsOpen node self.old (Abort node thread) result self.new }
        ensures beside { the_images.IsSameBeside self.old.here self.new.here }
        ensures seats { vec_len self.new.seats ≡ vec_len self.old.seats }
        ensures names { done_or is_turn result ≡ true }
    {
        let seat = &mut self.seats[thread as usize];
        if !seat.is_open() {
            return Reply::Refused(Refusal::OutOfTurn);
        }
        seat.abort(&mut self.here);
        Reply::Ok
    }
}
