//! A commit that is held between its reservation and its closing.
ghost use Rattle.lc_stage.specs.Seats.{commit_view, IsSeatOf, IsIdle};

use crate::stores::{in_memory, opened, two_segments};
use lc_disk::Area;
use lc_node::{Commit, Gate, Mode, Node, Put};
use lc_node_fixture::{TRIES, put};
use lc_stage::{CommitSeat, Receipt};
use std::alloc::Global;
use std::sync::Wait;
use std::sync::atomic::{AtomicU32, Ordering};
use std::test::*;
use std::thread::{join, yield_now};

// After so many turns nobody waits any more.
const TURNS: u32 = 1_000_000;

// The first has reserved its record.
const RESERVED: u32 = 1;

// The second has closed its own, and has looked.
const LOOKED: u32 = 2;

const FIRST: Put<'static> = Put {
    segment: 1,
    offset: 0,
    bytes: &[1],
};

const SECOND: Put<'static> = Put {
    segment: 2,
    offset: 0,
    bytes: &[2],
};

// How far both are.
#[derive(Drop)]
struct Steps {
    step: AtomicU32,
}

impl Steps {
    fn reach(&self, step: u32) {
        self.step.store(step, Ordering::SeqCst);
    }

    // Waits until the step is reached. Whether it was.
    fn wait_for(&self, step: u32) -> bool {
        for _ in 0..TURNS {
            if self.step.load(Ordering::SeqCst) >= step {
                return true;
            }
            yield_now();
        }
        false
    }
}

// Between reservation and closing it waits until the second has looked.
#[derive(Clone, Copy)]
struct Held<'a> {
    steps: &'a Steps,
}

impl Gate for Held<'_> {
    fn between(&self) {
        self.steps.reach(RESERVED);
        let _ = self.steps.wait_for(LOOKED);
    }
}

// Commits with its record held, and waits until it is stable.
fn first<D: Area + Drop, R: Wait>(
    rt: &R,
    alloc: Global,
    node: &Node<D>,
    seat: CommitSeat,
    steps: &Steps,
) -> Option<Receipt>
    requires own { IsSeatOf node.now.stage seat }
    requires idle { IsIdle (commit_view seat) }
{
    let mut work = FIRST;
    let gate = Held { steps };
    match node.transact(rt, alloc, seat, &[1], &mut work, Mode::Flush, TRIES, &gate) {
        (_seat, Ok(Commit::Flushed(receipt))) => Some(receipt),
        _ => None,
    }
}

// Commits while the first's record is held: then nothing can be flushed. Its receipt comes after the first's flush.
fn second<D: Area + Drop, R: Wait>(
    rt: &R,
    alloc: Global,
    node: &Node<D>,
    seat: CommitSeat,
    steps: &Steps,
) -> Option<Receipt>
    requires own { IsSeatOf node.now.stage seat }
    requires idle { IsIdle (commit_view seat) }
{
    let is_reserved = steps.wait_for(RESERVED);
    let (seat, committed) = put(rt, alloc, node, seat, &[2], SECOND, Mode::Lazy);
    let flushed = node.flush(rt);
    let (seat, none) = node.durable(rt, seat);
    steps.reach(LOOKED);
    let is_closed = matches!(committed, Ok(Commit::Lazy));
    if !is_reserved || !is_closed || flushed != Ok(0) || none.is_some() {
        return None;
    }
    await_receipt(rt, node, seat)
}

fn await_receipt<D: Area + Drop, R: Wait>(
    rt: &R,
    node: &Node<D>,
    seat: CommitSeat,
) -> Option<Receipt>
    requires own { IsSeatOf node.now.stage seat }
    requires idle { IsIdle (commit_view seat) }
{
    let mut seat = seat;
    for _ in 0..TURNS {
        let (next, receipt) = node.durable(rt, seat);
        if receipt.is_some() {
            return receipt;
        }
        seat = next;
        yield_now();
    }
    None
}

// Whether a receipt is of 8 words at this place of round 0.
fn is_at(receipt: &Receipt, place: u32) -> bool {
    receipt.round() == 0 && receipt.place() == place && receipt.words() == 8
}

#[test]
fn a_held_record_holds_back_those_behind_it(rt: HostRuntime) -> Result<(), Fail> {
    let alloc = rt.alloc();
    let (node, mut seat) = opened(alloc, two_segments()?, in_memory(alloc)?)?;
    let other = node.split(&mut seat);
    let steps = Steps {
        step: AtomicU32::new(0),
    };
    let (host, shared, both) = (&rt, &node, &steps);
    let (one, two) = join(
        &rt,
        || first(host, alloc, shared, seat, both),
        || second(host, alloc, shared, other, both),
    );
    assert!(rt; is_at(&one.expect(&rt, "the first is stable"), 0));
    assert!(rt; is_at(&two.expect(&rt, "and the second"), 8));
    Ok(())
}
