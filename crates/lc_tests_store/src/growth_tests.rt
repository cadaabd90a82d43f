//! Two nodes whose store meets want of memory at any event: with memory it goes on as if nothing had been.
use crate::events::{TWO_NODES, events_of, text_of};
use crate::expect::{equal, holds};
use crate::hostile_tests::{EVENTS, FLUSHED};
use lc_core::{Event, Reply, RunResult, World};
use lc_disk::MemArea;
use std::alloc::{AllocError, Global};
use std::process::Abort;
use std::test::*;

// More runs than one or two allocations that fail can make of a list.
const MOST_RUNS: u32 = 8;

// After all four commits both segments begin with 4. Their tokens are where they were at first.
static READS_ALL: [(&str, &str); 6] = [
    ("begin 1 0 r1", "ok"),
    ("read 1 0 1 0 2", "bytes 0400"),
    ("reserve 1 0", "ended"),
    ("begin 0 0 r2", "ok"),
    ("read 0 0 2 0 2", "bytes 0400"),
    ("abort 0 0", "ok"),
];

// Node 0 commits 7, 8 and 9 on segment 2, and drops a fourth change. The records come to node 1 out of order, and then
// the token.
static TWO_PEERS: [(&str, &str); 41] = [
    ("begin 0 0 2", "ok"),
    ("range 0 0 2 0 1", "ok"),
    ("write 0 0 2 0 07", "ok"),
    ("read 0 0 2 0 2", "bytes 0700"),
    ("reserve 0 0", "reserved 0 8"),
    ("close 0 0", "ok"),
    ("begin 0 0 2", "ok"),
    ("range 0 0 2 0 1", "ok"),
    ("write 0 0 2 0 08", "ok"),
    ("reserve 0 0", "reserved 8 8"),
    ("close 0 0", "ok"),
    ("begin 0 0 2", "ok"),
    ("range 0 0 2 0 1", "ok"),
    ("write 0 0 2 0 09", "ok"),
    ("reserve 0 0", "reserved 16 8"),
    ("close 0 0", "ok"),
    ("begin 0 0 2", "ok"),
    ("range 0 0 2 0 1", "ok"),
    ("range 0 0 2 100 9", "ok"),
    ("write 0 0 2 100 010203", "ok"),
    ("abort 0 0", "ok"),
    ("step 0", "step 1"),
    ("step 0", "step 2"),
    ("step 0", "step 3"),
    ("step 0", "acked 3"),
    ("trim 0", "trimmed 0"),
    ("deliver 0 3 2 1", "held back"),
    ("deliver 0 3 2 1", "ignored"),
    ("deliver 0 1 2 1", "applied 1"),
    ("trim 0", "trimmed 1"),
    ("deliver 0 2 2 1", "applied 3"),
    ("trim 0", "trimmed 2"),
    ("deliver 0 1 2 1", "ignored"),
    ("leave 0 2", "ok"),
    ("read 0 0 2 0 2", "refused OutOfTurn"),
    ("arrive 1 2", "ok"),
    ("begin 1 0 r2", "ok"),
    ("range 1 0 2 0 1", "refused ReadOnly 2"),
    ("read 1 0 2 0 2", "bytes 0900"),
    ("read 1 0 2 100 4", "bytes 00000000"),
    ("reserve 1 0", "ended"),
];

// Which events may want memory at all.
fn may_ask(line: &str) -> bool {
    line.starts_with("range")
        || line.starts_with("read")
        || line.starts_with("reserve")
        || line.starts_with("deliver")
}

// Where there is no memory for the events themselves, they are made once more.
fn made(alloc: Global, script: &[(&str, &str)]) -> Result<Vec<Event>, AllocError> {
    match events_of(alloc, script) {
        Err(AllocError) => events_of(alloc, script),
        events => events,
    }
}

// A run ends behind its last line, or at one that there was no memory for: that one may ask for some, or there was no
// room for the replies.
fn ends_right(ran: &RunResult, lines: &[(&str, &str)]) -> bool {
    match lines.get(ran.replies.len()) {
        None => !ran.out_of_memory,
        Some((line, _)) => ran.out_of_memory && (may_ask(line) || ran.replies.is_empty()),
    }
}

// The store answers so in one run or in several: each begins with the line that the run before had no memory for.
fn answers(
    rt: &impl Abort,
    alloc: Global,
    world: &mut World<MemArea>,
    script: &[(&str, &str)],
) -> Result<(), Fail> {
    let events = made(alloc, script)?;
    let mut left = events.as_slice();
    let mut lines = script;
    for run in 0..MOST_RUNS {
        let ran = world.run(alloc, left);
        for (reply, (line, wanted)) in ran.replies.iter().zip(lines) {
            equal(rt, line, &text_of(reply, &mut [0; 64]), &Some(*wanted));
        }
        holds(
            rt,
            &format_args!(
                "run {run}: {} replies to {} lines",
                ran.replies.len(),
                lines.len()
            ),
            ends_right(&ran, lines),
        );
        left = left.get(ran.replies.len()..).unwrap_or(&[]);
        lines = lines.get(ran.replies.len()..).unwrap_or(&[]);
        if lines.is_empty() {
            return Ok(());
        }
    }
    Err(Fail::from("there is memory in the end"))
}

// A recovery of so many steps, each of which may have no memory once.
fn comes_up(
    rt: &impl Abort,
    alloc: Global,
    world: &mut World<MemArea>,
    steps: u64,
) -> Result<(), Fail> {
    for done in 1..=steps {
        let reply = match world.step(alloc, &Event::RecoverStep) {
            Err(AllocError) => world.step(alloc, &Event::RecoverStep)?,
            Ok(reply) => reply,
        };
        match reply {
            Reply::Stepped(made) => equal(
                rt,
                &format_args!("step {done} of {steps}"),
                &(made, done < steps),
                &(done, true),
            ),
            Reply::Recovered => equal(rt, &"recovered", &done, &steps),
            _ => holds(rt, &format_args!("step {done} is made"), false),
        }
    }
    Ok(())
}

// A recovery with no page to write: four areas are synced and read, all is merged, and two logs take two calls each.
const STEPS: u64 = 13;

// One that writes the page of each segment, in six calls.
const STEPS_WITH_PAGES: u64 = 25;

static GOES_DOWN: [(&str, &str); 1] = [("stop keep", "down")];

// A store of zeros that is up.
fn up(rt: &impl Abort, alloc: Global) -> Result<World<MemArea>, Fail> {
    let mut world = match World::in_memory(alloc, TWO_NODES) {
        Err(AllocError) => World::in_memory(alloc, TWO_NODES)?,
        Ok(world) => world,
    };
    comes_up(rt, alloc, &mut world, STEPS)?;
    Ok(world)
}

// The store answers these lines, stops, and comes up in so many steps.
fn goes_on(
    rt: &impl Abort,
    alloc: Global,
    script: &[(&str, &str)],
    steps: u64,
) -> Result<(), Fail> {
    let mut world = up(rt, alloc)?;
    answers(rt, alloc, &mut world, script)?;
    answers(rt, alloc, &mut world, &GOES_DOWN)?;
    comes_up(rt, alloc, &mut world, steps)?;
    answers(rt, alloc, &mut world, &READS_ALL)
}

#[test]
fn all_events_go_on_behind_want_of_memory(rt: HostRuntime) -> Result<(), Fail> {
    goes_on(&rt, rt.alloc(), &EVENTS, STEPS)
}

#[test]
fn a_recovery_goes_on_behind_want_of_memory(rt: HostRuntime) -> Result<(), Fail> {
    goes_on(&rt, rt.alloc(), &EVENTS[..FLUSHED], STEPS_WITH_PAGES)
}

#[test]
fn two_peers_go_on_behind_want_of_memory(rt: HostRuntime) -> Result<(), Fail> {
    let mut world = up(&rt, rt.alloc())?;
    answers(&rt, rt.alloc(), &mut world, &TWO_PEERS)
}
