//! Two nodes whose store stops, or whose disks fail, at any moment.
ghost use Rattle.lc_disk.specs.When.{IsCountable};

use crate::events::{STOPS, TWO_NODES, event_of, events_of, play, text_of};
use crate::expect::{equal, holds};
use lc_core::{CallFault, Event, Refusal, Reply, World};
use lc_disk::{Fuse, MemArea, When};
use std::alloc::{AllocError, Global};
use std::process::Abort;
use std::test::*;

// Node 0 commits 1 and then 2 on segment 2, and node 1 commits 3 on segment 1. The token of segment 2 goes to node 1,
// which commits 4 on both, writes both pages, and resets its log.
pub(crate) static EVENTS: [(&str, &str); 58] = [
    ("begin 0 0 2", "ok"),
    ("range 0 0 2 0 1", "ok"),
    ("write 0 0 2 0 01", "ok"),
    ("reserve 0 0", "reserved 0 8"),
    ("close 0 0", "ok"),
    ("step 0", "step 1"),
    ("step 0", "step 2"),
    ("step 0", "step 3"),
    ("step 0", "acked 1"),
    ("begin 0 0 2", "ok"),
    ("range 0 0 2 0 1", "ok"),
    ("write 0 0 2 0 02", "ok"),
    ("reserve 0 0", "reserved 8 8"),
    ("close 0 0", "ok"),
    ("begin 1 0 1", "ok"),
    ("range 1 0 1 0 1", "ok"),
    ("write 1 0 1 0 03", "ok"),
    ("reserve 1 0", "reserved 0 8"),
    ("close 1 0", "ok"),
    ("step 1", "step 1"),
    ("step 1", "step 2"),
    ("step 1", "step 3"),
    ("step 1", "acked 1"),
    ("step 0", "step 1"),
    ("step 0", "step 2"),
    ("step 0", "step 3"),
    ("step 0", "acked 2"),
    ("leave 0 2", "ok"),
    ("deliver 0 1 2 1", "applied 1"),
    ("deliver 0 2 2 1", "applied 2"),
    ("arrive 1 2", "ok"),
    ("begin 1 0 1 2", "ok"),
    ("range 1 0 1 0 1", "ok"),
    ("range 1 0 2 0 1", "ok"),
    ("write 1 0 1 0 04", "ok"),
    ("write 1 0 2 0 04", "ok"),
    ("reserve 1 0", "reserved 8 13"),
    ("close 1 0", "ok"),
    ("step 1", "step 1"),
    ("step 1", "step 2"),
    ("step 1", "step 3"),
    ("step 1", "acked 2"),
    ("page 1 2 0", "step 1"),
    ("page 1 2 0", "step 2"),
    ("page 1 2 0", "step 3"),
    ("page 1 2 0", "step 4"),
    ("page 1 2 0", "step 5"),
    ("page 1 2 0", "written 3"),
    ("page 1 1 0", "step 1"),
    ("page 1 1 0", "step 2"),
    ("page 1 1 0", "step 3"),
    ("page 1 1 0", "step 4"),
    ("page 1 1 0", "step 5"),
    ("page 1 1 0", "written 2"),
    ("reset 1", "step 1"),
    ("reset 1", "step 2"),
    ("reset 1", "step 3"),
    ("reset 1", "reset"),
];

/// All four commits are flushed, and no page is written yet.
pub(crate) const FLUSHED: usize = 42;

// The first bytes of both segments, as the commits make them one after another.
const ORDINARY: [(u8, u8); 5] = [(0, 0), (0, 1), (3, 1), (3, 2), (4, 4)];

// What the replies tell of the first bytes of both segments.
#[derive(Clone, Copy)]
struct Seen {
    faults: u64,
    // What is acknowledged of each of them.
    least: (u8, u8),
    // What they may be since the first flush of a node failed.
    also: (u8, u8),
}

impl Seen {
    fn note(&mut self, event: &Event, reply: &Reply) {
        match (event, reply) {
            (Event::FlushStep { node: 0 }, Reply::Acked(1)) => self.least.1 = 1,
            (Event::FlushStep { node: 0 }, Reply::Acked(_)) => self.least.1 = 2,
            (_, Reply::Acked(1)) => self.least.0 = 3,
            (_, Reply::Acked(_)) => self.least = (4, 4),
            (_, Reply::Refused(Refusal::DeviceFault)) => self.fail(event),
            _ => {}
        }
    }

    fn fail(&mut self, event: &Event) {
        self.faults = self.faults.saturating_add(1);
        match event {
            Event::FlushStep { node: 0 } if self.least.1 == 0 => self.also = (3, 0),
            Event::FlushStep { node: 1 } if self.least.0 == 0 => self.also = (0, 2),
            _ => {}
        }
    }

    // The first bytes may be these.
    fn allows(&self, bytes: (u8, u8)) -> bool {
        let is_known = ORDINARY.contains(&bytes) || bytes == self.also;
        is_known && self.least.0 <= bytes.0 && self.least.1 <= bytes.1
    }
}

// The first byte of a segment, where both nodes have the same page and zeros stand after it.
fn first_of(world: &World<Fuse>, segment: u32) -> Option<u8> {
    let page = world.page(0, segment, 0).ok()?;
    let other = world.page(1, segment, 0).ok()?;
    let (first, rest) = page.split_first()?;
    (page == other && rest == [0; 255].as_slice()).then_some(*first)
}

// The areas of two logs and of two segments, of which one fails so.
const AREAS: u32 = 4;

fn areas_with(alloc: Global, failing: u32, when: When) -> Result<Vec<Fuse>, AllocError>
    requires { IsCountable when }
{
    let mut areas = Vec::new(alloc);
    for area in 0..AREAS {
        let len = if area < 2 { 520 } else { 544 };
        let when = if area == failing { when } else { When::At(0) };
        areas.push(Fuse::new(MemArea::new(alloc, len)?, when))?;
    }
    Ok(areas)
}

// A store of zeros that is down, of which one area fails so.
fn down_with(alloc: Global, failing: u32, when: When) -> Result<World<Fuse>, Fail>
    requires { IsCountable when }
{
    match World::new(TWO_NODES, areas_with(alloc, failing, when)?) {
        Ok(world) => Ok(world),
        Err(_) => Err(Fail::from("the areas fit the geometry")),
    }
}

// A recovery, which a fault begins again.
fn comes_up(alloc: Global, world: &mut World<Fuse>, seen: &mut Seen) -> Result<(), Fail> {
    for _ in 0..3 {
        match world.recover(alloc) {
            Ok(()) => return Ok(()),
            Err(CallFault::Refused(Refusal::DeviceFault)) => {
                seen.faults = seen.faults.saturating_add(1);
            }
            Err(_) => {}
        }
    }
    Err(Fail::from("a recovery ends"))
}

// Makes so many steps of a recovery, and tells whether the store is up then.
fn recovers(alloc: Global, world: &mut World<Fuse>, steps: u64) -> Result<bool, AllocError> {
    for _ in 0..steps {
        if let Reply::Recovered = world.step(alloc, &Event::RecoverStep)? {
            return Ok(true);
        }
    }
    Ok(false)
}

// The events of a store, the stop behind them, and which call of which area fails, none where it is 0.
#[derive(Clone, Copy)]
struct Life<'a> {
    events: &'a [Event],
    line: &'a str,
    stop: &'a Event,
    area: u32,
    call: u32,
}

// What has become of a store: whether the steps of its recovery were all, and the first bytes of its segments.
#[derive(Clone, Copy)]
struct Outcome {
    was_up: bool,
    bytes: (u8, u8),
    faults: u64,
}

// Runs these events, notes their replies, and tells how many there are.
fn runs(alloc: Global, world: &mut World<Fuse>, events: &[Event], seen: &mut Seen) -> usize {
    let ran = world.run(alloc, events);
    for (event, reply) in events.iter().zip(&ran.replies) {
        seen.note(event, reply);
    }
    ran.replies.len()
}

// A store that is stopped after its events, makes so many steps of its recovery, is stopped again and comes up. It has
// bytes that its replies allow.
fn outlives(
    rt: &impl Abort,
    alloc: Global,
    life: Life<'_>,
    steps: u64,
    world: &mut World<Fuse>,
) -> Result<Outcome, Fail> {
    let mut seen = Seen {
        faults: 0,
        least: (0, 0),
        also: (0, 0),
    };
    comes_up(alloc, world, &mut seen)?;
    let answered = runs(alloc, world, life.events, &mut seen);
    world.step(alloc, life.stop)?;
    let was_up = recovers(alloc, world, steps)?;
    world.step(alloc, life.stop)?;
    comes_up(alloc, world, &mut seen)?;
    let (Some(first), Some(second)) = (first_of(world, 1), first_of(world, 2)) else {
        return Err(Fail::from("both nodes have the same pages, with one byte"));
    };
    let bytes = (first, second);
    holds(
        rt,
        &format_args!(
            "{answered} events, {}, {steps} steps, call {} of {}: {bytes:?}, at least {:?}",
            life.line, life.call, life.area, seen.least,
        ),
        seen.allows(bytes) && seen.faults <= 1 && answered == life.events.len(),
    );
    Ok(Outcome {
        was_up,
        bytes,
        faults: seen.faults,
    })
}

// The same of a new store.
fn lived(rt: &impl Abort, alloc: Global, life: Life<'_>, steps: u64) -> Result<Outcome, Fail> {
    let mut world = down_with(alloc, life.area, When::At(u64::from(life.call)))?;
    outlives(rt, alloc, life, steps, &mut world)
}

// More steps than any of these recoveries has.
const MOST_STEPS: u64 = 100;

// A store comes to the same where it is stopped again after any step of its recovery, the last one too.
fn comes_to_the_same(rt: &impl Abort, alloc: Global, life: Life<'_>) -> Result<(), Fail> {
    let first = lived(rt, alloc, life, 0)?;
    for steps in 1..MOST_STEPS {
        let again = lived(rt, alloc, life, steps)?;
        equal(
            rt,
            &format_args!("{} events, {}, step {steps}", life.events.len(), life.line),
            &again.bytes,
            &first.bytes,
        );
        if again.was_up {
            return Ok(());
        }
    }
    Err(Fail::from("a recovery ends"))
}

// A stop by this line after each event.
fn stops_anywhere(rt: &impl Abort, alloc: Global, line: &str) -> Result<(), Fail> {
    let stop = event_of(alloc, line)?;
    let events = events_of(alloc, &EVENTS)?;
    for count in 0..=events.len() {
        let life = Life {
            events: &events[..count],
            line,
            stop: &stop,
            area: 0,
            call: 0,
        };
        comes_to_the_same(rt, alloc, life)?;
    }
    Ok(())
}

#[test]
fn all_events_are_answered(rt: HostRuntime) -> Result<(), Fail> {
    let mut world = World::in_memory(rt.alloc(), TWO_NODES)?;
    crate::events::comes_up(rt.alloc(), &mut world)?;
    play(&rt, rt.alloc(), &mut world, &EVENTS)
}

#[test]
fn a_stop_anywhere_keeps_what_is_acknowledged(rt: HostRuntime) -> Result<(), Fail> {
    for line in STOPS {
        stops_anywhere(&rt, rt.alloc(), line)?;
    }
    Ok(())
}

// Each call of this area fails in turn, up to a run without a fault.
fn fails_anywhere(
    rt: &impl Abort,
    alloc: Global,
    events: &[Event],
    line: &str,
    area: u32,
) -> Result<(), Fail> {
    let stop = event_of(alloc, line)?;
    for call in 1..1000 {
        let life = Life {
            events,
            line,
            stop: &stop,
            area,
            call,
        };
        if lived(rt, alloc, life, 0)?.faults == 0 {
            holds(rt, &"the first call fails", call > 1);
            return Ok(());
        }
    }
    Err(Fail::from("a run without a fault"))
}

#[test]
fn one_call_of_an_area_fails(rt: HostRuntime) -> Result<(), Fail> {
    let events = events_of(rt.alloc(), &EVENTS)?;
    for line in STOPS {
        for area in 0..AREAS {
            fails_anywhere(&rt, rt.alloc(), &events, line, area)?;
        }
    }
    Ok(())
}

// The area that each step of a recovery calls, where no page is to be written. The merge, marked 9, calls none.
const OF_ZEROS: [u32; 13] = [0, 1, 2, 3, 0, 1, 2, 3, 9, 0, 0, 1, 1];

// The same, where the page of each segment is to be written.
const OF_TWO_PAGES: [u32; 25] = [
    0, 1, 2, 3, 0, 1, 2, 3, 9, 2, 2, 2, 2, 2, 2, 3, 3, 3, 3, 3, 3, 0, 0, 1, 1,
];

// What the next step of a recovery is answered after so many, where the next is the last or its call fails.
fn is_right(reply: &Reply, done: usize, is_last: bool, fails: bool) -> bool {
    match reply {
        Reply::Refused(Refusal::DeviceFault) => fails,
        Reply::Recovered => is_last && !fails,
        Reply::Stepped(steps) => steps.wrapping_sub(1) == done as u64 && !is_last && !fails,
        _ => false,
    }
}

// Makes up to 100 steps of a recovery that calls these areas, where so many calls of this one still go well. Tells
// whether the store is up then.
fn recovers_by(
    rt: &impl Abort,
    alloc: Global,
    world: &mut World<Fuse>,
    calls: &[u32],
    area: u32,
    well: u32,
) -> Result<bool, Fail> {
    let mut well = well;
    let mut rest = calls;
    for _ in 0..MOST_STEPS {
        let Some((call, behind)) = rest.split_first() else {
            return Ok(true);
        };
        let fails = *call == area && well == 0;
        let reply = world.step(alloc, &Event::RecoverStep)?;
        let done = calls.len().wrapping_sub(rest.len());
        holds(
            rt,
            &format_args!(
                "{well} calls of {area} go well, step {done}: {:?}",
                text_of(&reply, &mut [0; 64]),
            ),
            is_right(&reply, done, behind.is_empty(), fails),
        );
        well = well.saturating_sub(u32::from(*call == area));
        rest = if fails { calls } else { behind };
    }
    Ok(false)
}

// An area of this store fails after so many calls, `before` of which are made before the store is stopped with four
// commits in its logs. Tells whether it comes up again.
fn fails_from(
    rt: &impl Abort,
    alloc: Global,
    world: &mut World<Fuse>,
    area: u32,
    well: u32,
    before: u32,
) -> Result<bool, Fail> {
    if !recovers_by(rt, alloc, world, &OF_ZEROS, area, well)? {
        return Ok(false);
    }
    for (line, _) in &EVENTS[..FLUSHED] {
        world.step(alloc, &event_of(alloc, line)?)?;
    }
    play(rt, alloc, world, &[("stop keep", "down")])?;
    recovers_by(
        rt,
        alloc,
        world,
        &OF_TWO_PAGES,
        area,
        well.saturating_sub(before),
    )
}

// Of each area: how many calls are made before the stop, and how many there are with those of the recovery after it.
const CALLS: [(u32, u32, u32); 4] = [(0, 12, 16), (1, 12, 16), (2, 2, 10), (3, 2, 10)];

#[test]
fn an_area_that_fails_for_good_keeps_the_store_down(rt: HostRuntime) -> Result<(), Fail> {
    for (area, before, all) in CALLS {
        for well in 0..=all {
            let mut world = down_with(rt.alloc(), area, When::From(u64::from(well) + 1))?;
            let is_up = fails_from(&rt, rt.alloc(), &mut world, area, well, before)?;
            equal(
                &rt,
                &format_args!("{well} calls of {area}"),
                &is_up,
                &(well == all),
            );
        }
    }
    Ok(())
}
