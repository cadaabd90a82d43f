//! A store of one node by its events: a device that fails, and stops within a recovery.
use crate::events::{ONE_NODE, STOPS, comes_up, events_of, play, text_of};
use crate::expect::{equal, holds};
use lc_core::{World, run_in_memory};
use lc_disk::{Fuse, MemArea, Stoppable, When};
use lc_fixture::hello;
use std::alloc::Global;
use std::process::Abort;
use std::test::*;

// A record of one lock and five bytes in one range has 3 + 2 + (2 + 1) words.
static COMMIT: [(&str, &str); 5] = [
    ("begin 0 0 1", "ok"),
    ("range 0 0 1 3 5", "ok"),
    ("write 0 0 1 3 68656c6c6f", "ok"),
    ("reserve 0 0", "reserved 0 8"),
    ("close 0 0", "ok"),
];

static FLUSH: [(&str, &str); 4] = [
    ("step 0", "step 1"),
    ("step 0", "step 2"),
    ("step 0", "step 3"),
    ("step 0", "acked 1"),
];

// Two areas are synced and read, nothing stands to be merged or written, and one log takes two calls.
static RECOVERY: [(&str, &str); 8] = [
    ("rstep", "step 1"),
    ("rstep", "step 2"),
    ("rstep", "step 3"),
    ("rstep", "step 4"),
    ("rstep", "step 5"),
    ("rstep", "step 6"),
    ("rstep", "recovered"),
    ("rstep", "refused OutOfTurn"),
];

#[test]
fn a_store_in_memory_answers_all_its_events(rt: HostRuntime) -> Result<(), Fail> {
    let events = events_of(rt.alloc(), &RECOVERY)?;
    let (_, run) = run_in_memory(rt.alloc(), ONE_NODE, &events)?;
    assert!(rt; !run.out_of_memory && run.replies.len() == 8);
    for (place, (reply, (_, wanted))) in run.replies.iter().zip(&RECOVERY).enumerate() {
        equal(&rt, &place, &text_of(reply, &mut [0; 64]), &Some(*wanted));
    }
    Ok(())
}

// Whether the only page has these bytes at 3, and zeros elsewhere.
fn shows<D: Stoppable + Drop>(world: &World<D>, bytes: [u8; 5]) -> bool {
    let mut wanted = [0; 256];
    wanted[3..8].copy_from_slice(&bytes);
    world.page(0, 1, 0) == Ok(wanted.as_slice())
}

static FAILED: [(&str, &str); 4] = [
    ("step 0", "step 1"),
    ("step 0", "device fault"),
    ("begin 0 0 1", "refused Halted"),
    ("stop keep", "down"),
];

// A recovery makes four calls of the log, so the sixth is the sync of the first group.
#[test]
fn a_stop_brings_a_halted_node_back(rt: HostRuntime) -> Result<(), Fail> {
    let alloc = rt.alloc();
    let areas = vec![in alloc;
        Fuse::new(MemArea::new(alloc, 520)?, When::At(6)),
        Fuse::new(MemArea::new(alloc, 544)?, When::At(0)),
    ]?;
    let Ok(mut world) = World::new(ONE_NODE, areas) else {
        return Err(Fail::from("the areas fit the geometry"));
    };
    comes_up(alloc, &mut world)?;
    play(&rt, alloc, &mut world, &COMMIT)?;
    play(&rt, alloc, &mut world, &FAILED)?;
    comes_up(alloc, &mut world)?;
    assert!(rt; shows(&world, [0; 5]));
    Ok(())
}

// Two syncs, two reads, the merge, six calls of the page, and two of the log.
static RECOVERY_WITH_A_PAGE: [(&str, &str); 13] = [
    ("rstep", "step 1"),
    ("rstep", "step 2"),
    ("rstep", "step 3"),
    ("rstep", "step 4"),
    ("rstep", "step 5"),
    ("rstep", "step 6"),
    ("rstep", "step 7"),
    ("rstep", "step 8"),
    ("rstep", "step 9"),
    ("rstep", "step 10"),
    ("rstep", "step 11"),
    ("rstep", "step 12"),
    ("rstep", "recovered"),
];

// A store whose flushed commit is not on its page is stopped by this line after these steps of its recovery. The next
// commit is under number 2, at the front of the log.
fn is_stopped_behind(
    rt: &impl Abort,
    alloc: Global,
    world: &mut World<MemArea>,
    line: &str,
    steps: &[(&str, &str)],
) -> Result<(), Fail> {
    comes_up(alloc, world)?;
    play(rt, alloc, world, &COMMIT)?;
    play(rt, alloc, world, &FLUSH)?;
    play(rt, alloc, world, &[("stop stable", "down")])?;
    play(rt, alloc, world, steps)?;
    play(rt, alloc, world, &[(line, "down")])?;
    comes_up(alloc, world)?;
    let row = format_args!("{line}, step {}", steps.len());
    holds(rt, &row, shows(world, *b"hello"));
    play(rt, alloc, world, &COMMIT)?;
    play(rt, alloc, world, &FLUSH)?;
    let words = world.log_words(alloc, 0)?;
    holds(rt, &row, words.as_slice() == hello(0, 1, 2, 3).as_slice());
    Ok(())
}

#[test]
fn a_recovery_that_is_stopped_comes_to_the_same(rt: HostRuntime) -> Result<(), Fail> {
    for line in STOPS {
        for steps in 0..=RECOVERY_WITH_A_PAGE.len() {
            let mut world = World::in_memory(rt.alloc(), ONE_NODE)?;
            let steps = &RECOVERY_WITH_A_PAGE[..steps];
            is_stopped_behind(&rt, rt.alloc(), &mut world, line, steps)?;
        }
    }
    Ok(())
}
