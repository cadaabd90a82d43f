//! The calls of a store by their names.
use crate::events::{ONE_NODE, comes_up};
use crate::expect::equal;
use lc_core::{CallFault, FlushProgress, Placement, Refusal, World};
use std::process::Abort;
use std::test::*;

// A record of one lock and five bytes in one range has 3 + 2 + (2 + 1) words.
#[test]
fn a_commit_by_calls_is_durable_and_comes_up_again(rt: HostRuntime) -> Result<(), Fail> {
    let alloc = rt.alloc();
    let mut world = World::in_memory(alloc, ONE_NODE)?;
    assert!(rt; world.begin(0, 0, &[1], &[]) == Err(Refusal::Down));
    comes_up(alloc, &mut world)?;
    assert!(rt; world.begin(0, 0, &[1], &[]) == Ok(()));
    assert!(rt; world.set_range(alloc, 0, 0, 1, 3, 5) == Ok(()));
    assert!(rt; world.write(0, 0, 1, 3, b"hello") == Ok(()));
    assert!(rt; world.write(0, 0, 1, 4, b"hello") == Err(Refusal::NoRange));
    assert!(rt; world.begin(0, 1, &[], &[1]) == Err(Refusal::Busy { segment: 1 }));
    assert!(rt; world.end(alloc, 0, 0) == Ok(Placement::Record { place: 0, words: 8 }));
    for calls in 1..4 {
        equal(
            &rt,
            &format_args!("{calls} calls are made"),
            &(world.flush_step(alloc, 0) == Ok(FlushProgress::Stepped(calls))),
            &true,
        );
    }
    assert!(rt; world.flush_step(alloc, 0) == Ok(FlushProgress::Acked(1)));
    assert!(rt; world.flush(alloc, 0) == Ok(FlushProgress::Nothing));
    assert!(rt; world.trim(alloc, 0) == Ok(1));
    let (geometry, areas) = world.into_areas();
    let Ok(mut again) = World::new(geometry, areas) else {
        return Err(Fail::from("the areas fit the geometry"));
    };
    comes_up(alloc, &mut again)?;
    let mut buffer = [7; 7];
    assert!(rt; again.read(0, 1, 1, 2, &mut buffer) == Err(Refusal::OutOfTurn));
    assert!(rt; again.begin(0, 1, &[], &[1]) == Ok(()));
    assert!(rt; again.read(0, 1, 1, 2, &mut buffer) == Ok(()));
    assert!(rt; buffer == *b"\0hello\0");
    assert!(rt;
        again.set_range(alloc, 0, 1, 1, 0, 1)
            == Err(CallFault::Refused(Refusal::ReadOnly { segment: 1 }))
    );
    assert!(rt; again.end(alloc, 0, 1) == Ok(Placement::Empty));
    Ok(())
}
