//! Records and tokens that two nodes send each other.
ghost use Rattle.std.specs.Prelude.{◌≡◌, ◌<◌, IfOk, length};
ghost use Rattle.lc_cluster.specs.Cluster.{IsSeatAt};

use crate::stores::{geometry, opened_two};
use lc_cluster::{Cluster, Spread};
use lc_disk::MemArea;
use lc_node::{Mode, NodeFault, Pumped, Put};
use lc_node_fixture::{get, put};
use lc_recover::zero_areas;
use lc_stage::CommitSeat;
use std::alloc::Global;
use std::sync::Wait;
use std::test::*;

const WORDS: u32 = 4096;

const HELLO: Put<'static> = Put {
    segment: 2,
    offset: 3,
    bytes: b"hello",
};

// As many messages as a line has room for.
const ROOM: u32 = 64;

// One record is sent, and none is missing.
const ONE_SENT: Spread = Spread { sent: 1, left: 0 };

// The first record of segment 2 is applied, with no token behind it.
const FIRST_APPLIED: Pumped = Pumped::Applied {
    applied: 1,
    arrived: false,
};

// Commits so many times at the first node, and waits each time until it is stable.
fn put_often<R: Wait>(
    rt: &R,
    alloc: Global,
    cluster: &Cluster<MemArea>,
    seat: CommitSeat,
    times: u32,
) -> Result<CommitSeat, Fail>
    requires within { 0 < length cluster.now.members.items }
    requires own { IsSeatAt cluster.now 0 seat }
    ensures own { IfOk result (IsSeatAt cluster.now 0) }
{
    let mut seat = seat;
    for _ in 0..times {
        let (next, done) = put(rt, alloc, cluster.node(0), seat, &[2], HELLO, Mode::Flush);
        if done.is_err() {
            return Err(Fail::from("the token is here, and there is room for a record"));
        }
        seat = next;
    }
    Ok(seat)
}

// Two nodes over areas of zeros, and a seat of each, after one stable record of the first.
fn begun<R: Wait>(rt: &R, alloc: Global) -> Result<(Cluster<MemArea>, CommitSeat, CommitSeat), Fail>
    ensures nodes { IfOk result (λ made. length made.0.members.items ≡ 2) }
    ensures first { IfOk result (λ made. IsSeatAt made.0 0 made.1) }
    ensures second { IfOk result (λ made. IsSeatAt made.0 1 made.2) }
{
    let geometry = geometry(2, WORDS)?;
    let (cluster, first, second) = opened_two(alloc, geometry, zero_areas(alloc, &geometry)?)?;
    let first = put_often(rt, alloc, &cluster, first, 1)?;
    Ok((cluster, first, second))
}

#[test]
fn a_token_waits_for_the_record_that_it_has_seen(rt: HostRuntime) -> Result<(), Fail> {
    let alloc = rt.alloc();
    let (cluster, _first, second) = begun(&rt, alloc)?;
    assert!(rt; cluster.give(&rt, 0, 1, 2) == Ok(()));
    assert!(rt; cluster.pump(&rt, alloc, 1, 0) == Ok(Pumped::Waiting));
    assert!(rt; cluster.spread(&rt, alloc, 0) == Ok(ONE_SENT));
    let applied = Pumped::Applied {
        applied: 1,
        arrived: true,
    };
    assert!(rt; cluster.pump(&rt, alloc, 1, 0) == Ok(applied));
    assert!(rt; cluster.pump(&rt, alloc, 1, 0) == Ok(Pumped::Empty));
    let (_second, found) = get(&rt, alloc, cluster.node(1), second, 2, 3, 5);
    let found = found.expect(&rt, "the token is here");
    assert!(rt; found.as_slice() == b"hello".as_slice());
    Ok(())
}

// A token goes behind the records that were sent before it, and is refused where the line has no room.
#[test]
fn a_full_line_leaves_a_token_where_it_was(rt: HostRuntime) -> Result<(), Fail> {
    let alloc = rt.alloc();
    let (cluster, first, _second) = begun(&rt, alloc)?;
    let first = put_often(&rt, alloc, &cluster, first, ROOM)?;
    let full = Spread { sent: 64, left: 1 };
    assert!(rt; cluster.spread(&rt, alloc, 0) == Ok(full));
    assert!(rt; cluster.give(&rt, 0, 1, 2) == Err(NodeFault::ChannelFull { to: 1 }));
    let _first = put_often(&rt, alloc, &cluster, first, 1)?;
    assert!(rt; cluster.pump(&rt, alloc, 1, 0) == Ok(FIRST_APPLIED));
    assert!(rt; cluster.give(&rt, 0, 1, 2) == Ok(()));
    let second = Pumped::Applied {
        applied: 2,
        arrived: false,
    };
    assert!(rt; cluster.pump(&rt, alloc, 1, 0) == Ok(second));
    Ok(())
}

// What is refused for want of memory is done by the next call.
#[test]
fn a_pump_without_memory_goes_on_later(rt: HostRuntime) -> Result<(), Fail> {
    let alloc = rt.alloc();
    let (cluster, _first, _second) = begun(&rt, alloc)?;
    let spread = match cluster.spread(&rt, alloc, 0) {
        Err(NodeFault::NoMemory) => cluster.spread(&rt, alloc, 0),
        done => done,
    };
    assert!(rt; spread == Ok(ONE_SENT));
    let pumped = match cluster.pump(&rt, alloc, 1, 0) {
        Err(NodeFault::NoMemory) => cluster.pump(&rt, alloc, 1, 0),
        done => done,
    };
    assert!(rt; pumped == Ok(FIRST_APPLIED));
    Ok(())
}
