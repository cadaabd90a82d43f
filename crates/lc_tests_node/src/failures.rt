//! Devices that fail, and memory that is refused.
ghost use Rattle.std.specs.Prelude.{IfOk};
ghost use Rattle.lc_disk.specs.When.{IsCountable};
ghost use Rattle.lc_stage.specs.Seats.{commit_view, IsSeatOf, IsIdle};

use crate::expect::{equal, holds};
use crate::stores::{HELLO, in_memory, opened, two_segments};
use lc_disk::{Fuse, MemArea, When};
use lc_node::{Commit, Mode, Node, NodeFault};
use lc_node_fixture::{LOG_BYTES, SEGMENT_BYTES, put, recovered};
use lc_stage::CommitSeat;
use std::alloc::Global;
use std::process::Abort;
use std::sync::Wait;
use std::test::*;

const NEVER: When = When::At(0);

// The second call of a flush: a recovery makes four calls of an empty log.
const IN_A_FLUSH: When = When::At(6);

// The first call of a reset after one flush.
const IN_A_RESET: When = When::At(9);

// The fourth call of a page's write: a recovery makes two calls of a segment that has nothing to be written.
const IN_A_PAGE: When = When::At(6);

// The areas of a store, of which the log's and the first segment's fail so.
fn fused(alloc: Global, log: When, segment: When) -> Result<Vec<Fuse>, Fail>
    requires { IsCountable log × IsCountable segment }
{
    let mut areas = Vec::with_capacity(alloc, 3)?;
    areas.push(Fuse::new(MemArea::new(alloc, LOG_BYTES)?, log))?;
    areas.push(Fuse::new(MemArea::new(alloc, SEGMENT_BYTES)?, segment))?;
    areas.push(Fuse::new(MemArea::new(alloc, SEGMENT_BYTES)?, NEVER))?;
    Ok(areas)
}

// A device fails while a commit is flushed, or, where that is stable, while the log is emptied. Each later call says
// that the node is halted.
fn halts<R: Abort + Wait>(
    rt: &R,
    alloc: Global,
    row: &str,
    areas: Vec<Fuse>,
    is_stable: bool,
) -> Result<(), Fail> {
    let (node, seat) = opened(alloc, two_segments()?, areas)?;
    let (seat, done) = put(rt, alloc, &node, seat, &[1], HELLO, Mode::Flush);
    equal(rt, &row, &done.is_ok(), &is_stable);
    let failed = match done {
        Ok(_) => node.truncate(rt, alloc).err(),
        Err(fault) => Some(fault),
    };
    equal(rt, &row, &failed, &Some(NodeFault::DeviceFault));
    let (seat, lazy) = put(rt, alloc, &node, seat, &[1], HELLO, Mode::Lazy);
    let (_seat, flushed) = put(rt, alloc, &node, seat, &[1], HELLO, Mode::Flush);
    let halted = node.is_halted()
        && matches!(lazy, Err(NodeFault::Halted))
        && matches!(flushed, Err(NodeFault::Halted))
        && node.flush(rt) == Err(NodeFault::Halted)
        && node.truncate(rt, alloc) == Err(NodeFault::Halted);
    holds(rt, &format_args!("each call behind {row}"), halted);
    Ok(())
}

#[test]
fn a_device_that_fails_halts_the_node(rt: HostRuntime) -> Result<(), Fail> {
    let alloc = rt.alloc();
    halts(
        &rt,
        alloc,
        "a flush",
        fused(alloc, IN_A_FLUSH, NEVER)?,
        false,
    )?;
    halts(
        &rt,
        alloc,
        "a reset",
        fused(alloc, IN_A_RESET, NEVER)?,
        true,
    )?;
    halts(&rt, alloc, "a page", fused(alloc, NEVER, IN_A_PAGE)?, true)?;
    Ok(())
}

// Opens a node, once more where there was no memory.
fn opened_again(alloc: Global) -> Result<(Node<MemArea>, CommitSeat), Fail>
    ensures own { IfOk result (λ made. IsSeatOf made.0.stage made.1) }
    ensures idle { IfOk result (λ made. IsIdle (commit_view made.1)) }
{
    let store = recovered(alloc, two_segments()?, in_memory(alloc)?)?;
    let store = match Node::open(alloc, store) {
        Ok(made) => return Ok(made),
        Err((store, _)) => store,
    };
    match Node::open(alloc, store) {
        Ok(made) => Ok(made),
        Err(_) => Err(Fail::from("memory is refused once")),
    }
}

// Where memory is refused nothing is done, and the next attempt does it.
#[test]
fn refused_memory_leaves_all_as_it_was(rt: HostRuntime) -> Result<(), Fail> {
    let alloc = rt.alloc();
    let (node, seat) = opened_again(alloc)?;
    let (seat, first) = put(&rt, alloc, &node, seat, &[1, 2], HELLO, Mode::Flush);
    let (seat, again) = match first {
        Err(NodeFault::NoMemory) => put(&rt, alloc, &node, seat, &[1, 2], HELLO, Mode::Flush),
        done => (seat, done),
    };
    assert!(rt; matches!(again, Ok(Commit::Flushed(_))));
    let truncated = match node.truncate(&rt, alloc) {
        Err(NodeFault::NoMemory) => node.truncate(&rt, alloc),
        done => done,
    };
    assert!(rt; truncated == Ok(1));
    let (_seat, receipt) = node.durable(&rt, seat);
    assert!(rt; receipt.expect(&rt, "it is stable").place() == 0);
    Ok(())
}
