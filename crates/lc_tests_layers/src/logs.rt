//! Logs: what is found in bytes, and what a stop leaves of a flush and of a reset.
ghost use Rattle.std.specs.Prelude.{◌≤◌, length, IfOk};

use crate::expect::equal;
use lc_disk::{Area, Choice, Fuse, MemArea, Stoppable, When};
use lc_log::{Failed, NodeLog, walk};
use lc_record::Group;
use std::alloc::{AllocError, Global};
use std::test::Fail;

// The records of node 0 under the locks 1:1 and 1:2, each with the bytes "hello" at 3 in segment 1.
const HELLO: [u64; 8] = [
    0x8_0001_01a5,
    0x1_0000,
    1,
    1,
    0x3_0000_0001,
    5,
    0x6f_6c6c_6568,
    8,
];

const AGAIN: [u64; 8] = [
    0x8_0001_01a5,
    0x1_0000,
    1,
    2,
    0x3_0000_0001,
    5,
    0x6f_6c6c_6568,
    8,
];

// The bytes of a log of 64 words, which has a word more.
const LOG_LEN: usize = 520;

// A group of the first record, or of both.
fn group_of(alloc: Global, both: bool) -> Result<Group, AllocError>
    ensures { IfOk result (λ group. length group.words ≤ 16) }
{
    let mut group = Group::new(alloc, 16)?;
    group.extend(&HELLO);
    if both {
        group.extend(&AGAIN);
    }
    Ok(group)
}

// A flush of such a group on a new log, of whose device this call fails.
fn flushed(
    alloc: Global,
    both: bool,
    call: u8,
) -> Result<Result<NodeLog<Fuse>, Failed<Fuse>>, Fail> {
    let group = group_of(alloc, both)?;
    let area = Fuse::new(MemArea::new(alloc, LOG_LEN)?, When::At(u64::from(call)));
    Ok(NodeLog::new(area).flush(&group))
}

// The area after such a flush, whose one fault is the call that fails.
fn failed(alloc: Global, both: bool, call: u8) -> Result<Fuse, Fail> {
    let area = flushed(alloc, both, call)?
        .err()
        .ok_or("the flush makes this call")?
        .area;
    if area.faults() != 1 {
        return Err(Fail::from("the device failed once"));
    }
    Ok(area)
}

// The bytes after a stop with this choice in such a flush, in the call that fails.
fn left_by_flush(alloc: Global, both: bool, call: u8, choice: Choice) -> Result<MemArea, Fail> {
    let mut area = failed(alloc, both, call)?;
    area.stop(&[choice]);
    Ok(area.into_area())
}

// How many records a walk over these bytes finds.
fn found(alloc: Global, bytes: &[u8]) -> Result<usize, AllocError> {
    Ok(walk(alloc, bytes)?.records.len())
}

// Whether both records are flushed, the call of the device that fails, and the records that each stop leaves. The
// calls are the write of the group, its sync, the opening of the gate, and the sync of that.
static OF_A_FLUSH: [(bool, u8, Choice, usize); 18] = [
    (false, 1, Choice::Keep, 0),
    (false, 1, Choice::Byte(0xa5), 0),
    (false, 2, Choice::Keep, 0),
    (false, 2, Choice::Stable, 0),
    (false, 2, Choice::Byte(0), 0),
    (false, 2, Choice::Byte(0xa5), 0),
    (false, 3, Choice::Keep, 0),
    (false, 3, Choice::Stable, 0),
    (false, 3, Choice::Byte(0xa5), 1),
    (false, 4, Choice::Keep, 1),
    (false, 4, Choice::Stable, 0),
    (false, 4, Choice::Byte(0), 0),
    (false, 4, Choice::Byte(0x7f), 0),
    (false, 4, Choice::Byte(0xa5), 1),
    (true, 2, Choice::Byte(0xa5), 0),
    (true, 4, Choice::Keep, 2),
    (true, 4, Choice::Stable, 0),
    (true, 4, Choice::Byte(0xa5), 2),
];

#[test]
fn a_stop_leaves_a_whole_group_or_none(rt: HostRuntime) -> Result<(), Fail> {
    for (row, (both, call, choice, records)) in OF_A_FLUSH.iter().enumerate() {
        let area = left_by_flush(rt.alloc(), *both, *call, *choice)?;
        let row = format_args!("row {row}, call {call}: the records");
        equal(&rt, &row, &found(rt.alloc(), area.bytes())?, records);
    }
    Ok(())
}

// Whether both records are flushed, how many calls are made, and the first and the last position that is dirty then. A
// group is one write behind its gate.
static DIRTY: [(bool, u8, usize, usize); 4] = [
    (false, 1, 1, 71),
    (false, 3, 0, 0),
    (true, 1, 1, 135),
    (true, 3, 0, 0),
];

#[test]
fn a_flush_makes_the_group_dirty_and_then_its_gate(rt: HostRuntime) -> Result<(), Fail> {
    for (both, calls, first, last) in &DIRTY {
        let next = calls.saturating_add(1);
        let area = left_by_flush(rt.alloc(), *both, next, Choice::Byte(0xee))?;
        for (at, byte) in area.bytes().iter().enumerate() {
            equal(
                &rt,
                &format_args!("both: {both}, {calls} calls: position {at} is dirty"),
                &(*byte == 0xee),
                &(*first <= at && at <= *last),
            );
        }
    }
    Ok(())
}

// The bytes of a log that is flushed and reset, with no fault, and then stopped.
fn reset(alloc: Global) -> Result<MemArea, Fail> {
    let log = flushed(alloc, true, 0)?.ok().ok_or("no call fails")?;
    let closing = log.reset_write().ok().ok_or("no call fails")?;
    let mut area = closing.reset_sync().ok().ok_or("no call fails")?.area;
    area.stop(&[Choice::Byte(0xa5)]);
    Ok(area.into_area())
}

#[test]
fn a_log_that_is_reset_has_no_record(rt: HostRuntime) -> Result<(), Fail> {
    let area = reset(rt.alloc())?;
    equal(&rt, &"the records", &found(rt.alloc(), area.bytes())?, &0);
    Ok(())
}
