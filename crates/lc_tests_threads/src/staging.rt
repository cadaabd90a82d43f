//! Two seats, a thread that is held, and the round after an ended one.
ghost use Rattle.std.specs.Prelude.{◌≡◌, ◌≢◌, ℕ, ◌+◌, ◌*◌, ◌%◌, ◌<◌, ◌≤◌, ◌^◌, true, false, [], length, slice_index};
ghost use Rattle.std.specs.Prelude.{IfSome};
ghost use Rattle.lc_stage.specs.Seats.{commit_view, flush_view, IsSeatOf, IsFlusherOf, IsIdle, IsFresh, IsSettled};
ghost use Rattle.lc_stage.specs.Publishing.{HoldsTaken, HasPublished};

use lc_disk::{Area, MemArea};
use lc_log::NodeLog;
use lc_record::Group;
use lc_stage::{CommitSeat, FlushSeat, Receipt, Stage, StageFault};
use std::alloc::Global;
use std::test::Fail;
use std::thread::{join, yield_now};

const EIGHT: u64 = 0x8_0001_01a5;

const ELEVEN: u64 = 0xb_0002_01a5;

// Fills and closes a record of one range of one byte in segment 1.
pub(crate) fn close_eight(stage: &Stage, seat: &mut CommitSeat, seq: u64)
    requires own { IsSeatOf stage.now seat.old }
    requires fresh { IsFresh 8 (commit_view seat.old) }
    requires seq { (1 ≤ seq) × (seq ≤ 2 ^ 60) }
    ensures own { IsSeatOf stage.now seat.new }
    ensures idle { IsIdle (commit_view seat.new) }
{
    stage.fill(seat, 1, 0x1_0000);
    stage.fill(seat, 2, 1);
    stage.fill(seat, 3, seq);
    stage.fill(seat, 4, 1);
    stage.fill(seat, 5, 1);
    stage.fill(seat, 6, 7);
    stage.fill(seat, 7, 8);
    stage.close(seat, EIGHT);
}

// Fills and closes a record of two ranges of one byte in segment 1.
fn close_eleven(stage: &Stage, seat: &mut CommitSeat, seq: u64)
    requires own { IsSeatOf stage.now seat.old }
    requires fresh { IsFresh 11 (commit_view seat.old) }
    requires seq { (1 ≤ seq) × (seq ≤ 2 ^ 60) }
    ensures own { IsSeatOf stage.now seat.new }
    ensures idle { IsIdle (commit_view seat.new) }
{
    stage.fill(seat, 1, 0x1_0000);
    stage.fill(seat, 2, 1);
    stage.fill(seat, 3, seq);
    stage.fill(seat, 4, 1);
    stage.fill(seat, 5, 1);
    stage.fill(seat, 6, 7);
    stage.fill(seat, 7, 0x14_0000_0001);
    stage.fill(seat, 8, 1);
    stage.fill(seat, 9, 9);
    stage.fill(seat, 10, 11);
    stage.close(seat, ELEVEN);
}

// The low byte of a word of the group.
pub(crate) fn low_byte(group: &Group, word: usize) -> u8
    requires { word < 4096 }
{
    match group.bytes().get(8 * word) {
        Some(byte) => *byte,
        None => 0,
    }
}

// The log of an area that begins with no open gate holds nothing.
pub(crate) fn begun<D: Area>(area: D) -> NodeLog<D>
    requires room { 8 ≤ length (D.now area) }
    requires closed { D.honest area ≡ true → slice_index (D.now area) 0 % 256 ≢ 165 }
    requires clean { D.honest area ≡ true → D.dirty area 0 ≡ false }
    ensures area { result.area ≡ area }
    ensures empty { HoldsTaken D.Area result.area result.end [] }
{
    NodeLog::new(area)
}

// Takes what is closed, makes it stable in the log, and publishes it.
pub(crate) fn settle<D: Area + Drop>(
    stage: &Stage,
    flusher: &mut FlushSeat,
    group: &mut Group,
    log: NodeLog<D>,
) -> Option<NodeLog<D>>
    requires own { IsFlusherOf stage.now flusher.old × (stage.now.room ≤ group.old.room) }
    requires log { HoldsTaken D.Area log.area log.end (flush_view flusher.old).taken
        × (8 * stage.now.room + 8 ≤ length (D.now log.area)) }
    ensures own { IsFlusherOf stage.now flusher.new × (group.new.room ≡ group.old.room) }
    ensures log { IfSome result (λ l. HoldsTaken D.Area l.area l.end (flush_view flusher.new).taken
        × (8 * stage.now.room + 8 ≤ length (D.now l.area))) }
    ensures published { IfSome result (λ _. HasPublished (flush_view flusher.old) (flush_view flusher.new)) }
{
    let words = stage.take(flusher, group);
    if words == 0 {
        stage.publish(flusher, &log);
        return Some(log);
    }
    match log.flush(group) {
        Ok(log) => {
            stage.publish(flusher, &log);
            Some(log)
        }
        Err(_) => None,
    }
}

// Reserves 8 words and 11 after them, as `moved_on` does, and closes both, the 11 first.
fn nineteen(stage: &Stage, first: &mut CommitSeat, second: &mut CommitSeat) -> bool
    requires own { IsSeatOf stage.now first.old × IsSeatOf stage.now second.old }
    requires idle { IsIdle (commit_view first.old) × IsIdle (commit_view second.old) }
    ensures own { IsSeatOf stage.now first.new × IsSeatOf stage.now second.new }
    ensures idle { result ≡ true → IsIdle (commit_view first.new) × IsIdle (commit_view second.new) }
{
    if !moved_on(stage, first, second) {
        return false;
    }
    close_eleven(stage, second, 2);
    close_eight(stage, first, 1);
    stage.tail(first) == 19
}

// Seals the tail at this offset.
fn seal_at(stage: &Stage, flusher: &mut FlushSeat, seat: &mut CommitSeat, offset: u64) -> bool
    requires own { IsFlusherOf stage.now flusher.old × IsSeatOf stage.now seat.old }
    ensures own { IsFlusherOf stage.now flusher.new × IsSeatOf stage.now seat.new }
    ensures idle { IsIdle (commit_view seat.old) → IsIdle (commit_view seat.new) }
    ensures sealed { result ≡ true → ((flush_view flusher.new).sealed ≡ true)
        × ((flush_view flusher.new).sealed_at ≡ offset) }
    ensures taken { ((flush_view flusher.new).taken ≡ (flush_view flusher.old).taken)
        × ((flush_view flusher.new).cleared ≡ (flush_view flusher.old).cleared) }
    ensures before { ((flush_view flusher.new).ended ≡ (flush_view flusher.old).ended)
        × ((flush_view flusher.new).ended_cleared ≡ (flush_view flusher.old).ended_cleared) }
{
    let at = stage.tail(seat);
    stage.note(flusher, seat);
    stage.seal(flusher, at).is_ok() && at % 32768 == offset
}

#[test]
fn the_largest_stage(rt: HostRuntime) -> Result<(), Fail> {
    assert!(rt; is_made(rt.alloc(), 32_767)?);
    Ok(())
}

// Whether a new stage has so many words, of which none is taken.
fn is_made(alloc: Global, words: u32) -> Result<bool, Fail>
    requires { (0 < words) × (words < 32768) }
{
    let (stage, _flusher, mut seat) = Stage::new(alloc, words)?;
    Ok(stage.words() == words && stage.tail(&mut seat) == 0)
}

// Reserves 8 words, and 11 after them: the second seat has seen the tail before, and is told of the newer one.
fn moved_on(stage: &Stage, first: &mut CommitSeat, second: &mut CommitSeat) -> bool
    requires own { IsSeatOf stage.now first.old × IsSeatOf stage.now second.old }
    requires idle { IsIdle (commit_view first.old) × IsIdle (commit_view second.old) }
    ensures own { IsSeatOf stage.now first.new × IsSeatOf stage.now second.new }
    ensures fresh { result ≡ true → IsFresh 8 (commit_view first.new) × IsFresh 11 (commit_view second.new) }
{
    let at = stage.tail(first);
    let also_at = stage.tail(second);
    let Ok(place) = stage.reserve(first, at, 8) else {
        return false;
    };
    let Err(StageFault::Moved { seen }) = stage.reserve(second, also_at, 11) else {
        return false;
    };
    let Ok(behind) = stage.reserve(second, seen, 11) else {
        return false;
    };
    at == 0 && also_at == 0 && place == 0 && seen == 8 && behind == 8
}

#[test]
fn two_seats(rt: HostRuntime) -> Result<(), Fail> {
    let (stage, mut flusher, mut first) = Stage::new(rt.alloc(), 64)?;
    let mut group = Group::new(rt.alloc(), 64)?;
    let log = begun(MemArea::new(rt.alloc(), 520)?);
    let mut second = stage.split(&mut first);
    assert!(rt; moved_on(&stage, &mut first, &mut second));
    close_eleven(&stage, &mut second, 2);
    assert!(rt; stage.tail(&mut second) == 19);
    assert!(rt; stage.take(&mut flusher, &mut group) == 0 && group.is_empty());
    close_eight(&stage, &mut first, 1);
    let log = settle(&stage, &mut flusher, &mut group, log);
    assert!(rt; log.is_some(), "the log takes both");
    assert!(rt; has_both(&group));
    let mut first = stage.meet(&mut flusher, first);
    let receipt = stage.durable(&mut first).expect(&rt, "it is stable");
    assert!(rt; is_for(&receipt, 0));
    assert!(rt; stage.take(&mut flusher, &mut group) == 0);
    Ok(())
}

// Whether the group has a record of 8 words under number 1, and after it one of 11 words under number 2.
fn has_both(group: &Group) -> bool {
    let has_first = low_byte(group, 3) == 1 && low_byte(group, 7) == 8;
    let has_second = low_byte(group, 8) == 0xa5 && low_byte(group, 11) == 2;
    group.len() == 19 && has_first && has_second && low_byte(group, 18) == 11
}

// Whether the receipt is for a record of 8 words at this place of the first round.
fn is_for(receipt: &Receipt, place: u32) -> bool {
    receipt.round() == 0 && receipt.place() == place && receipt.words() == 8
}

// Reserves 8 words, and 8 after them.
fn eight_each(stage: &Stage, first: &mut CommitSeat, second: &mut CommitSeat) -> bool
    requires own { IsSeatOf stage.now first.old × IsSeatOf stage.now second.old }
    requires idle { IsIdle (commit_view first.old) × IsIdle (commit_view second.old) }
    ensures own { IsSeatOf stage.now first.new × IsSeatOf stage.now second.new }
    ensures fresh { result ≡ true → IsFresh 8 (commit_view first.new) × IsFresh 8 (commit_view second.new) }
{
    let at = stage.tail(first);
    let Ok(place) = stage.reserve(first, at, 8) else {
        return false;
    };
    let at = stage.tail(second);
    let Ok(behind) = stage.reserve(second, at, 8) else {
        return false;
    };
    place == 0 && behind == 8
}

// Whether the group has two records of 8 words, under the numbers 1 and 2.
fn has_eights(group: &Group) -> bool {
    let has_first = low_byte(group, 0) == 0xa5 && low_byte(group, 3) == 1;
    let has_second = low_byte(group, 8) == 0xa5 && low_byte(group, 11) == 2;
    group.len() == 16 && has_first && has_second
}

// Whether each seat has the receipt of its 8 words, those of the second after those of the first.
fn are_durable(stage: &Stage, first: &mut CommitSeat, second: &mut CommitSeat) -> bool
    requires { IsSeatOf stage.now first.old × IsSeatOf stage.now second.old }
{
    let Some(early) = stage.durable(first) else {
        return false;
    };
    let Some(late) = stage.durable(second) else {
        return false;
    };
    is_for(&early, 0) && is_for(&late, 8)
}

#[test]
fn what_is_closed_behind_an_open_record_waits_for_it(rt: HostRuntime) -> Result<(), Fail> {
    let (stage, mut flusher, mut first) = Stage::new(rt.alloc(), 64)?;
    let mut group = Group::new(rt.alloc(), 64)?;
    let log = begun(MemArea::new(rt.alloc(), 520)?);
    let mut second = stage.split(&mut first);
    assert!(rt; eight_each(&stage, &mut first, &mut second));
    close_eight(&stage, &mut second, 2);
    assert!(rt; stage.take(&mut flusher, &mut group) == 0 && group.is_empty());
    assert!(rt; stage.durable(&mut second).is_none());
    close_eight(&stage, &mut first, 1);
    let log = settle(&stage, &mut flusher, &mut group, log).expect(&rt, "the log takes both");
    assert!(rt; log.end == 16 && has_eights(&group));
    assert!(rt; are_durable(&stage, &mut first, &mut second));
    Ok(())
}

// Ends a round of 19 words, which are stable then.
fn end_nineteen<D: Area + Drop>(
    stage: &Stage,
    flusher: &mut FlushSeat,
    seat: &mut CommitSeat,
    group: &mut Group,
    log: NodeLog<D>,
) -> bool
    requires own { IsFlusherOf stage.now flusher.old × IsSeatOf stage.now seat.old × (stage.now.room ≤ group.old.room) }
    requires log { HoldsTaken D.Area log.area log.end (flush_view flusher.old).taken
        × (8 * stage.now.room + 8 ≤ length (D.now log.area)) }
    ensures own { IsFlusherOf stage.now flusher.new × IsSeatOf stage.now seat.new × (group.new.room ≡ group.old.room) }
    ensures idle { IsIdle (commit_view seat.old) → IsIdle (commit_view seat.new) }
    ensures settled { result ≡ true → IsSettled (flush_view flusher.new) × ((flush_view flusher.new).sealed_at ≡ 19) }
    ensures uncleared { result ≡ true → (flush_view flusher.new).cleared ≡ (flush_view flusher.old).cleared }
    ensures before { result ≡ true → ((flush_view flusher.new).ended ≡ (flush_view flusher.old).ended)
        × ((flush_view flusher.new).ended_cleared ≡ (flush_view flusher.old).ended_cleared) }
{
    if !seal_at(stage, flusher, seat, 19) {
        return false;
    }
    match settle(stage, flusher, group, log) {
        Some(log) => log.end == 19,
        None => false,
    }
}

#[test]
fn a_round_is_cleared_and_the_next_opened(rt: HostRuntime) -> Result<(), Fail> {
    let (stage, mut flusher, mut first) = Stage::new(rt.alloc(), 64)?;
    let mut group = Group::new(rt.alloc(), 64)?;
    let log = begun(MemArea::new(rt.alloc(), 520)?);
    let mut second = stage.split(&mut first);
    let mut third = stage.split(&mut first);
    assert!(rt; nineteen(&stage, &mut first, &mut second));
    assert!(rt; end_nineteen(&stage, &mut flusher, &mut third, &mut group, log));
    assert!(rt; has_both(&group));
    let sealed = stage.tail(&mut third);
    assert!(rt; sealed == 32787);
    assert!(rt; stage.reserve(&mut third, sealed, 8) == Err(StageFault::Sealed));
    stage.clear(&mut flusher);
    assert!(rt; stage.reopen(&mut flusher).is_ok());
    assert!(rt; stage.tail(&mut third) == 65536);
    Ok(())
}

// Reserves the first 8 words of the second round.
fn next_eight(stage: &Stage, seat: &mut CommitSeat) -> bool
    requires own { IsSeatOf stage.now seat.old }
    requires idle { IsIdle (commit_view seat.old) }
    ensures own { IsSeatOf stage.now seat.new }
    ensures fresh { result ≡ true → IsFresh 8 (commit_view seat.new) }
{
    let at = stage.tail(seat);
    match stage.reserve(seat, at, 8) {
        Ok(place) => at == 65536 && place == 0,
        Err(_) => false,
    }
}

#[test]
fn a_round_is_opened_before_the_ended_one_is_clear(rt: HostRuntime) -> Result<(), Fail> {
    let mut group = Group::new(rt.alloc(), 64)?;
    let log = begun(MemArea::new(rt.alloc(), 520)?);
    let (stage, mut flusher, mut first) = Stage::new(rt.alloc(), 64)?;
    let mut second = stage.split(&mut first);
    let mut third = stage.split(&mut first);
    assert!(rt; nineteen(&stage, &mut first, &mut second));
    assert!(rt; end_nineteen(&stage, &mut flusher, &mut third, &mut group, log));
    assert!(rt; stage.reopen(&mut flusher).is_ok());
    assert!(rt; next_eight(&stage, &mut third));
    close_eight(&stage, &mut third, 3);
    stage.clear(&mut flusher);
    assert!(rt; stage.take(&mut flusher, &mut group) == 8);
    assert!(rt; low_byte(&group, 0) == 0xa5 && low_byte(&group, 3) == 3);
    Ok(())
}

pub(crate) const TURNS: u32 = 1_000_000;

// Reserves the first 8 words, and closes them once 8 more are reserved after them.
fn close_late(stage: &Stage, mut seat: CommitSeat) -> Option<CommitSeat>
    requires own { IsSeatOf stage.now seat }
    requires idle { IsIdle (commit_view seat) }
    ensures { IfSome result (λ s. IsSeatOf stage.now s × IsIdle (commit_view s)) }
{
    let at = stage.tail(&mut seat);
    let Ok(_) = stage.reserve(&mut seat, at, 8) else {
        return None;
    };
    for _ in 0..TURNS {
        if stage.tail(&mut seat) == 16 {
            close_eight(stage, &mut seat, 1);
            return Some(seat);
        }
        yield_now();
    }
    None
}

// Reserves 8 words after the first 8, and closes them.
fn close_behind(stage: &Stage, mut seat: CommitSeat) -> Option<CommitSeat>
    requires own { IsSeatOf stage.now seat }
    requires idle { IsIdle (commit_view seat) }
    ensures { IfSome result (λ s. IsSeatOf stage.now s × IsIdle (commit_view s)) }
{
    for _ in 0..TURNS {
        let at = stage.tail(&mut seat);
        if at == 8 {
            let Ok(_) = stage.reserve(&mut seat, at, 8) else {
                return None;
            };
            close_eight(stage, &mut seat, 2);
            return Some(seat);
        }
        yield_now();
    }
    None
}

#[test]
fn one_thread_reserves_while_another_is_held(rt: HostRuntime) -> Result<(), Fail> {
    let (stage, mut flusher, mut first) = Stage::new(rt.alloc(), 64)?;
    let mut group = Group::new(rt.alloc(), 64)?;
    let log = begun(MemArea::new(rt.alloc(), 520)?);
    let second = stage.split(&mut first);
    let shared = &stage;
    let (first, second) = join(
        &rt,
        || -> Option<CommitSeat>
            requires { IsSeatOf shared.now first × IsIdle (commit_view first) }
            ensures { IfSome result (λ s. IsSeatOf shared.entry.now s × IsIdle (commit_view s)) }
        { close_late(shared, first) },
        || -> Option<CommitSeat>
            requires { IsSeatOf shared.now second × IsIdle (commit_view second) }
            ensures { IfSome result (λ s. IsSeatOf shared.entry.now s × IsIdle (commit_view s)) }
        { close_behind(shared, second) },
    );
    let mut first = first.expect(&rt, "the first closes its words");
    let mut second = second.expect(&rt, "and the second");
    let log = settle(&stage, &mut flusher, &mut group, log);
    assert!(rt; log.is_some(), "the log takes both");
    assert!(rt; group.len() == 16);
    assert!(rt; are_durable(&stage, &mut first, &mut second));
    Ok(())
}
