//! Sixteen committers over many rounds, with the flusher beside them.
ghost use Rattle.std.specs.Prelude.{◌≡◌, List, ◌+◌, ◌*◌, ◌<◌, ◌≤◌, ◌^◌, true, [], length, IfSome, OnSome, OnOk};
ghost use Rattle.lc_stage.specs.Seats.{commit_view, flush_view, IsSeatOf, IsFlusherOf, IsIdle, IsSettled};
ghost use Rattle.lc_stage.specs.Staging.{flusher as first_view};
ghost use Rattle.lc_stage.specs.Publishing.{HoldsTaken, HasPublished};
ghost use Rattle.lc_record.specs.declared.record.Record.{Record};
ghost use Rattle.lc_log.specs.NodeLog.{IsAtRest};
ghost use Rattle.lc_tests_threads.specs.Rounds.{IsUncleared};

use crate::expect::holds;
use crate::staging::{TURNS, begun, close_eight, low_byte, settle};
use lc_disk::{Area, MemArea};
use lc_log::NodeLog;
use lc_record::Group;
use lc_stage::{CommitSeat, FlushSeat, Receipt, Stage, StageFault};
use std::alloc::{AllocError, Global};
use std::process::Abort;
use std::test::Fail;
use std::thread::{join, map_vec, yield_now};

const RECORDS: usize = 48;

// A round that is not full is sealed at once, after so many turns, or after twice as many.
const PATIENCE: u32 = 100;

// A record that the flusher took.
#[derive(Clone, Copy)]
struct Taken {
    round: u32,
    place: usize,
    number: u8,
}

// A committer, and its number.
#[derive(Drop)]
struct Worker<'a> {
    stage: &'a Stage,
    seat: CommitSeat,
    id: u64,
    ghost own: { IsSeatOf stage.now seat × (id < 16) },
    ghost idle: { IsIdle (commit_view seat) },
}

fn workers<'a>(
    alloc: Global,
    stage: &'a Stage,
    first: &mut CommitSeat,
) -> Result<Vec<Worker<'a>>, AllocError>
    requires own { IsSeatOf stage.now first.old }
    requires idle { IsIdle (commit_view first.old) }
{
    let mut workers = Vec::new(alloc);
    for id in 0..16 {
        let seat = stage.split(first);
        workers.push(Worker { stage, seat, id })?;
    }
    Ok(workers)
}

// Notes the records of a group that begins at this place of the round.
fn note_records(
    group: &Group,
    round: u32,
    start: usize,
    taken: &mut Vec<Taken>,
) -> Result<(), AllocError> {
    for record in 0..8 {
        if 8 * record < group.len() {
            taken.push(Taken {
                round,
                place: start.wrapping_add(8 * record),
                number: low_byte(group, 8 * record + 3),
            })?;
        }
    }
    Ok(())
}

// Takes what is closed, publishes it, and notes its records.
fn gather<D: Area + Drop>(
    stage: &Stage,
    flusher: &mut FlushSeat,
    group: &mut Group,
    log: NodeLog<D>,
    round: u32,
    taken: &mut Vec<Taken>,
) -> Option<NodeLog<D>>
    requires own { IsFlusherOf stage.now flusher.old × (stage.now.room ≤ group.old.room) }
    requires log { HoldsTaken D.Area log.area log.end (flush_view flusher.old).taken
        × (8 * stage.now.room + 8 ≤ length (D.now log.area)) }
    ensures own { IsFlusherOf stage.now flusher.new × (group.new.room ≡ group.old.room) }
    ensures log { IfSome result (λ l. HoldsTaken D.Area l.area l.end (flush_view flusher.new).taken
        × (8 * stage.now.room + 8 ≤ length (D.now l.area))) }
    ensures published { IfSome result (λ _. HasPublished (flush_view flusher.old) (flush_view flusher.new)) }
{
    let start = log.end;
    let log = settle(stage, flusher, group, log)?;
    note_records(group, round, start, taken).ok()?;
    Some(log)
}

// Gathers until the round is full, or has some records and its turns are over, and seals it there.
fn gather_and_seal<D: Area + Drop>(
    stage: &Stage,
    flusher: &mut FlushSeat,
    seat: &mut CommitSeat,
    group: &mut Group,
    log: NodeLog<D>,
    round: u32,
    taken: &mut Vec<Taken>,
) -> Option<(NodeLog<D>, usize)>
    requires own { IsFlusherOf stage.now flusher.old × IsSeatOf stage.now seat.old × (stage.now.room ≤ group.old.room) }
    requires log { HoldsTaken D.Area log.area log.end (flush_view flusher.old).taken
        × (8 * stage.now.room + 8 ≤ length (D.now log.area)) }
    requires uncleared { IsUncleared (flush_view flusher.old) }
    ensures own { IsFlusherOf stage.now flusher.new × IsSeatOf stage.now seat.new × (group.new.room ≡ group.old.room) }
    ensures log { IfSome result (λ r. HoldsTaken D.Area r.0.area r.0.end (flush_view flusher.new).taken
        × (8 * stage.now.room + 8 ≤ length (D.now r.0.area))) }
    ensures sealed { IfSome result (λ r. ((flush_view flusher.new).sealed ≡ true)
        × ((flush_view flusher.new).sealed_at ≡ r.1) × (0 < r.1)) }
    ensures uncleared { OnSome result (IsUncleared (flush_view flusher.new)) }
{
    let mut log = log;
    for turn in 0..TURNS {
        log = gather(stage, flusher, group, log, round, taken)?;
        let at = stage.tail(seat);
        let offset = at % 32768;
        if offset == 64 || (offset > 0 && turn >= PATIENCE * (round % 3)) {
            stage.note(flusher, seat);
            if stage.seal(flusher, at).is_ok() {
                return Some((log, offset as usize));
            }
        }
        yield_now();
    }
    None
}

// Gathers until the sealed round is taken whole.
fn gather_rest<D: Area + Drop>(
    stage: &Stage,
    flusher: &mut FlushSeat,
    group: &mut Group,
    log: NodeLog<D>,
    round: u32,
    taken: &mut Vec<Taken>,
    end: usize,
) -> Option<NodeLog<D>>
    requires own { IsFlusherOf stage.now flusher.old × (stage.now.room ≤ group.old.room) }
    requires log { HoldsTaken D.Area log.area log.end (flush_view flusher.old).taken
        × (8 * stage.now.room + 8 ≤ length (D.now log.area)) }
    requires sealed { ((flush_view flusher.old).sealed ≡ true) × ((flush_view flusher.old).sealed_at ≡ end) }
    requires uncleared { IsUncleared (flush_view flusher.old) }
    ensures own { IsFlusherOf stage.now flusher.new × (group.new.room ≡ group.old.room) }
    ensures log { IfSome result (λ l. HoldsTaken D.Area l.area l.end (flush_view flusher.new).taken
        × (8 * stage.now.room + 8 ≤ length (D.now l.area))) }
    ensures settled { OnSome result (IsSettled (flush_view flusher.new) × ((flush_view flusher.new).sealed_at ≡ end)) }
    ensures uncleared { OnSome result (IsUncleared (flush_view flusher.new)) }
{
    let mut log = log;
    for _ in 0..TURNS {
        log = gather(stage, flusher, group, log, round, taken)?;
        if log.end == end {
            return Some(log);
        }
        yield_now();
    }
    None
}

// A log without records.
fn emptied<D: Area + Drop>(log: NodeLog<D>) -> Option<NodeLog<D>>
    requires idle { D.honest log.area ≡ true
        → (records : List Record) × IsAtRest (D.now log.area) (D.dirty log.area) log.end records }
    ensures empty { IfSome result (λ l. HoldsTaken D.Area l.area l.end []) }
    ensures length { IfSome result (λ l. length (D.now l.area) ≡ length (D.now log.area)) }
{
    let Ok(closing) = log.reset_write() else {
        return None;
    };
    let Ok(log) = closing.reset_sync() else {
        return None;
    };
    Some(log)
}

// Opens the next round, and clears the row of the settled one before or after that.
fn next_round(stage: &Stage, flusher: &mut FlushSeat, clears_first: bool) -> Result<(), StageFault>
    requires own { IsFlusherOf stage.now flusher.old }
    requires settled { IsSettled (flush_view flusher.old) × (0 < (flush_view flusher.old).sealed_at) }
    requires uncleared { IsUncleared (flush_view flusher.old) }
    ensures own { IsFlusherOf stage.now flusher.new }
    ensures taken { OnOk result ((flush_view flusher.new).taken ≡ []) }
    ensures uncleared { OnOk result (IsUncleared (flush_view flusher.new)) }
{
    if clears_first {
        stage.clear(flusher);
        return stage.reopen(flusher);
    }
    stage.reopen(flusher)?;
    stage.clear(flusher);
    Ok(())
}

// Flushes one round, and opens the next.
fn flush_round<D: Area + Drop>(
    stage: &Stage,
    flusher: &mut FlushSeat,
    seat: &mut CommitSeat,
    group: &mut Group,
    log: NodeLog<D>,
    round: u32,
    taken: &mut Vec<Taken>,
) -> Option<NodeLog<D>>
    requires own { IsFlusherOf stage.now flusher.old × IsSeatOf stage.now seat.old × (stage.now.room ≤ group.old.room) }
    requires log { HoldsTaken D.Area log.area log.end (flush_view flusher.old).taken
        × (8 * stage.now.room + 8 ≤ length (D.now log.area)) }
    requires uncleared { IsUncleared (flush_view flusher.old) }
    ensures own { IsFlusherOf stage.now flusher.new × IsSeatOf stage.now seat.new × (group.new.room ≡ group.old.room) }
    ensures log { IfSome result (λ l. HoldsTaken D.Area l.area l.end (flush_view flusher.new).taken
        × (8 * stage.now.room + 8 ≤ length (D.now l.area))) }
    ensures uncleared { OnSome result (IsUncleared (flush_view flusher.new)) }
{
    let (sealed, end) = gather_and_seal(stage, flusher, seat, group, log, round, taken)?;
    let whole = gather_rest(stage, flusher, group, sealed, round, taken, end)?;
    let log = emptied(whole)?;
    match next_round(stage, flusher, round % 2 == 0) {
        Ok(()) => Some(log),
        Err(_) => None,
    }
}

// Flushes round after round until 48 records were taken.
fn flush_rounds<D: Area + Drop>(
    alloc: Global,
    stage: &Stage,
    mut flusher: FlushSeat,
    mut seat: CommitSeat,
    mut group: Group,
    log: NodeLog<D>,
) -> Option<Vec<Taken>>
    requires own { IsFlusherOf stage.now flusher × IsSeatOf stage.now seat × (stage.now.room ≤ group.room) }
    requires log { HoldsTaken D.Area log.area log.end (flush_view flusher).taken
        × (8 * stage.now.room + 8 ≤ length (D.now log.area)) }
    requires uncleared { IsUncleared (flush_view flusher) }
{
    let mut log = log;
    let mut taken = Vec::new(alloc);
    for round in 0..TURNS {
        if taken.len() >= RECORDS {
            return Some(taken);
        }
        log = flush_round(
            stage,
            &mut flusher,
            &mut seat,
            &mut group,
            log,
            round,
            &mut taken,
        )?;
    }
    None
}

// Flushes into a new log in memory.
fn flush_in_memory(
    alloc: Global,
    stage: &Stage,
    flusher: FlushSeat,
    seat: CommitSeat,
) -> Option<Vec<Taken>>
    requires own { IsFlusherOf stage.now flusher × IsSeatOf stage.now seat × (stage.now.room ≡ 64) }
    requires first { flush_view flusher ≡ first_view 64 }
{
    let group = Group::new(alloc, 64).ok()?;
    let area = MemArea::new(alloc, 520).ok()?;
    flush_rounds(alloc, stage, flusher, seat, group, begun(area))
}

// Reserves and closes a record of this number, in whatever round there is room.
fn put(stage: &Stage, seat: &mut CommitSeat, number: u64) -> bool
    requires own { IsSeatOf stage.now seat.old }
    requires idle { IsIdle (commit_view seat.old) }
    requires number { (1 ≤ number) × (number ≤ 2 ^ 60) }
    ensures own { IsSeatOf stage.now seat.new }
    ensures idle { IsIdle (commit_view seat.new) }
{
    for _ in 0..TURNS {
        let at = stage.tail(seat);
        if let Ok(_) = stage.reserve(seat, at, 8) {
            close_eight(stage, seat, number);
            return true;
        }
        yield_now();
    }
    false
}

// Closes a record of this number, and waits for its receipt.
fn commit(stage: &Stage, seat: &mut CommitSeat, number: u64) -> Option<Receipt>
    requires own { IsSeatOf stage.now seat.old }
    requires idle { IsIdle (commit_view seat.old) }
    requires number { (1 ≤ number) × (number ≤ 2 ^ 60) }
    ensures own { IsSeatOf stage.now seat.new }
    ensures idle { IsIdle (commit_view seat.new) }
{
    if put(stage, seat, number) {
        for _ in 0..TURNS {
            if let Some(receipt) = stage.durable(seat) {
                return Some(receipt);
            }
            yield_now();
        }
    }
    None
}

// Commits three records under the three numbers above 3 * id.
fn commit_three(stage: &Stage, mut seat: CommitSeat, id: u64) -> Option<[Receipt; 3]>
    requires own { IsSeatOf stage.now seat }
    requires idle { IsIdle (commit_view seat) }
    requires few { id < 16 }
{
    let first = commit(stage, &mut seat, 3 * id + 1)?;
    let second = commit(stage, &mut seat, 3 * id + 2)?;
    let third = commit(stage, &mut seat, 3 * id + 3)?;
    Some([first, second, third])
}

// Whether the record of this number was taken once, and where the receipt says.
fn is_true(taken: &[Taken], number: usize, receipt: &Receipt) -> bool {
    let mut times = 0u32;
    for record in taken {
        if record.number as usize == number {
            let is_there = u64::from(record.round) == receipt.round()
                && record.place == receipt.place() as usize
                && receipt.words() == 8;
            times = times.wrapping_add(if is_there { 1 } else { 2 });
        }
    }
    times == 1
}

// Each of the records is stable, and was taken where its receipt says.
fn are_told(rt: &impl Abort, taken: &[Taken], told: &[Option<[Receipt; 3]>]) -> Result<(), Fail> {
    for (id, receipts) in told.iter().enumerate() {
        let Some(receipts) = receipts else {
            return Err(Fail::from("all records are stable"));
        };
        for (place, receipt) in receipts.iter().enumerate() {
            let number = id.wrapping_mul(3).wrapping_add(place).wrapping_add(1);
            holds(
                rt,
                &format_args!("record {number}, taken where its receipt says"),
                is_true(taken, number, receipt),
            );
        }
    }
    Ok(())
}

// All records were taken, over some rounds, and each as its receipt says.
fn are_all_taken(
    rt: &impl Abort,
    taken: Option<Vec<Taken>>,
    told: Result<Vec<Option<[Receipt; 3]>>, AllocError>,
) -> Result<(), Fail> {
    let taken = taken.ok_or("all records are taken")?;
    assert!(rt; taken.len() == RECORDS);
    are_told(rt, &taken, &told?)?;
    let last = taken.last().ok_or("there is a record")?;
    assert!(rt; last.round >= 4);
    Ok(())
}

#[test]
fn sixteen_threads_over_rounds(rt: HostRuntime) -> Result<(), Fail> {
    let (stage, flusher, mut first) = Stage::new(rt.alloc(), 64)?;
    let seat = stage.split(&mut first);
    let jobs = workers(rt.alloc(), &stage, &mut first)?;
    let shared = &stage;
    let alloc = rt.alloc();
    let host = &rt;
    let (taken, told) = join(
        &rt,
        || -> Option<Vec<Taken>>
            requires { IsFlusherOf shared.now flusher × IsSeatOf shared.now seat × (shared.now.room ≡ 64)
                × (flush_view flusher ≡ first_view 64) }
        { flush_in_memory(alloc, shared, flusher, seat) },
        || {
            map_vec(
                host,
                jobs,
                &|worker: Worker| {
                    let Worker { stage, seat, id } = worker;
                    commit_three(stage, seat, id)
                },
            )
        },
    );
    are_all_taken(&rt, taken, told)
}
