//! Many threads on one node.
ghost use Rattle.lc_stage.specs.Seats.{commit_view, IsSeatOf, IsIdle};

use crate::expect::equal;
use crate::stores::{in_memory, opened, two_segments};
use lc_disk::Area;
use lc_node::{Commit, Confirmed, Mode, Node, Put};
use lc_node_fixture::{Open, SharedArea, Shelf, TRIES, confirm, get, recovered};
use lc_stage::{CommitSeat, Receipt};
use std::alloc::{AllocError, Global};
use std::process::Abort;
use std::sync::Wait;
use std::sync::atomic::{AtomicU32, Ordering};
use std::test::*;
use std::thread::{join, map_vec, yield_now};

const THREADS: u32 = 16;

const COMMITS: u32 = 200;

// More attempts than a commit needs.
const ATTEMPTS: u32 = 1_000_000;

// More turns than the committers take.
const TURNS: u64 = 1_000_000_000;

// What a thread does.
#[derive(Clone, Copy)]
enum Role {
    /// It commits, as the thread of this number.
    Commits(u32),
    /// It flushes until all have committed.
    Flushes,
    /// It truncates until all have committed.
    Truncates,
}

// A thread with its seat.
#[derive(Drop)]
struct Worker<'a, 'b> {
    node: &'a Node<SharedArea<'b>>,
    finished: &'a AtomicU32,
    role: Role,
    seat: CommitSeat,
    ghost own: { IsSeatOf node.now.stage seat },
    ghost idle: { IsIdle (commit_view seat) },
}

// Does what the role asks for; how many receipts were confirmed.
fn perform<R: Wait>(
    rt: &R,
    alloc: Global,
    node: &Node<SharedArea<'_>>,
    finished: &AtomicU32,
    role: Role,
    seat: CommitSeat,
) -> u32
    requires own { IsSeatOf node.now.stage seat }
    requires idle { IsIdle (commit_view seat) }
{
    match role {
        Role::Commits(number) => {
            let confirmed = commit_all(rt, alloc, node, seat, number);
            finished.fetch_add(1, Ordering::SeqCst);
            confirmed
        }
        Role::Flushes => {
            for _ in 0..TURNS {
                if finished.load(Ordering::SeqCst) == THREADS {
                    break;
                }
                let _ = node.flush(rt);
                yield_now();
            }
            0
        }
        Role::Truncates => {
            for _ in 0..TURNS {
                if finished.load(Ordering::SeqCst) == THREADS {
                    break;
                }
                let _ = node.truncate(rt, alloc);
                yield_now();
            }
            0
        }
    }
}

// The segments that a thread locks.
fn segments_of(number: u32) -> &'static [u32] {
    match number % 3 {
        0 => &[1],
        1 => &[2],
        _ => &[2, 1],
    }
}

// Commits a byte again and again, and confirms each receipt.
fn commit_all<D: Area + Drop, R: Wait>(
    rt: &R,
    alloc: Global,
    node: &Node<D>,
    seat: CommitSeat,
    number: u32,
) -> u32
    requires own { IsSeatOf node.now.stage seat }
    requires idle { IsIdle (commit_view seat) }
{
    let segments = segments_of(number);
    let segment = segments.first().copied().unwrap_or(1);
    let mut seat = seat;
    let mut confirmed: u32 = 0;
    for round in 0..COMMITS {
        let bytes = [round as u8];
        let put = Put {
            segment,
            offset: number.wrapping_mul(32).wrapping_add(round % 32) % 512,
            bytes: &bytes,
        };
        let (next, is_confirmed) = commit(rt, alloc, node, seat, segments, put);
        seat = next;
        confirmed = confirmed.wrapping_add(u32::from(is_confirmed));
    }
    confirmed
}

// Commits until it is stable: another attempt helps where the log is full or being emptied.
fn commit<D: Area + Drop, R: Wait>(
    rt: &R,
    alloc: Global,
    node: &Node<D>,
    seat: CommitSeat,
    segments: &[u32],
    put: Put,
) -> (CommitSeat, bool)
    requires own { IsSeatOf node.now.stage seat }
    requires idle { IsIdle (commit_view seat) }
    ensures own { IsSeatOf node.now.stage result.0 }
    ensures idle { IsIdle (commit_view result.0) }
{
    let mut seat = seat;
    for _ in 0..ATTEMPTS {
        let mut work = put;
        match node.transact(
            rt,
            alloc,
            seat,
            segments,
            &mut work,
            Mode::Flush,
            TRIES,
            &Open,
        ) {
            (next, Ok(Commit::Flushed(receipt))) => {
                let (next, confirmed) = confirm(rt, node, next, receipt);
                return (next, is_right(&receipt, confirmed));
            }
            (next, _) => seat = next,
        }
        yield_now();
    }
    (seat, false)
}

// Whether the record of a receipt can be where it is said to be.
fn is_right(receipt: &Receipt, confirmed: Confirmed) -> bool {
    match confirmed {
        Confirmed::Here(index) => index == receipt.place() as usize / 8,
        Confirmed::Earlier { round } => receipt.round() < round,
    }
}

// The threads of a crowd, each with a seat of its own.
fn workers<'a, 'b>(
    alloc: Global,
    node: &'a Node<SharedArea<'b>>,
    finished: &'a AtomicU32,
    seat: &mut CommitSeat,
) -> Result<Vec<Worker<'a, 'b>>, AllocError>
    requires own { IsSeatOf node.now.stage seat.old }
    requires idle { IsIdle (commit_view seat.old) }
    ensures own { IsSeatOf node.now.stage seat.new }
    ensures idle { IsIdle (commit_view seat.new) }
{
    let mut workers = Vec::new(alloc);
    for number in 0..THREADS + 2 {
        let role = match number {
            0 => Role::Flushes,
            1 => Role::Truncates,
            _ => Role::Commits(number),
        };
        let seat = node.split(seat);
        workers.push(Worker {
            node,
            finished,
            role,
            seat,
        })?;
    }
    Ok(workers)
}

#[test]
fn each_receipt_is_confirmed_and_the_pages_have_all(rt: HostRuntime) -> Result<(), Fail> {
    let alloc = rt.alloc();
    let finished = AtomicU32::new(0);
    let shelf = Shelf::new(alloc, &two_segments()?)?;
    let (node, mut seat) = opened(alloc, two_segments()?, shelf.areas(alloc)?)?;
    let workers = workers(alloc, &node, &finished, &mut seat)?;
    let host = &rt;
    let counts = map_vec(
        &rt,
        workers,
        &|worker: Worker| {
            let Worker {
                node,
                finished,
                role,
                seat,
            } = worker;
            perform(host, alloc, node, finished, role, seat)
        },
    )?;
    assert!(rt; total(counts.as_slice()) == THREADS * COMMITS);

    let (seat, first) = get(&rt, alloc, &node, seat, 1, 0, 512);
    let (_seat, second) = get(&rt, alloc, &node, seat, 2, 0, 512);
    let first = first.expect(&rt, "it is read");
    let second = second.expect(&rt, "it is read");
    let store = recovered(alloc, two_segments()?, shelf.areas(alloc)?)?;
    for page in 0..2 {
        check_page(&rt, 1, store.page(1, page), first.as_slice(), page as usize);
        check_page(
            &rt,
            2,
            store.page(2, page),
            second.as_slice(),
            page as usize,
        );
    }
    Ok(())
}

fn total(counts: &[u32]) -> u32 {
    let mut total: u32 = 0;
    for count in counts {
        total = total.wrapping_add(*count);
    }
    total
}

// These are the bytes of the page of a segment.
fn check_page(rt: &impl Abort, segment: u32, page: &[u8], bytes: &[u8], number: usize) {
    equal(
        rt,
        &format_args!("page {number} of segment {segment}"),
        &Some(page),
        &bytes.chunks(256).nth(number),
    );
}

// How often two threads lock both segments.
const TURNS_ON_BOTH: u32 = 100_000;

fn lock_both<D: Area + Drop, R: Wait>(
    rt: &R,
    alloc: Global,
    node: &Node<D>,
    segments: &[u32],
) -> u32 {
    let mut count: u32 = 0;
    for _ in 0..TURNS_ON_BOTH {
        if let Ok(held) = node.hold(rt, alloc, segments) {
            node.release(held);
            count = count.wrapping_add(1);
        }
    }
    count
}

#[test]
fn two_orders_of_segments_end(rt: HostRuntime) -> Result<(), Fail> {
    let alloc = rt.alloc();
    let (node, _seat) = opened(alloc, two_segments()?, in_memory(alloc)?)?;
    let (host, shared) = (&rt, &node);
    let (one, two) = join(
        &rt,
        || lock_both(host, alloc, shared, &[1, 2]),
        || lock_both(host, alloc, shared, &[2, 1]),
    );
    assert!(rt; one == TURNS_ON_BOTH && two == TURNS_ON_BOTH);
    Ok(())
}
