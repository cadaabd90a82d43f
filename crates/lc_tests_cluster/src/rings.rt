//! Four nodes in a ring: the tokens go round while threads of each node commit.
ghost use Rattle.std.specs.Prelude.{◌<◌, ◌≤◌, length};

use crate::crews::{THREADS, Worker, behind, workers};
use crate::expect::holds;
use crate::stores::{SEGMENTS, geometry, opened};
use crate::worlds::{Marks, are_marks, comes_up};
use lc_cluster::{Cluster, Spread};
use lc_disk::MemArea;
use lc_node::{Mode, Pumped, Put, Snapshot};
use lc_node_fixture::put;
use lc_recover::zero_areas;
use std::alloc::Global;
use std::sync::Wait;
use std::sync::atomic::{AtomicU32, Ordering};
use std::test::*;
use std::thread::{Threads, map_vec, yield_now};

const NODES: u16 = 4;

const ALL_THREADS: u32 = NODES as u32 * THREADS;

const COMMITS: u8 = 150;

// More turns than the commits need.
const TURNS: u32 = 100_000_000;

// A thread gives a token away in one of so many turns.
const STAY: u32 = 4;

// More rounds than what is under way at the end needs.
const ROUNDS: u32 = 1000;

// The words of a log that has room for all that a node commits, and of one that has not.
const MANY_WORDS: u32 = 4096;

const FEW_WORDS: u32 = 512;

// Commits a byte again and again, in whichever segment's token is here, and goes on with what the nodes send each
// other until all have committed; the byte that it put last into each segment.
fn commit_and_carry<R: Wait>(
    rt: &R,
    alloc: Global,
    worker: Worker<MemArea>,
    finished: &AtomicU32,
    truncates: bool,
) -> Marks {
    let Worker {
        cluster,
        node,
        number,
        index,
        mut seat,
    } = worker;
    let mut marks = [0; SEGMENTS as usize];
    let mut mark: u8 = 1;
    for turn in 0..TURNS {
        if finished.load(Ordering::SeqCst) == ALL_THREADS {
            break;
        }
        if mark <= COMMITS {
            let place = turn % SEGMENTS;
            let work = Put {
                segment: place + 1,
                offset: index,
                bytes: &[mark],
            };
            let (next, done) = put(rt, alloc, node, seat, &[place + 1], work, Mode::Flush);
            seat = next;
            if done.is_ok() {
                marks[place as usize] = mark;
                finished.fetch_add(u32::from(mark == COMMITS), Ordering::SeqCst);
                mark += 1;
            }
        }
        carry(rt, alloc, cluster, number, turn, truncates);
        yield_now();
    }
    marks
}

// Sends, takes, and hands one token after another on. Whether it empties the log too, it is told.
fn carry<R: Wait>(
    rt: &R,
    alloc: Global,
    cluster: &Cluster<MemArea>,
    number: u16,
    turn: u32,
    truncates: bool,
)
    requires some { 2 ≤ length cluster.now.members.items }
    requires within { number < length cluster.now.members.items }
{
    let _ = cluster.spread(rt, alloc, number);
    take_all(rt, alloc, cluster, number);
    if truncates {
        let _ = cluster.node(number).truncate(rt, alloc);
    }
    if turn % STAY == 0 {
        let segment = turn / STAY % SEGMENTS + 1;
        let _ = cluster.give(rt, number, behind(cluster.nodes(), number), segment);
    }
}

// Takes all that has come to a node; how many messages.
fn take_all<R: Wait>(rt: &R, alloc: Global, cluster: &Cluster<MemArea>, node: u16) -> u32
    requires within { node < length cluster.now.members.items }
{
    let mut taken: u32 = 0;
    for from in 0..cluster.nodes() {
        if from == node {
            continue;
        }
        for _ in 0..ROUNDS {
            match cluster.pump(rt, alloc, node, from) {
                Ok(Pumped::Empty) | Err(_) => break,
                Ok(_) => taken = taken.wrapping_add(1),
            }
        }
    }
    taken
}

// Sends and takes until nothing is under way; whether it came to that.
fn settle<R: Wait>(rt: &R, alloc: Global, cluster: &Cluster<MemArea>) -> bool
    requires { 2 ≤ length cluster.now.members.items }
{
    for _ in 0..ROUNDS {
        let mut quiet = true;
        for node in 0..cluster.nodes() {
            let spread = cluster.spread(rt, alloc, node);
            quiet = quiet && spread == Ok(Spread { sent: 0, left: 0 });
        }
        for node in 0..cluster.nodes() {
            quiet = take_all(rt, alloc, cluster, node) == 0 && quiet;
        }
        if quiet {
            return true;
        }
    }
    false
}

// What each node has of a segment, where they all have the same.
fn common<R: Wait>(
    rt: &R,
    alloc: Global,
    cluster: &Cluster<MemArea>,
    segment: u32,
) -> Option<Snapshot>
    requires { 2 ≤ length cluster.now.members.items }
{
    let first = cluster.node(0).snapshot(rt, alloc, segment).ok()?;
    for node in 1..cluster.nodes() {
        let other = cluster.node(node).snapshot(rt, alloc, segment).ok()?;
        if other.number != first.number || other.bytes.as_slice() != first.bytes.as_slice() {
            return None;
        }
    }
    Some(first)
}

// Whether all nodes have the same, with the last mark of each thread and as many records as there were commits.
fn has_all<R: Wait>(rt: &R, alloc: Global, cluster: &Cluster<MemArea>, marks: &[Marks]) -> bool
    requires { 2 ≤ length cluster.now.members.items }
{
    let mut records: u64 = 0;
    for place in 0..SEGMENTS {
        let Some(copy) = common(rt, alloc, cluster, place + 1) else {
            return false;
        };
        if !are_marks(copy.bytes.as_slice(), marks, place as usize) {
            return false;
        }
        records = records.wrapping_add(copy.number);
    }
    records == u64::from(ALL_THREADS) * u64::from(COMMITS)
}

// Lets all threads of a ring come to their end; whether each node has every commit then, and the store too that they
// leave.
fn keeps_all<R: Threads + Wait + Sync>(rt: &R, alloc: Global, words: u32) -> Result<bool, Fail> {
    let geometry = geometry(NODES, words)?;
    let (cluster, seats) = opened(alloc, geometry, zero_areas(alloc, &geometry)?)?;
    let finished = AtomicU32::new(0);
    let truncates = words == FEW_WORDS;
    let workers = workers(alloc, &cluster, seats)?;
    let marks = map_vec(
        rt,
        workers,
        &|worker: Worker<MemArea>| commit_and_carry(rt, alloc, worker, &finished, truncates),
    )?;
    let is_quiet = settle(rt, alloc, &cluster);
    let marks = marks.as_slice();
    let has_all = has_all(rt, alloc, &cluster, marks);
    Ok(is_quiet && has_all && comes_up(rt, alloc, cluster, marks)?)
}

// Where a log has no room for all, the commits come to an end since it is emptied.
#[test]
fn each_node_has_every_commit_at_the_end(rt: HostRuntime) -> Result<(), Fail> {
    for words in [MANY_WORDS, FEW_WORDS] {
        holds(
            &rt,
            &format_args!("logs of {words} words"),
            keeps_all(&rt, rt.alloc(), words)?,
        );
    }
    Ok(())
}
