//! Clusters whose threads have ended become stores.
ghost use Rattle.std.specs.Prelude.{◌≡◌, ◌≢◌, ◌<◌, ◌≤◌, ◌∷◌, [], All, IfOk, length};
ghost use Rattle.lc_cluster.specs.Cluster.{IsSeatAt};
ghost use Rattle.lc_cluster.specs.LeftBy.{AreOwnSeats};
ghost use Rattle.lc_log_side.specs.LeftBy.{IsIdleSeatOf};

use crate::crews::{Worker, behind, workers};
use crate::expect::holds;
use crate::stores::{SEGMENTS, geometry, opened, opened_two};
use crate::worlds::{Marks, comes_up, stop_and_recover};
use lc_cluster::Cluster;
use lc_disk::MemArea;
use lc_node::{Confirmed, Mode, Node, Put};
use lc_node_fixture::{put, put_and_confirm, recovered};
use lc_recover::zero_areas;
use lc_stage::CommitSeat;
use lc_store::into_world;
use std::alloc::{AllocError, Global};
use std::sync::Wait;
use std::test::*;
use std::thread::{Threads, join, map_vec};

const WORDS: u32 = 512;

// The next of a row of numbers that look like chance (Numerical Recipes).
fn next_seed(seed: u32) -> u32 {
    seed.wrapping_mul(1_664_525).wrapping_add(1_013_904_223)
}

// One step of a thread that commits nothing.
fn go_on<R: Wait>(rt: &R, alloc: Global, cluster: &Cluster<MemArea>, number: u16, seed: u32)
    requires some { 2 ≤ length cluster.now.members.items }
    requires within { number < length cluster.now.members.items }
{
    let other = behind(cluster.nodes(), number);
    let segment = (seed >> 8) % SEGMENTS + 1;
    match (seed >> 16) % 6 {
        0 => {
            let _ = cluster.node(number).flush(rt);
        }
        1 => {
            let _ = cluster.node(number).truncate(rt, alloc);
            let _ = cluster.trim(rt, number);
        }
        2 => {
            let _ = cluster.give(rt, number, other, segment);
        }
        3 => {
            let _ = cluster.spread(rt, alloc, number);
        }
        _ => {
            let _ = cluster.pump(rt, alloc, other, number);
        }
    }
}

// So many steps of a thread; what it put last into each segment.
fn act_often<R: Wait>(
    rt: &R,
    alloc: Global,
    worker: Worker<MemArea>,
    run: u32,
    steps: u8,
) -> Marks {
    let Worker {
        cluster,
        node,
        number,
        index,
        mut seat,
    } = worker;
    let mut seed = run.wrapping_mul(40_503).wrapping_add(index);
    let mut marks = [0; SEGMENTS as usize];
    for step in 0..steps {
        seed = next_seed(seed);
        let place = (seed >> 24) % SEGMENTS;
        let mode = if seed & 1024 == 0 {
            Mode::Lazy
        } else {
            Mode::Flush
        };
        let work = Put {
            segment: place + 1,
            offset: index,
            bytes: &[step + 1],
        };
        let (next, done) = put(rt, alloc, node, seat, &[place + 1], work, mode);
        seat = next;
        if done.is_ok() {
            marks[place as usize] = step + 1;
        }
        go_on(rt, alloc, cluster, number, seed);
    }
    marks
}

// Empties all logs that may be, and drops what none of the nodes wants any more.
fn trim_all<R: Wait>(rt: &R, alloc: Global, cluster: &Cluster<MemArea>) {
    for node in 0..cluster.nodes() {
        let _ = cluster.node(node).truncate(rt, alloc);
    }
    for _ in 0..cluster.nodes() {
        for node in 0..cluster.nodes() {
            let _ = cluster.trim(rt, node);
        }
    }
}

// Lets the threads of a cluster of so many nodes run; whether the store that it becomes has all that they closed.
fn run_and_come_up<R: Threads + Wait + Sync>(
    rt: &R,
    alloc: Global,
    nodes: u16,
    run: u32,
) -> Result<bool, Fail>
    requires some { 2 ≤ nodes }
    requires few { nodes ≤ 4 }
{
    let geometry = geometry(nodes, WORDS)?;
    let (cluster, seats) = opened(alloc, geometry, zero_areas(alloc, &geometry)?)?;
    let workers = workers(alloc, &cluster, seats)?;
    let steps = (run % 24) as u8 + 1;
    let marks = map_vec(
        rt,
        workers,
        &|worker: Worker<MemArea>| act_often(rt, alloc, worker, run, steps),
    )?;
    if run % 2 == 1 {
        trim_all(rt, alloc, &cluster);
    }
    comes_up(rt, alloc, cluster, marks.as_slice())
}

#[test]
fn honest_runs_come_up_with_all_that_was_closed(rt: HostRuntime) -> Result<(), Fail> {
    for run in 0..200 {
        let nodes = (run % 3) as u16 + 2;
        holds(
            &rt,
            &format_args!("run {run} of {nodes} nodes"),
            run_and_come_up(&rt, rt.alloc(), nodes, run)?,
        );
    }
    Ok(())
}

// Commits a byte at the offset of its value, and confirms its receipt; the seat that has it, and whether its record is
// there.
fn commit_and_confirm<R: Wait>(
    rt: &R,
    alloc: Global,
    node: &Node<MemArea>,
    seat: CommitSeat,
    segment: u32,
    mark: u8,
) -> (CommitSeat, bool)
    requires { IsIdleSeatOf node.now.stage seat }
    ensures { IsIdleSeatOf node.now.stage result.0 }
{
    let put = Put {
        segment,
        offset: u32::from(mark),
        bytes: &[mark],
    };
    let (seat, receipt) = put_and_confirm(rt, alloc, node, seat, &[segment], put);
    (seat, matches!(receipt, Some((_, Confirmed::Here(_)))))
}

// Both in a list.
fn list_of_two<T: Drop>(alloc: Global, one: T, two: T) -> Result<Vec<T>, AllocError>
    ensures { IfOk result (λ list. list.items ≡ one ∷ two ∷ []) }
{
    let mut list = Vec::new(alloc);
    list.push(one)?;
    list.push(two)?;
    Ok(list)
}

// Two threads of a node do so side by side; their seats, and whether both records are there.
fn commit_as_two<R: Threads + Wait + Sync>(
    rt: &R,
    alloc: Global,
    node: &Node<MemArea>,
    seat: CommitSeat,
    segment: u32,
    marks: (u8, u8),
) -> Result<(Vec<CommitSeat>, bool), AllocError>
    requires { IsIdleSeatOf node.now.stage seat }
    ensures { IfOk result (λ left. All (IsIdleSeatOf node.now.stage) left.0.items) }
{
    let mut seat = seat;
    let other = node.split(&mut seat);
    let ((seat, first), (other, second)) = join(
        rt,
        || -> (CommitSeat, bool)
            requires { IsIdleSeatOf node.now.stage seat }
            ensures { IsIdleSeatOf node.entry.now.stage result.0 }
        { commit_and_confirm(rt, alloc, node, seat, segment, marks.0) },
        || -> (CommitSeat, bool)
            requires { IsIdleSeatOf node.now.stage other }
            ensures { IsIdleSeatOf node.entry.now.stage result.0 }
        { commit_and_confirm(rt, alloc, node, other, segment, marks.1) },
    );
    let seats = list_of_two(alloc, seat, other)?;
    Ok((seats, first && second))
}

// Two threads of each of two nodes do, side by side; the seats of each node, and whether all records are there.
fn commit_as_four<R: Threads + Wait + Sync>(
    rt: &R,
    alloc: Global,
    cluster: &Cluster<MemArea>,
    seats: (CommitSeat, CommitSeat),
) -> Result<(Vec<Vec<CommitSeat>>, bool), AllocError>
    requires two { length cluster.now.members.items ≡ 2 }
    requires own { IsSeatAt cluster.now 0 seats.0 × IsSeatAt cluster.now 1 seats.1 }
    ensures { IfOk result (λ left. AreOwnSeats cluster.now left.0.items) }
{
    let (here, there) = (cluster.node(0), cluster.node(1));
    let (first, second) = seats;
    let (first, second) = join(
        rt,
        || -> Result<(Vec<CommitSeat>, bool), AllocError>
            requires { IsIdleSeatOf here.now.stage first }
            ensures { IfOk result (λ left. All (IsIdleSeatOf here.entry.now.stage) left.0.items) }
        { commit_as_two(rt, alloc, here, first, 2, (1, 2)) },
        || -> Result<(Vec<CommitSeat>, bool), AllocError>
            requires { IsIdleSeatOf there.now.stage second }
            ensures { IfOk result (λ left. All (IsIdleSeatOf there.entry.now.stage) left.0.items) }
        { commit_as_two(rt, alloc, there, second, 1, (3, 4)) },
    );
    let (first, here) = first?;
    let (second, there) = second?;
    let seats = list_of_two(alloc, first, second)?;
    Ok((seats, here && there))
}

#[test]
fn what_four_seats_have_receipts_of_comes_up(rt: HostRuntime) -> Result<(), Fail> {
    let alloc = rt.alloc();
    let geometry = geometry(2, WORDS)?;
    let (cluster, first, second) = opened_two(alloc, geometry, zero_areas(alloc, &geometry)?)?;
    let (seats, are_there) = commit_as_four(&rt, alloc, &cluster, (first, second))?;
    assert!(rt; are_there);
    let world = into_world(cluster, &rt, alloc, seats);
    let mut world = world.ok().expect(&rt, "the parts agree");
    stop_and_recover(alloc, &mut world)?;
    let (_, areas) = world.into_areas();
    let store = recovered(alloc, geometry, areas)?;
    assert!(rt; store.page(2, 0).get(..5) == Some([0, 1, 2, 0, 0].as_slice()));
    assert!(rt; store.page(1, 0).get(..5) == Some([0, 0, 0, 3, 4].as_slice()));
    Ok(())
}
