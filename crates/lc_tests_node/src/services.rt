//! Services that keep nodes in order beside a thread that commits.
use crate::stores::{HELLO, LEAST_WORDS, Pair, opened_on_zeros, opened_pair};
use lc_committer::{Committer, ShutdownSignal, Upkeep, keep_member, keep_node};
use lc_disk::MemArea;
use lc_node::{Commit, Mode, Node, Pumped, Put};
use lc_node_fixture::WORDS;
use std::rt::Clock;
use std::sync::Wait;
use std::test::*;
use std::thread::{self, join};
use std::time::Duration;

// A flush each millisecond.
fn often() -> Upkeep {
    Upkeep {
        flush_every: Duration::from_millis(1),
        truncate_at: 50,
    }
}

// A flush each hour, and no truncation.
fn rarely() -> Upkeep {
    Upkeep {
        flush_every: Duration::from_secs(3600),
        truncate_at: 101,
    }
}

// How often a test looks whether the service has done a thing, a millisecond apart: half a minute.
const LOOKS: u32 = 30_000;

// The words of the record of `HELLO`.
const RECORD_WORDS: usize = 8;

fn wait_a_little<R: Clock + Wait>(rt: &R) {
    thread::sleep(rt, Duration::from_millis(1));
}

// Commits lazily, and waits until the record is stable without a flush of its own; whether it became so.
fn sees_it_stable<R: AllocGlobal + Clock + Wait>(
    rt: &R,
    node: &Node<MemArea>,
    committer: Committer<MemArea>,
    shutdown: &ShutdownSignal,
) -> bool {
    let mut committer = committer;
    let mut work = HELLO;
    let done = committer.commit(rt, &[1], &mut work, Mode::Lazy);
    let mut is_stable = false;
    for _ in 0..LOOKS {
        is_stable = node.stable_words(rt) == RECORD_WORDS;
        if is_stable {
            break;
        }
        wait_a_little(rt);
    }
    shutdown.tell(rt);
    matches!(done, Ok(Commit::Lazy)) && is_stable
}

#[test]
fn a_service_makes_lazy_commits_stable(rt: HostRuntime) -> Result<(), Fail> {
    let (node, seat) = opened_on_zeros(rt.alloc(), WORDS)?;
    let committer = Committer::new(&node, seat);
    let shutdown = ShutdownSignal::new();
    let (kept, is_stable) = join(
        &rt,
        || keep_node(&rt, &node, &often(), &shutdown),
        || sees_it_stable(&rt, &node, committer, &shutdown),
    );
    assert!(rt; kept == Ok(()), "the service: {kept:?}");
    assert!(rt; is_stable, "the record is stable");
    Ok(())
}

// Fills half of the least log, makes that stable, and waits until the log is empty; whether it became so.
fn sees_it_emptied<R: AllocGlobal + Clock + Wait>(
    rt: &R,
    node: &Node<MemArea>,
    committer: Committer<MemArea>,
    shutdown: &ShutdownSignal,
) -> bool {
    let mut committer = committer;
    for _ in 0..LEAST_WORDS as usize / RECORD_WORDS / 2 {
        let mut work = HELLO;
        let _done = committer.commit(rt, &[1], &mut work, Mode::Lazy);
    }
    let settled = committer.settle(rt);
    let mut is_emptied = false;
    for _ in 0..LOOKS {
        is_emptied = node.stable_words(rt) == 0;
        if is_emptied {
            break;
        }
        wait_a_little(rt);
    }
    shutdown.tell(rt);
    matches!(settled, Ok(Some(_))) && is_emptied
}

#[test]
fn a_service_empties_a_log_that_is_half_full(rt: HostRuntime) -> Result<(), Fail> {
    let (node, seat) = opened_on_zeros(rt.alloc(), LEAST_WORDS)?;
    let committer = Committer::new(&node, seat);
    let shutdown = ShutdownSignal::new();
    let (kept, is_emptied) = join(
        &rt,
        || keep_node(&rt, &node, &often(), &shutdown),
        || sees_it_emptied(&rt, &node, committer, &shutdown),
    );
    assert!(rt; kept == Ok(()), "the service: {kept:?}");
    assert!(rt; is_emptied, "the log is empty");
    Ok(())
}

// It is woken where it would sleep for an hour, and makes one more round.
#[test]
fn a_service_that_is_told_to_end_flushes_once_more(rt: HostRuntime) -> Result<(), Fail> {
    let (node, seat) = opened_on_zeros(rt.alloc(), WORDS)?;
    let committer = Committer::new(&node, seat);
    let shutdown = ShutdownSignal::new();
    let (kept, done) = join(
        &rt,
        || keep_node(&rt, &node, &rarely(), &shutdown),
        || {
            let mut committer = committer;
            let mut work = HELLO;
            let done = committer.commit(&rt, &[1], &mut work, Mode::Lazy);
            shutdown.tell(&rt);
            done
        },
    );
    assert!(rt; kept == Ok(()), "the service: {kept:?}");
    assert!(rt; matches!(done, Ok(Commit::Lazy)), "the commit: {done:?}");
    let words = node.stable_words(&rt);
    assert!(rt; words == RECORD_WORDS, "words that are stable: {words}");
    Ok(())
}

// Goes on at the second node with what the first has sent, until a record came; whether one did.
fn sees_it_come<R: AllocGlobal + Clock + Wait>(
    rt: &R,
    pair: &Pair,
    shutdown: &ShutdownSignal,
) -> bool {
    let mut has_come = false;
    for _ in 0..LOOKS {
        let pumped = pair.cluster.pump(rt, rt.alloc(), 1, 0);
        has_come = matches!(pumped, Ok(Pumped::Applied { applied: 1, .. }));
        if has_come {
            break;
        }
        wait_a_little(rt);
    }
    shutdown.tell(rt);
    has_come
}

#[test]
fn a_service_sends_the_records_of_its_node(rt: HostRuntime) -> Result<(), Fail> {
    let (pair, first, _second) = opened_pair(rt.alloc())?;
    let shutdown = ShutdownSignal::new();
    let mut work = Put {
        segment: 2,
        ..HELLO
    };
    let mut committer = Committer::new(pair.cluster.node(0), first);
    let done = committer.commit(&rt, &[2], &mut work, Mode::Lazy);
    assert!(rt; matches!(done, Ok(Commit::Lazy)), "the commit: {done:?}");
    let (kept, has_come) = join(
        &rt,
        || keep_member(&rt, &pair.cluster, 0, &often(), &shutdown),
        || sees_it_come(&rt, &pair, &shutdown),
    );
    assert!(rt; kept == Ok(()), "the service: {kept:?}");
    assert!(rt; has_come, "the record came");
    Ok(())
}
