//! A value that threads pass on under a lock.
ghost use Rattle.std.specs.Prelude.{◌≡◌, ◌+◌};
ghost use Rattle.lc_lock.specs.Loans.{key_of, IsLoanOf};

use lc_lock::{Keyed, Loan, TicketLock};
use std::alloc::Global;
use std::hint::spin_loop;
use std::process::Abort;
use std::rt::Clock;
use std::sync::Wait;
use std::sync::atomic::{AtomicU64, Ordering};
use std::test::Fail;
use std::thread::{join, map_indices, sleep, yield_now};
use std::time::Duration;

const THREADS: usize = 4;

const ADDITIONS: u64 = 10_000;

// Threads of which most wait so long that they sleep.
const CROWD: usize = 16;

const ADDITIONS_OF_EACH: u64 = 2_000;

// A holder sleeps at one addition of so many, and else lets others run up to so many times: so some holds are just as
// long as a thread looks before it sleeps.
const SLEEPS_ONCE_IN: u64 = 97;

const YIELDS: u64 = 24;

const NAP_MICROSECONDS: u64 = 50;

// Two threads pass a lock on, after holds of so many lengths: so some end just where the other falls asleep.
const PAIR: usize = 2;

const ADDITIONS_OF_A_PAIR: u64 = 60_000;

const LENGTHS: u64 = 1_000;

// A crowd of which nobody went on for so many looks, of so long each, waits for a wake that was lost. Where others use
// the processors it goes on slowly, so the time of all is not bounded but by what a test may take.
const IDLE_LOOKS: u32 = 2000;

const LOOKS: u32 = 5500;

const LOOK_MILLISECONDS: u64 = 10;

// What a lock keeps: a total, and how many additions of 1 led to it.
#[derive(Drop)]
struct Tally {
    total: u64,
    additions: u64,
}

// The key is the total without an addition.
impl Keyed<u64> for Tally {
    ghost fits = { λ first tally. tally.total ≡ first + tally.additions };
}

// One addition more, if there is room for it: both numbers grow alike.
fn plus_one(tally: Tally) -> Tally
    ensures { result.total + tally.additions ≡ tally.total + result.additions }
{
    let Tally { total, additions } = tally;
    let Some(more) = total.checked_add(1) else {
        return Tally { total, additions };
    };
    let Some(count) = additions.checked_add(1) else {
        return Tally { total, additions };
    };
    Tally {
        total: more,
        additions: count,
    }
}

// A lock that keeps 7, with no addition.
fn new_lock(alloc: Global) -> Result<TicketLock<Tally, u64>, Fail> {
    let tally = Tally {
        total: 7,
        additions: 0,
    };
    match TicketLock::new(alloc, tally, &7) {
        Ok(lock) => Ok(lock),
        Err(_) => Err(Fail::from("there is memory for a lock")),
    }
}

fn add_all<R: Wait>(rt: &R, lock: &TicketLock<Tally, u64>) {
    for _ in 0..ADDITIONS {
        let (tally, loan) = lock.lock(rt);
        lock.unlock(plus_one(tally), loan);
    }
}

// Adds as often as each of a crowd does, where now and then the holder is slow, and counts each addition.
fn add_slowly<R: Clock + Wait>(
    rt: &R,
    lock: &TicketLock<Tally, u64>,
    passed: &AtomicU64,
    first: u64,
) {
    for turn in 0..ADDITIONS_OF_EACH {
        let (tally, loan) = lock.lock(rt);
        let turn = turn.wrapping_add(first);
        if turn % SLEEPS_ONCE_IN == 0 {
            sleep(rt, Duration::from_micros(NAP_MICROSECONDS));
        } else {
            for _ in 0..turn % YIELDS {
                yield_now();
            }
        }
        passed.fetch_add(1, Ordering::SeqCst);
        lock.unlock(plus_one(tally), loan);
    }
}

// The same where each hold spins a little longer than the one before, up to the longest.
fn add_by_lengths<R: Wait>(rt: &R, lock: &TicketLock<Tally, u64>, passed: &AtomicU64) {
    for turn in 0..ADDITIONS_OF_A_PAIR {
        let (tally, loan) = lock.lock(rt);
        for _ in 0..turn % LENGTHS {
            spin_loop();
        }
        passed.fetch_add(1, Ordering::SeqCst);
        lock.unlock(plus_one(tally), loan);
    }
}

// Looks until so many additions are made, and ends the test where none is made any more.
fn watch<R: Abort + Clock>(rt: &R, passed: &AtomicU64, all: u64) {
    let mut seen = 0;
    let mut idle: u32 = 0;
    for _ in 0..LOOKS {
        let before = seen;
        seen = passed.load(Ordering::SeqCst);
        idle = if seen == before {
            idle.saturating_add(1)
        } else {
            0
        };
        if seen >= all || idle >= IDLE_LOOKS {
            break;
        }
        sleep(rt, Duration::from_millis(LOOK_MILLISECONDS));
    }
    assert!(rt;
        seen >= all,
        "{seen} of {all} additions are made, and the others wait"
    );
}

// Total and additions, under the lock.
fn look<R: Wait>(rt: &R, lock: &TicketLock<Tally, u64>) -> (u64, u64) {
    let (tally, loan) = lock.lock(rt);
    let seen = (tally.total, tally.additions);
    lock.unlock(tally, loan);
    seen
}

// Waits until so many tickets are out, adds 1 under the lock, and answers which addition that was.
fn add_as<R: Wait>(rt: &R, lock: &TicketLock<Tally, u64>, tickets: u32) -> u64 {
    await_tickets(rt, lock, tickets);
    let (tally, loan) = lock.lock(rt);
    let tally = plus_one(tally);
    let number = tally.additions;
    lock.unlock(tally, loan);
    number
}

fn await_tickets<R: Wait>(rt: &R, lock: &TicketLock<Tally, u64>, tickets: u32) {
    for _ in rt.forever() {
        if lock.tickets_out() >= tickets {
            return;
        }
        yield_now();
    }
}

// Who gives a vacant lock its value, at the latest when it is dropped.
struct Bringer<'a> {
    lock: &'a TicketLock<Tally, u64>,
    loan: Loan<Tally, u64>,
    ghost own: { IsLoanOf lock.now loan × (key_of lock.now ≡ 7) },
}

impl Drop for Bringer<'_> {
    fn drop(self) {
        let Self { lock, loan } = self;
        lock.unlock(
            Tally {
                total: 7,
                additions: 0,
            },
            loan,
        );
    }
}

// Gives the lock its value once so many tickets are out.
fn bring<R: Wait>(rt: &R, bringer: Bringer, tickets: u32) {
    await_tickets(rt, bringer.lock, tickets);
    drop(bringer);
}

#[test]
fn no_addition_is_lost(rt: HostRuntime) -> Result<(), Fail> {
    let lock = new_lock(rt.alloc())?;
    let shared = &lock;
    let host = &rt;
    map_indices(&rt, rt.alloc(), THREADS, &|_| add_all(host, shared))?;
    assert!(rt; look(&rt, &lock) == (40_007, 40_000));
    assert!(rt; lock.tickets_out() == 0);
    Ok(())
}

// Most of the crowd sleep at any time. Where a wake is lost nobody goes on.
#[test]
fn no_wake_is_lost_in_a_crowd(rt: HostRuntime) -> Result<(), Fail> {
    let lock = new_lock(rt.alloc())?;
    let passed = AtomicU64::new(0);
    let shared = &lock;
    let count = &passed;
    let host = &rt;
    let (added, ()) = join(
        &rt,
        || map_indices(
            host,
            host.alloc(),
            CROWD,
            &|i| add_slowly(host, shared, count, i as u64),
        ),
        || watch(host, count, CROWD as u64 * ADDITIONS_OF_EACH),
    );
    added?;
    assert!(rt; look(&rt, &lock) == (32_007, 32_000));
    assert!(rt; lock.tickets_out() == 0);
    Ok(())
}

// Who falls asleep while its ticket is served is woken all the same.
#[test]
fn no_wake_is_lost_where_a_thread_falls_asleep(rt: HostRuntime) -> Result<(), Fail> {
    let lock = new_lock(rt.alloc())?;
    let passed = AtomicU64::new(0);
    let shared = &lock;
    let count = &passed;
    let host = &rt;
    let (added, ()) = join(
        &rt,
        || map_indices(
            host,
            host.alloc(),
            PAIR,
            &|_| add_by_lengths(host, shared, count),
        ),
        || watch(host, count, PAIR as u64 * ADDITIONS_OF_A_PAIR),
    );
    added?;
    assert!(rt; look(&rt, &lock) == (120_007, 120_000));
    assert!(rt; lock.tickets_out() == 0);
    Ok(())
}

#[test]
fn who_locks_a_vacant_lock_waits_for_its_value(rt: HostRuntime) -> Result<(), Fail> {
    let (lock, loan): (TicketLock<Tally, u64>, Loan<Tally, u64>) = TicketLock::vacant(
        rt.alloc(),
        &7,
    )?;
    let shared = &lock;
    let host = &rt;
    let bringer = Bringer { lock: shared, loan };
    let (seen, ()) = join(&rt, || look(host, shared), || bring(host, bringer, 2));
    assert!(rt; seen == (7, 0));
    Ok(())
}

// The second draws its ticket once the first has, and the value comes once both wait.
#[test]
fn who_has_waited_longer_is_first(rt: HostRuntime) -> Result<(), Fail> {
    let (lock, loan): (TicketLock<Tally, u64>, Loan<Tally, u64>) = TicketLock::vacant(
        rt.alloc(),
        &7,
    )?;
    let shared = &lock;
    let host = &rt;
    let bringer = Bringer { lock: shared, loan };
    let (numbers, ()) = join(
        &rt,
        || join(host, || add_as(host, shared, 1), || add_as(host, shared, 2)),
        || bring(host, bringer, 3),
    );
    assert!(rt; numbers == (1, 2));
    Ok(())
}

// Where memory is refused the value comes back as it was, and the next attempt makes the lock.
#[test]
fn refused_memory_gives_the_value_back(rt: HostRuntime) -> Result<(), Fail> {
    let tally = Tally {
        total: 9,
        additions: 2,
    };
    let lock = match TicketLock::new(rt.alloc(), tally, &7) {
        Ok(lock) => lock,
        Err(tally) => {
            assert!(rt; tally.total == 9 && tally.additions == 2);
            let Ok(lock) = TicketLock::new(rt.alloc(), tally, &7) else {
                return Err(Fail::from("memory is refused once"));
            };
            lock
        }
    };
    assert!(rt; look(&rt, &lock) == (9, 2));
    Ok(())
}

fn crosses<X: Send>(_: &X) {}

fn is_shared<X: Sync>(_: &X) {}

// Both may cross threads wherever the value may.
fn cross_threads<T: Keyed<K> + Send, K>(lock: &TicketLock<T, K>, loan: &Loan<T, K>) {
    crosses(lock);
    is_shared(lock);
    crosses(loan);
}

#[test]
fn lock_and_loan_cross_threads(rt: HostRuntime) -> Result<(), Fail> {
    let (lock, loan): (TicketLock<Tally, u64>, Loan<Tally, u64>) = TicketLock::vacant(
        rt.alloc(),
        &7,
    )?;
    cross_threads(&lock, &loan);
    drop(Bringer { lock: &lock, loan });
    assert!(rt; look(&rt, &lock) == (7, 0));
    Ok(())
}
