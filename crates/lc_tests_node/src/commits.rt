//! Commits of one caller, and where their records are.
use crate::expect::equal;
use crate::stores::{HELLO, in_memory, opened, two_segments};
use lc_node::{Commit, Confirmed, Get, Mode, Put};
use lc_node_fixture::{Open, TRIES, get, put, put_and_confirm};
use lc_stage::Receipt;
use std::alloc::Global;
use std::test::*;

const BYE: Put<'static> = Put {
    segment: 1,
    offset: 3,
    bytes: b"bye",
};

// Whether a receipt is of 8 words at the beginning of this round.
fn is_first_of(receipt: &Receipt, round: u64) -> bool {
    receipt.round() == round && receipt.place() == 0 && receipt.words() == 8
}

#[test]
fn a_record_is_here_and_behind_a_truncation_earlier(rt: HostRuntime) -> Result<(), Fail> {
    let alloc = rt.alloc();
    let (node, seat) = opened(alloc, two_segments()?, in_memory(alloc)?)?;
    let (seat, told) = put_and_confirm(&rt, alloc, &node, seat, &[1], HELLO);
    let (receipt, confirmed) = told.expect(&rt, "it is stable");
    assert!(rt; is_first_of(&receipt, 0) && confirmed == Confirmed::Here(0));

    assert!(rt; node.truncate(&rt, alloc) == Ok(1));
    let (seat, found) = get(&rt, alloc, &node, seat, 1, 3, 5);
    assert!(rt; found.expect(&rt, "it is there").as_slice() == b"hello".as_slice());
    let (seat, told) = put_and_confirm(&rt, alloc, &node, seat, &[1], BYE);
    let (receipt, confirmed) = told.expect(&rt, "it is stable");
    assert!(rt; is_first_of(&receipt, 1) && confirmed == Confirmed::Here(0));

    let (seat, lazy) = put(&rt, alloc, &node, seat, &[1], HELLO, Mode::Lazy);
    assert!(rt; matches!(lazy, Ok(Commit::Lazy)));
    let (seat, none) = node.durable(&rt, seat);
    assert!(rt; none.is_none(), "it is not stable yet");
    assert!(rt; node.flush(&rt) == Ok(1) && node.flush(&rt) == Ok(0));
    let (_seat, receipt) = node.durable(&rt, seat);
    assert!(rt; receipt.expect(&rt, "it is stable").place() == 8);
    Ok(())
}

// The five bytes that `HELLO` changes.
fn get_hello(alloc: Global) -> Get {
    Get {
        segment: 1,
        offset: 3,
        len: 5,
        found: Vec::new(alloc),
    }
}

#[test]
fn a_caller_reads_back_what_it_committed_under_its_locks(rt: HostRuntime) -> Result<(), Fail> {
    let alloc = rt.alloc();
    let (node, mut seat) = opened(alloc, two_segments()?, in_memory(alloc)?)?;
    let Ok(mut held) = node.hold(&rt, alloc, &[1, 2]) else {
        return Err(Fail::from("there is memory for two locks"));
    };
    let (mut first, mut work, mut second) = (get_hello(alloc), HELLO, get_hello(alloc));
    let done = held.commit(alloc, &node, &mut seat, &mut work, TRIES, &Open);
    let read = held.commit(alloc, &node, &mut seat, &mut first, TRIES, &Open);
    held.fold();
    let again = held.commit(alloc, &node, &mut seat, &mut second, TRIES, &Open);
    node.release(held);
    equal(&rt, &"the commit", &done, &Ok(true));
    equal(&rt, &"one that reads alone", &read, &Ok(false));
    equal(&rt, &"one behind a fold", &again, &Ok(false));
    for (row, get) in [("what was read", first), ("and then", second)] {
        equal(&rt, &row, &get.found.as_slice(), &b"hello".as_slice());
    }
    equal(&rt, &"the flush", &node.flush(&rt), &Ok(1));
    Ok(())
}
