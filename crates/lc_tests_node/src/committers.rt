//! One caller that commits with committers.
use crate::expect::{equal, holds};
use crate::stores::{HELLO, opened_on_zeros};
use lc_committer::{Change, Committer, Update};
use lc_node::{Commit, Confirmed, Mode};
use lc_node_fixture::WORDS;
use std::test::*;

#[test]
fn a_committer_settles_what_it_closed(rt: HostRuntime) -> Result<(), Fail> {
    let (node, seat) = opened_on_zeros(rt.alloc(), WORDS)?;
    let mut first = Committer::new(&node, seat);
    let mut other = first.split();
    let mut work = HELLO;
    let done = other.commit(&rt, &[1], &mut work, Mode::Lazy);
    holds(&rt, &"the commit", matches!(done, Ok(Commit::Lazy)));
    holds(&rt, &"a fresh one", matches!(first.settle(&rt), Ok(None)));
    first.join(other);
    let Ok(Some(receipt)) = first.settle(&rt) else {
        return Err(Fail::from("it has a record"));
    };
    equal(&rt, &"its place", &receipt.place(), &0);
    let confirmed = first.confirm(&rt, receipt);
    equal(&rt, &"its record", &confirmed, &Confirmed::Here(0));
    Ok(())
}

#[test]
fn a_record_is_read_back_until_a_truncation(rt: HostRuntime) -> Result<(), Fail> {
    let alloc = rt.alloc();
    let (node, seat) = opened_on_zeros(alloc, WORDS)?;
    let mut committer = Committer::new(&node, seat);
    let mut work = HELLO;
    let Ok(Commit::Flushed(receipt)) = committer.commit(&rt, &[1], &mut work, Mode::Flush) else {
        return Err(Fail::from("it is stable"));
    };
    let mut words = Vec::new(alloc);
    let here = committer.read_record(&rt, receipt, &mut words);
    equal(&rt, &"in its round", &here, &Ok(Confirmed::Here(0)));
    equal(&rt, &"its words", &words.len(), &8);
    equal(&rt, &"the truncation", &node.truncate(&rt, alloc), &Ok(1));
    let confirmed = committer.confirm(&rt, receipt);
    let earlier = Confirmed::Earlier { round: 1 };
    equal(&rt, &"in the next", &confirmed, &earlier);
    Ok(())
}

// Adds 1 to the first of the bytes.
#[derive(Drop)]
struct AddOne;

impl Change for AddOne {
    ghost changes = { λ old before new after. Unit {0} };

    fn change(&mut self, bytes: &mut [u8]) {
        if let Some(byte) = bytes.first_mut() {
            *byte = byte.wrapping_add(1);
        }
    }
}

#[test]
fn an_update_changes_bytes_in_place(rt: HostRuntime) -> Result<(), Fail> {
    let alloc = rt.alloc();
    let (node, seat) = opened_on_zeros(alloc, WORDS)?;
    let mut committer = Committer::new(&node, seat);
    for number in 0..3 {
        let mut update = Update {
            segment: 2,
            offset: 7,
            len: 1,
            change: AddOne,
        };
        let done = committer.commit(&rt, &[2], &mut update, Mode::Lazy);
        holds(
            &rt,
            &format_args!("commit {number}"),
            matches!(done, Ok(Commit::Lazy)),
        );
    }
    let Ok(copy) = node.snapshot(&rt, alloc, 2) else {
        return Err(Fail::from("there is a copy"));
    };
    equal(&rt, &"the byte", &copy.bytes.get(7), &Some(&3));
    Ok(())
}
