//! A node that gets the token of a segment.
use crate::expect::{equal, holds};
use crate::stores::{HELLO, opened_pair};
use lc_committer::{Committer, acquire};
use lc_node::{Commit, Mode, Put};
use std::test::*;

#[test]
fn a_node_acquires_a_segment_and_its_bytes(rt: HostRuntime) -> Result<(), Fail> {
    let alloc = rt.alloc();
    let (pair, first, second) = opened_pair(alloc)?;
    let mut first = Committer::new(pair.cluster.node(0), first);
    let mut second = Committer::new(pair.cluster.node(1), second);
    let mut work = Put {
        segment: 2,
        ..HELLO
    };
    let done = first.commit(&rt, &[2], &mut work, Mode::Lazy);
    holds(&rt, &"the first", matches!(done, Ok(Commit::Lazy)));
    let got = acquire(&rt, &pair.cluster, 1, 2, 1);
    equal(&rt, &"in one turn", &got, &Ok(()));
    let there = pair.cluster.node(0).has_token(&rt, 2);
    equal(&rt, &"a token at the first node", &there, &false);
    let Ok(copy) = pair.cluster.node(1).snapshot(&rt, alloc, 2) else {
        return Err(Fail::from("there is a copy"));
    };
    let wanted = Some(b"hello".as_slice());
    equal(&rt, &"its bytes", &copy.bytes.get(3..8), &wanted);
    let done = second.commit(&rt, &[2], &mut work, Mode::Flush);
    holds(&rt, &"the second", matches!(done, Ok(Commit::Flushed(_))));
    Ok(())
}
