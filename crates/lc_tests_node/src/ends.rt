//! A node that ends, and leaves a store.
use crate::expect::{equal, holds};
use crate::stores::{HELLO, LEAST_WORDS, opened_on_zeros};
use lc_committer::Committer;
use lc_core::FlushProgress;
use lc_node::{Commit, Mode, Put};
use lc_node_fixture::recovered;
use lc_store::node_into_world;
use std::test::*;

const LAST: Put<'static> = Put {
    offset: 9,
    bytes: b"last",
    ..HELLO
};

// The log was full again and again, and the last record is closed and not flushed. The store has it, and so have its
// areas after a flush.
#[test]
fn a_node_leaves_what_was_staged(rt: HostRuntime) -> Result<(), Fail> {
    let alloc = rt.alloc();
    let (node, seat) = opened_on_zeros(alloc, LEAST_WORDS)?;
    let mut committer = Committer::new(&node, seat);
    for number in 0..20 {
        let mut work = if number < 19 { HELLO } else { LAST };
        let done = committer.commit(&rt, &[1], &mut work, Mode::Lazy);
        holds(
            &rt,
            &format_args!("commit {number}"),
            matches!(done, Ok(Commit::Lazy)),
        );
    }
    drop(committer);

    let Ok(mut world) = node_into_world(node, &rt, alloc, Vec::new(alloc)) else {
        return Err(Fail::from("it becomes a store"));
    };
    let Ok(page) = world.page(0, 1, 0) else {
        return Err(Fail::from("the store has the page"));
    };
    let wanted = Some(b"hello\0last".as_slice());
    equal(&rt, &"the page of the store", &page.get(3..13), &wanted);
    let flushed = world.flush(alloc, 0);
    holds(
        &rt,
        &"the flush",
        matches!(flushed, Ok(FlushProgress::Acked(_))),
    );
    let (geometry, areas) = world.into_areas();
    let store = recovered(alloc, geometry, areas)?;
    let page = store.page(1, 0);
    equal(&rt, &"the page in the areas", &page.get(3..13), &wanted);
    Ok(())
}
