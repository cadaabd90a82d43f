//! What a caller that is not the node can do with public names. It locks the node's log, reads it, flushes it and tries
//! to reset it: no record is lost. It opens lines of its own, which take copies of records. These tests run what
//! compiles. They do not try what no caller can write: to show a log a token of its own, to count a part at a segment,
//! to hand a node a record, or to let a log forget. The texts in tests/outsiders are such callers, and the compiler
//! refuses each.
use crate::expect::{equal, holds};
use crate::stores::{in_memory, opened, two_segments};
use lc_cluster::{PeerEnd, PeerInbox, RecvEnds, SendEnds, Spread};
use lc_line::open_line;
use lc_node::{Confirmed, Message, Mode, Put};
use lc_node_fixture::{put, put_and_confirm};
use std::test::*;

const HELLO: Put<'static> = Put {
    segment: 1,
    offset: 3,
    bytes: b"hello",
};

// Places at which no record of two with 8 words each begins.
const BETWEEN: [usize; 5] = [1, 7, 9, 15, 1 << 40];

// Whatever is asked and called in between, a receipt's record stays where it was.
#[test]
fn who_has_the_lock_of_a_log_loses_no_record(rt: HostRuntime) -> Result<(), Fail> {
    let alloc = rt.alloc();
    let (node, seat) = opened(alloc, two_segments()?, in_memory(alloc)?)?;
    let (seat, told) = put_and_confirm(&rt, alloc, &node, seat, &[1], HELLO);
    let (_, here) = told.expect(&rt, "it is stable");
    equal(&rt, &"the first record", &here, &Confirmed::Here(0));
    let (seat, lazy) = put(&rt, alloc, &node, seat, &[1], HELLO, Mode::Lazy);
    holds(&rt, &"the second is closed", lazy.is_ok());

    let lock = node.log_lock();
    let (mut log, loan) = lock.lock(&rt);
    for place in BETWEEN {
        let _words = log.record_at(place);
    }
    let unclean = node.reset_log(&mut log);
    let flushed = node.flush_log(&mut log);
    let again = node.flush_log(&mut log);
    lock.unlock(log, loan);
    holds(&rt, &"no page has the record", unclean.is_err());
    equal(&rt, &"the second", &flushed, &Ok(1));
    equal(&rt, &"nothing more", &again, &Ok(0));
    let (_seat, receipt) = node.durable(&rt, seat);
    let place = receipt.expect(&rt, "it is stable").place();
    equal(&rt, &"where the second is", &place, &8);
    Ok(())
}

// Who opens a line sends and takes what a log has published, as its own peers do; they lack it no less.
#[test]
fn lines_of_a_caller_take_copies(rt: HostRuntime) -> Result<(), Fail> {
    let alloc = rt.alloc();
    let (node, seat) = opened(alloc, two_segments()?, in_memory(alloc)?)?;
    let (_seat, stable) = put(&rt, alloc, &node, seat, &[1], HELLO, Mode::Flush);
    holds(&rt, &"a record is stable", stable.is_ok());
    let (to, from) = open_line::<Message<u8>>(alloc)?;
    let mut outgoing = Vec::with_capacity(alloc, 1)?;
    outgoing.push(PeerEnd::new(to))?;
    let mut incoming = Vec::with_capacity(alloc, 1)?;
    incoming.push(PeerInbox::new(from))?;
    let mut sending = SendEnds::new(outgoing);
    let mut receiving = RecvEnds::new(1, incoming);

    let lock = node.log_lock();
    let (log, loan) = lock.lock(&rt);
    let one = sending.spread(&rt, alloc, &log);
    let none = sending.spread(&rt, alloc, &log);
    lock.unlock(log, loan);
    equal(
        &rt,
        &"the first spread",
        &one,
        &Ok(Spread { sent: 1, left: 0 }),
    );
    equal(&rt, &"the next", &none, &Ok(Spread { sent: 0, left: 0 }));
    let taken = match receiving.take(&rt, 0) {
        Some(Message::Record { number, words }) => Some((number, words.len())),
        _ => None,
    };
    equal(&rt, &"what came", &taken, &Some((1, 8)));
    Ok(())
}
