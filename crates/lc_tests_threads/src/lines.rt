//! Messages over a line.
ghost use Rattle.std.specs.Prelude.{◌≡◌};
ghost use Rattle.lc_line.specs.Ends.{line_to, line_from};

use crate::expect::equal;
use lc_line::{ROOM, RecvEnd, Refused, SendEnd, open_line};
use std::process::Abort;
use std::sync::Wait;
use std::test::Fail;
use std::thread::{join, yield_now};

const MESSAGES: u64 = 10_000;

// Sends the numbers below `MESSAGES`, and answers how many were sent when the receiving end was gone or all were.
fn send_all<R: Wait>(rt: &R, mut to: SendEnd<u64>) -> u64 {
    let mut next = 0;
    for _ in rt.forever() {
        if next >= MESSAGES {
            return next;
        }
        match to.send(rt, next) {
            Ok(()) => next += 1,
            Err(Refused::Full(_)) => yield_now(),
            Err(Refused::Gone(_)) => return next,
        }
    }
    unreachable!()
}

// Takes numbers as long as each is the next, and answers how many were.
fn take_all<R: Wait>(rt: &R, mut from: RecvEnd<u64>) -> u64 {
    let mut next = 0;
    for _ in rt.forever() {
        if next >= MESSAGES {
            return next;
        }
        match from.take(rt) {
            Some(number) if number == next => next += 1,
            Some(_) => return next,
            None => yield_now(),
        }
    }
    unreachable!()
}

// Sends this number, with this answer.
fn sends<R: Abort + Wait>(
    rt: &R,
    to: &mut SendEnd<u64>,
    number: u64,
    answer: Result<(), Refused<u64>>,
)
    ensures { line_to to.new ≡ line_to to.old }
{
    equal(rt, &number, &to.send(rt, number), &answer);
}

// Takes this number, or none.
fn takes<R: Abort + Wait>(rt: &R, from: &mut RecvEnd<u64>, wanted: Option<u64>)
    ensures { line_from from.new ≡ line_from from.old }
{
    equal(rt, &"what is taken", &from.take(rt), &wanted);
}

#[test]
fn a_line_has_room_for_64_messages(rt: HostRuntime) -> Result<(), Fail> {
    let (mut to, mut from) = open_line(rt.alloc())?;
    assert!(rt; ROOM == 64);
    for number in 0..64 {
        sends(&rt, &mut to, number, Ok(()));
    }
    sends(&rt, &mut to, 64, Err(Refused::Full(64)));
    takes(&rt, &mut from, Some(0));
    sends(&rt, &mut to, 65, Ok(()));
    sends(&rt, &mut to, 66, Err(Refused::Full(66)));
    for number in 1..64 {
        takes(&rt, &mut from, Some(number));
    }
    takes(&rt, &mut from, Some(65));
    takes(&rt, &mut from, None);
    Ok(())
}

#[test]
fn messages_cross_threads_in_order(rt: HostRuntime) -> Result<(), Fail> {
    let (to, from) = open_line(rt.alloc())?;
    let host = &rt;
    let counts = join(
        &rt,
        move || send_all(host, to),
        move || take_all(host, from),
    );
    assert!(rt; counts == (MESSAGES, MESSAGES));
    Ok(())
}

#[test]
fn what_was_sent_can_be_taken_when_the_sending_end_is_gone(rt: HostRuntime) -> Result<(), Fail> {
    let (mut to, mut from) = open_line(rt.alloc())?;
    sends(&rt, &mut to, 7, Ok(()));
    drop(to);
    takes(&rt, &mut from, Some(7));
    takes(&rt, &mut from, None);
    Ok(())
}

#[test]
fn nothing_is_sent_when_the_receiving_end_is_gone(rt: HostRuntime) -> Result<(), Fail> {
    let (mut to, from) = open_line(rt.alloc())?;
    sends(&rt, &mut to, 7, Ok(()));
    drop(from);
    sends(&rt, &mut to, 8, Err(Refused::Gone(8)));
    Ok(())
}

fn crosses<X: Send>(_: &X) {}

// Both may cross threads wherever the messages may.
fn cross_threads<T: Drop + Send>(to: &SendEnd<T>, from: &RecvEnd<T>) {
    crosses(to);
    crosses(from);
}

#[test]
fn the_ends_cross_threads(rt: HostRuntime) -> Result<(), Fail> {
    let (to, from) = open_line::<u64>(rt.alloc())?;
    cross_threads(&to, &from);
    Ok(())
}
