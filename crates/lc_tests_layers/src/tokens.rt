//! Tokens, the records that are held back, and logs that may be reset.
ghost use Rattle.std.specs.Prelude.{◌≡◌, [], ◌∷◌, IfOk};

use crate::expect::equal;
use lc_page::{PageText, PageVector};
use lc_record::{Items, Lock, RangeData, Record};
use lc_token::{
    HoldBack, KnownClean, Received, Token, TokenPlace, Unclean, dirty_pages, may_reset,
};
use std::alloc::{AllocError, Global};
use std::process::Abort;
use std::test::Fail;

// A record with this number in segment 1, and one byte there.
fn record_of(alloc: Global, seq: u64) -> Result<Record, AllocError>
    ensures { IfOk result (λ r. r.locks ≡ record { segment = 1; seq = seq } ∷ []) }
{
    let locks = vec![in alloc; Lock { segment: 1, seq }]?;
    let range = RangeData {
        segment: 1,
        offset: 3,
        bytes: Items::new(vec![in alloc; 7u8]?),
    };
    Ok(Record {
        node: 0,
        locks: Items::new(locks),
        ranges: Items::new(Vec::from_array(alloc, [range])?),
    })
}

// What becomes of the record with this number, and up to what all are applied then.
fn received(hold_back: &mut HoldBack, alloc: Global, seq: u64) -> Result<&'static str, Fail> {
    if hold_back.segment() != 1 {
        return Err(Fail::from("the segment is 1"));
    }
    Ok(match hold_back.receive(alloc, &record_of(alloc, seq)?)? {
        Received::Applied(1) => "applied 1",
        Received::Applied(3) => "applied 3",
        Received::Applied(_) => "applied to another number",
        Received::HeldBack => "held back",
        Received::Ignored => "ignored",
    })
}

// The numbers of the parts that are handed out next, at most two.
fn handed(hold_back: &mut HoldBack) -> [Option<u64>; 2] {
    let first = hold_back.next().map(|part| part.seq);
    [first, hold_back.next().map(|part| part.seq)]
}

// The number of each record that comes, what becomes of it, and the numbers of the parts that are handed out then.
static OUT_OF_ORDER: [(u64, &str, [Option<u64>; 2]); 4] = [
    (3, "held back", [None, None]),
    (1, "applied 1", [Some(1), None]),
    (1, "ignored", [None, None]),
    (2, "applied 3", [Some(2), Some(3)]),
];

#[test]
fn records_out_of_order_are_applied_in_order(rt: HostRuntime) -> Result<(), Fail> {
    let mut hold_back = HoldBack::new(rt.alloc(), 1, 0);
    for (row, (seq, answer, parts)) in OUT_OF_ORDER.iter().enumerate() {
        let came = received(&mut hold_back, rt.alloc(), *seq)?;
        equal(
            &rt,
            &row,
            &(came, handed(&mut hold_back)),
            &(*answer, *parts),
        );
    }
    Ok(())
}

// The token of a segment with two pages, which had number 4 on the disk, after a record that changed the second and a
// write of that under number 5.
fn written(rt: &impl Abort, alloc: Global, segment: u32) -> Result<Token, Fail> {
    let text = PageText {
        seq: 4,
        slot: None,
        gates: [false, false],
    };
    let pages = PageVector::new(alloc, &[text, text])?;
    assert!(rt; pages.len() == 2);
    let mut place = TokenPlace::new(segment, Some(Token::recovered(segment, 4, pages)));
    place.count_record();
    place.touch(1);
    let mut token = place.leave(false, false, 8, 8)?;
    assert!(rt; token.pages().len() == 2);
    assert!(rt; dirty_pages(alloc, &token)?.as_slice() == [1].as_slice());
    token.written(1, 5);
    Ok(token)
}

// The record of node 0 under locks 1:5 and 2:5, with the byte 11 at 0 in segment 1 and 22 at 0 in segment 2, in
// hexadecimal.
const LOG: [u64; 13] = [
    0xd_0002_01a5,
    0x2_0000,
    1,
    5,
    2,
    5,
    1,
    1,
    0x11,
    2,
    1,
    0x22,
    13,
];

// The segment whose written token is seen next, and whether the log may be reset before.
static BEFORE: [(u32, Result<(), Unclean>); 3] = [
    (2, Err(Unclean { segment: 1, seq: 5 })),
    (1, Err(Unclean { segment: 1, seq: 5 })),
    (1, Ok(())),
];

#[test]
fn a_log_is_reset_once_all_its_segments_are_clean(rt: HostRuntime) -> Result<(), Fail> {
    let mut known = KnownClean::new();
    for (row, (segment, answer)) in BEFORE.iter().enumerate() {
        equal(&rt, &row, &may_reset(&LOG, &known), answer);
        let token = written(&rt, rt.alloc(), *segment)?;
        assert!(rt; 1 <= token.segment() && token.segment() <= 16);
        known.see(&token);
    }
    Ok(())
}
