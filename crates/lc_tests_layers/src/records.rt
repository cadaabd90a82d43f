//! Records: words and what they say.
use crate::expect::equal;
use lc_record::{Items, Lock, RangeData, Record, View, check, decode, encode};
use std::alloc::{AllocError, Global};
use std::test::Fail;

// The record of node 0 under lock 1:1, with the bytes "hello" at 3 in segment 1.
const HELLO: [u64; 8] = [
    0x8_0001_01a5,
    0x1_0000,
    1,
    1,
    0x3_0000_0001,
    5,
    0x6f_6c6c_6568,
    8,
];

// The record of node 0 under lock 1:1, with eight zeros at 0 and one at 20 in segment 1.
const ZEROS: [u64; 11] = [
    0xb_0002_01a5,
    0x1_0000,
    1,
    1,
    1,
    8,
    0,
    0x14_0000_0001,
    1,
    0,
    11,
];

// The record of node 0 under locks 1:1 and 2:1, with the byte 11 at 0 in segment 1 and 22 at 0 in segment 2, in
// hexadecimal.
const BOTH: [u64; 13] = [
    0xd_0002_01a5,
    0x2_0000,
    1,
    1,
    2,
    1,
    1,
    1,
    0x11,
    2,
    1,
    0x22,
    13,
];

// The record of node 7 under locks 1:2 and 3:1, with "abcdefgh" at 0 and "i" at 9 in segment 1,
// and "jklmnopqr" at 100 in segment 3.
const LETTERS: [u64; 17] = [
    0x11_0003_01a5,
    0x2_0007,
    1,
    2,
    3,
    1,
    1,
    8,
    0x6867_6665_6463_6261,
    0x9_0000_0001,
    1,
    0x69,
    0x64_0000_0003,
    9,
    0x7170_6f6e_6d6c_6b6a,
    0x72,
    17,
];

// The record of node 0 under lock 1:1, with eight bytes at 16376 in segment 1: they end at 16384.
const NEAR: [u64; 8] = [
    0x8_0001_01a5,
    0x1_0000,
    1,
    1,
    0x3ff8_0000_0001,
    8,
    0x636c,
    8,
];

// The record of node 0 under lock 1:1, with the same bytes at 16380 in segment 1: the second version.
const FAR: [u64; 9] = [0x9_0001_02a5, 0x1_0000, 1, 1, 1, 16380, 8, 0x636c, 9];

// The same bytes at 16380 and at 16389.
const FAR_TWICE: [u64; 13] = [
    0xd_0002_02a5,
    0x1_0000,
    1,
    1,
    1,
    16380,
    8,
    0x636c,
    1,
    16389,
    8,
    0x636c,
    13,
];

const LC: &[u8] = &[0x6c, 0x63, 0x00, 0x00, 0x00, 0x00, 0x00, 0x00];

// What a record says: its node, the segment and the number of each lock, the segment, the offset and the bytes of each
// range, and its words.
struct Spelled {
    node: u16,
    locks: &'static [(u32, u64)],
    ranges: &'static [(u32, u32, &'static [u8])],
    words: &'static [u64],
}

static SPELLED: [Spelled; 7] = [
    Spelled {
        node: 0,
        locks: &[(1, 1)],
        ranges: &[(1, 3, b"hello")],
        words: &HELLO,
    },
    Spelled {
        node: 0,
        locks: &[(1, 1)],
        ranges: &[(1, 0, &[0; 8]), (1, 20, &[0])],
        words: &ZEROS,
    },
    Spelled {
        node: 0,
        locks: &[(1, 1), (2, 1)],
        ranges: &[(1, 0, &[0x11]), (2, 0, &[0x22])],
        words: &BOTH,
    },
    Spelled {
        node: 7,
        locks: &[(1, 2), (3, 1)],
        ranges: &[(1, 0, b"abcdefgh"), (1, 9, b"i"), (3, 100, b"jklmnopqr")],
        words: &LETTERS,
    },
    Spelled {
        node: 0,
        locks: &[(1, 1)],
        ranges: &[(1, 16376, LC)],
        words: &NEAR,
    },
    Spelled {
        node: 0,
        locks: &[(1, 1)],
        ranges: &[(1, 16380, LC)],
        words: &FAR,
    },
    Spelled {
        node: 0,
        locks: &[(1, 1)],
        ranges: &[(1, 16380, LC), (1, 16389, LC)],
        words: &FAR_TWICE,
    },
];

fn locks_of(alloc: Global, locks: &[(u32, u64)]) -> Result<Items<Lock>, AllocError> {
    let mut items = Vec::new(alloc);
    for (segment, seq) in locks {
        items.push(Lock {
            segment: *segment,
            seq: *seq,
        })?;
    }
    Ok(Items::new(items))
}

fn range_of(
    alloc: Global,
    segment: u32,
    offset: u32,
    bytes: &[u8],
) -> Result<RangeData, AllocError> {
    Ok(RangeData {
        segment,
        offset,
        bytes: Items::new(Vec::from_slice(alloc, bytes)?),
    })
}

fn ranges_of(alloc: Global, ranges: &[(u32, u32, &[u8])]) -> Result<Items<RangeData>, AllocError> {
    let mut items = Vec::new(alloc);
    for (segment, offset, bytes) in ranges {
        items.push(range_of(alloc, *segment, *offset, *bytes)?)?;
    }
    Ok(Items::new(items))
}

// How a record is written that says this.
fn words_of(alloc: Global, said: &Spelled) -> Result<Vec<u64>, Fail> {
    let record = Record {
        node: said.node,
        locks: locks_of(alloc, said.locks)?,
        ranges: ranges_of(alloc, said.ranges)?,
    };
    Ok(encode(alloc, &record)?)
}

// How the record is written that is read from these words, with another word after them.
fn words_again(alloc: Global, words: &[u64]) -> Result<(Vec<u64>, usize), Fail> {
    let mut longer = Vec::from_slice(alloc, words)?;
    longer.push(0xa5)?;
    let (record, len) = decode(alloc, &longer)?.ok_or("the words are a record")?;
    Ok((encode(alloc, &record)?, len))
}

#[test]
fn records_are_written_and_read(rt: HostRuntime) -> Result<(), Fail> {
    for (row, said) in SPELLED.iter().enumerate() {
        let written = words_of(rt.alloc(), said)?;
        equal(&rt, &row, &written.as_slice(), &said.words);
        let (again, len) = words_again(rt.alloc(), said.words)?;
        equal(
            &rt,
            &row,
            &(again.as_slice(), len),
            &(said.words, said.words.len()),
        );
    }
    Ok(())
}

// The words of a record, a place in them, and a word that makes them no record there.
static NO_RECORDS: [(&[u64], usize, u64); 23] = [
    // The gate closed and torn, another version, another length, what fills the data up, and the last word.
    (&HELLO, 0, 0x8_0001_0100),
    (&HELLO, 0, 0x8_0001_017f),
    (&HELLO, 0, 0x8_0001_02a5),
    (&HELLO, 0, 0x9_0001_01a5),
    (&HELLO, 6, 0x16f_6c6c_6568),
    (&HELLO, 7, 7),
    // No node 8, and the locks not ascending.
    (&LETTERS, 1, 0x2_0008),
    (&LETTERS, 4, 1),
    // A range that touches the one before it, and one before it.
    (&LETTERS, 9, 0x8_0000_0001),
    (&LETTERS, 6, 0x20_0000_0001),
    // A range of a segment with no lock, and a lock of a segment with no range.
    (&LETTERS, 12, 0x64_0000_0002),
    (&LETTERS, 12, 0x64_0000_0001),
    // A range that leaves its segment, and one of the first version that ends beyond 16384.
    (&LETTERS, 12, 0x3ff8_0000_0003),
    (&NEAR, 4, 0x3ff9_0000_0001),
    // The first version, and a third.
    (&FAR, 0, 0x9_0001_01a5),
    (&FAR, 0, 0x9_0001_03a5),
    // No segment, and one of more than 32 bits.
    (&FAR, 4, 0),
    (&FAR, 4, (1 << 32) + 1),
    // No range that ends beyond 16384, one that leaves its segment, and an offset of more than 32 bits.
    (&FAR, 5, 16376),
    (&FAR, 5, 262137),
    (&FAR, 5, (1 << 32) + 16380),
    // The last word, and ranges that touch.
    (&FAR, 8, 8),
    (&FAR_TWICE, 9, 16388),
];

// The words with the word at this place changed, and zeros after them.
fn broken(words: &[u64], place: usize, changed: u64) -> [u64; 17] {
    let mut broken = [0; 17];
    for (word, old) in broken.iter_mut().zip(words) {
        *word = *old;
    }
    if let Some(word) = broken.get_mut(place) {
        *word = changed;
    }
    broken
}

#[test]
fn other_words_are_no_record(rt: HostRuntime) {
    for (words, place, changed) in &NO_RECORDS {
        let row = format_args!("{changed} at {place} of {words:?}");
        equal(&rt, &row, &check(&broken(*words, *place, *changed)), &None);
    }
    for len in 0..8 {
        equal(
            &rt,
            &format_args!("{len} words"),
            &check(&HELLO[..len]),
            &None,
        );
    }
    // Of the second version, eight bytes and seven, and a byte that fills the data up and is not zero.
    equal(&rt, &"eight bytes", &check(&FAR), &Some(9));
    equal(&rt, &"seven bytes", &check(&broken(&FAR, 6, 7)), &Some(9));
    let mut filled = broken(&FAR, 6, 7);
    filled[7] = 0x0100_0000_0000_636c;
    equal(&rt, &"seven bytes and one", &check(&filled), &None);
}

#[test]
fn a_record_is_read_in_place(rt: HostRuntime) -> Result<(), Fail> {
    let view = View::at(&LETTERS, 0).ok_or("a record begins here")?;
    let counts = (view.len(), view.lock_count(), view.range_count());
    equal(&rt, &"words, locks and ranges", &counts, &(17, 2, 3));
    let mut bytes = [b'.'; 12];
    view.put_on(3, 96, &mut bytes);
    equal(&rt, &"the bytes", &&bytes, &b"....jklmnopq");
    Ok(())
}
