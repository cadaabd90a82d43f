//! The texts of faults.
use crate::expect::equal;
use lc_page::PageFault;
use lc_range::RangeFault;
use lc_record::RecordFault;
use lc_token::TokenFault;
use lc_tx::TxFault;
use std::alloc::Global;
use std::fmt::Display;
use std::process::Abort;
use std::test::Fail;

const OF_A_RECORD: [(RecordFault, &str); 1] = [(
    RecordFault::TooLong { words: 4097 },
    "the record has 4097 words, which is too long",
)];

const OF_A_RANGE: [(RangeFault, &str); 4] = [
    (
        RangeFault::OutOfSegment,
        "the range ends outside the segment",
    ),
    (RangeFault::EmptyRange, "the range is empty"),
    (RangeFault::TooManyRanges, "there are too many ranges"),
    (RangeFault::NoMemory, "out of memory"),
];

const OF_A_TRANSACTION: [(TxFault, &str); 11] = [
    (
        TxFault::Busy { segment: 3 },
        "a transaction holds segment 3",
    ),
    (
        TxFault::NotHere { segment: 4 },
        "the token of segment 4 is elsewhere",
    ),
    (TxFault::NoRange, "some byte was not set"),
    (TxFault::OutOfSegment, "the bytes reach past the segment"),
    (
        TxFault::NotLocked,
        "the transaction did not lock the segment",
    ),
    (TxFault::NoMemory, "out of memory"),
    (
        TxFault::TooLong { words: 4107 },
        "the record would have 4107 words",
    ),
    (
        TxFault::SequenceSpent { segment: 5 },
        "segment 5 has used its last number",
    ),
    (TxFault::EmptyRange, "the range is empty"),
    (TxFault::TooManyRanges, "there are too many ranges"),
    (
        TxFault::ReadOnly { segment: 6 },
        "the transaction locked segment 6 for reading",
    ),
];

const OF_A_TOKEN: [(TokenFault, &str); 6] = [
    (
        TokenFault::Behind { applied: 4, seq: 9 },
        "applied up to 4, and the token has seen 9",
    ),
    (
        TokenFault::Unflushed,
        "a record of the node is not on the disk",
    ),
    (
        TokenFault::Writing,
        "a page of the segment is being written",
    ),
    (TokenFault::Held, "the token is held"),
    (
        TokenFault::NotHere { segment: 2 },
        "the token of segment 2 is not here",
    ),
    (TokenFault::NoMemory, "out of memory"),
];

const OF_A_PAGE: [(PageFault, &str); 3] = [
    (PageFault::Uncommitted, "the page has uncommitted bytes"),
    (
        PageFault::NotNewer,
        "the number is not above the page's sequence",
    ),
    (PageFault::DeviceFault, "the device failed"),
];

// Each fault is printed as it is wanted.
fn are_printed<F: Display>(
    rt: &impl Abort,
    alloc: Global,
    faults: &[(F, &str)],
) -> Result<(), Fail> {
    for (fault, wanted) in faults {
        equal(rt, wanted, &fault.to_string(alloc)?.as_str(), wanted);
    }
    Ok(())
}

#[test]
fn faults_have_texts(rt: HostRuntime) -> Result<(), Fail> {
    are_printed(&rt, rt.alloc(), &OF_A_RECORD)?;
    are_printed(&rt, rt.alloc(), &OF_A_RANGE)?;
    are_printed(&rt, rt.alloc(), &OF_A_TRANSACTION)?;
    are_printed(&rt, rt.alloc(), &OF_A_TOKEN)?;
    are_printed(&rt, rt.alloc(), &OF_A_PAGE)
}
