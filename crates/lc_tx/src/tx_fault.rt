//! Why a call of a transaction is refused.
use thiserror::Error;

/// Why a call of a transaction is refused.
#[derive(Clone, Copy, Debug, PartialEq, Eq, Error)]
pub enum TxFault {
    /// A transaction holds the segment.
    #[error("a transaction holds segment {segment}")]
    Busy { segment: u32 },
    /// The segment's token is elsewhere.
    #[error("the token of segment {segment} is elsewhere")]
    NotHere { segment: u32 },
    /// Some byte was not set.
    #[error("some byte was not set")]
    NoRange,
    /// The bytes reach past the segment.
    #[error("the bytes reach past the segment")]
    OutOfSegment,
    /// The transaction did not lock the segment.
    #[error("the transaction did not lock the segment")]
    NotLocked,
    /// There is no memory.
    #[error("out of memory")]
    NoMemory,
    /// The record would have this many words, above 4096.
    #[error("the record would have {words} words")]
    TooLong { words: u32 },
    /// The segment has used its last number, 2^60.
    #[error("segment {segment} has used its last number")]
    SequenceSpent { segment: u32 },
    /// The range has no bytes.
    #[error("the range is empty")]
    EmptyRange,
    /// More than 64 ranges would stand.
    #[error("there are too many ranges")]
    TooManyRanges,
    /// The transaction locked the segment for reading alone.
    #[error("the transaction locked segment {segment} for reading")]
    ReadOnly { segment: u32 },
}

impl TxFault {
    ghost use Rattle.std.specs.Prelude.{◌≡◌};
    ghost use Rattle.lc_tx.specs.Fault.{number_of};

    /// The fault's number.
    pub fn code(&self) -> u8
        ensures { result ≡ number_of self.now }
    {
        match self {
            TxFault::Busy { .. } => 1,
            TxFault::NotHere { .. } => 2,
            TxFault::NoRange => 3,
            TxFault::OutOfSegment => 4,
            TxFault::NotLocked => 5,
            TxFault::NoMemory => 6,
            TxFault::TooLong { .. } => 7,
            TxFault::SequenceSpent { .. } => 8,
            TxFault::EmptyRange => 9,
            TxFault::TooManyRanges => 10,
            TxFault::ReadOnly { .. } => 11,
        }
    }
}
