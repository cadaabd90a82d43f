//! Why a range is not added.
use thiserror::Error;

/// Why `RangeSet::add` adds nothing.
#[derive(Clone, Copy, Debug, PartialEq, Eq, Error)]
pub enum RangeFault {
    /// The range's end lies beyond the segment's.
    #[error("the range ends outside the segment")]
    OutOfSegment,
    /// The range has no position.
    #[error("the range is empty")]
    EmptyRange,
    /// More than 64 runs would stand.
    #[error("there are too many ranges")]
    TooManyRanges,
    /// There is no memory.
    #[error("out of memory")]
    NoMemory,
}

impl RangeFault {
    ghost use Rattle.std.specs.Prelude.{◌≡◌};
    ghost use Rattle.lc_range.specs.Fault.{number_of};

    /// The fault's number.
    pub fn code(&self) -> u8
        ensures { result ≡ number_of self.now }
    {
        match self {
            RangeFault::OutOfSegment => 1,
            RangeFault::EmptyRange => 2,
            RangeFault::TooManyRanges => 3,
            RangeFault::NoMemory => 4,
        }
    }
}
