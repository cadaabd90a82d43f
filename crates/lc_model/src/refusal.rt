//! Why something is refused.
ghost use Rattle.std.specs.Prelude.{◌≡◌};

/// The reason of a refusal.
#[derive(Clone, Copy, PartialEq, Eq)]
pub enum Refusal {
    /// The store is down.
    Down,
    /// A number is outside the geometry, or no such record is published.
    Unknown,
    /// A device of the node failed; only a recovery helps.
    Halted,
    /// The event does not fit what went before.
    OutOfTurn,
    /// A transaction holds the segment.
    Busy { segment: u32 },
    /// The segment's token is elsewhere.
    NotHere { segment: u32 },
    /// The transaction did not lock the segment.
    NotLocked,
    /// The range has no bytes.
    EmptyRange,
    /// The bytes reach past the segment; in a recovery, a record of this area's log does.
    OutOfSegment { area: Option<u32> },
    /// Some byte was not set.
    NoRange,
    /// More than 64 ranges would stand.
    TooManyRanges,
    /// The segment has used its last number.
    SequenceSpent { segment: u32 },
    /// The record would have this many words, above 4096.
    TooLong { words: u32 },
    /// The log is being reset.
    Sealed,
    /// The log has no room: `need` words from `tail` on.
    Full { tail: u32, need: u32 },
    /// A transaction holds the token's segment.
    Held,
    /// A page of the segment is being written.
    Writing,
    /// Some record that the node reserved is not stable.
    Unflushed,
    /// The node has not applied all that the token stands for.
    Behind { applied: u64, seq: u64 },
    /// An open transaction has a range on the page.
    Uncommitted,
    /// The page on disk is as new.
    NotNewer,
    /// The log has a record whose segment is not on its pages up to this number.
    Unclean { segment: u32, seq: u64 },
    /// The log was reset as often as it can be.
    RoundsSpent,
    /// A device failed.
    DeviceFault,
    /// An area does not fit the geometry.
    BadGeometry { area: u32 },
    /// Two records have the same number of the same segment.
    Twice { segment: u32, seq: u64 },
    /// A record is missing.
    Gap { segment: u32, seq: u64 },
    /// The transaction locked the segment for reading.
    ReadOnly { segment: u32 },
}

impl Refusal {
    ghost use Rattle.lc_model.specs.Numbers.{number_of};

    /// The refusal's number.
    pub fn code(&self) -> u8
        ensures { result ≡ number_of self.now }
    {
        match self {
            Refusal::Down => 1,
            Refusal::Unknown => 2,
            Refusal::Halted => 3,
            Refusal::OutOfTurn => 4,
            Refusal::Busy { .. } => 5,
            Refusal::NotHere { .. } => 6,
            Refusal::NotLocked => 7,
            Refusal::EmptyRange => 8,
            Refusal::OutOfSegment { .. } => 9,
            Refusal::NoRange => 10,
            Refusal::TooManyRanges => 11,
            Refusal::SequenceSpent { .. } => 12,
            Refusal::TooLong { .. } => 13,
            Refusal::Sealed => 14,
            Refusal::Full { .. } => 15,
            Refusal::Held => 16,
            Refusal::Writing => 17,
            Refusal::Unflushed => 18,
            Refusal::Behind { .. } => 19,
            Refusal::Uncommitted => 20,
            Refusal::NotNewer => 21,
            Refusal::Unclean { .. } => 22,
            Refusal::RoundsSpent => 23,
            Refusal::DeviceFault => 24,
            Refusal::BadGeometry { .. } => 25,
            Refusal::Twice { .. } => 26,
            Refusal::Gap { .. } => 27,
            Refusal::ReadOnly { .. } => 28,
        }
    }
}
