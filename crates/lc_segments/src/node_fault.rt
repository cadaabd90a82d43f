//! Why a call on a running node is refused.
ghost use Rattle.std.specs.Prelude.{◌≡◌};
ghost use Rattle.lc_segments.specs.Fault.{of_adoption, of_tx};
ghost use Rattle.lc_segments.specs.declared.node_fault.NodeFault.TheVariants.{Mismatch, NoMemory};

use lc_rest::{AdoptFault, ClusterPart};
use lc_token::TokenFault;
use lc_tx::TxFault;
use std::alloc::AllocError;
use thiserror::Error;

/// Why a call on a running node is refused.
#[derive(Clone, Copy, Debug, PartialEq, Eq, Error)]
pub enum NodeFault {
    /// A transaction holds the segment.
    #[error("a transaction holds segment {segment}")]
    Busy { segment: u32 },
    /// The segment's token is elsewhere, or the node has no such segment.
    #[error("segment {segment} is not here")]
    NotHere { segment: u32 },
    /// Some byte was not set.
    #[error("some byte was not set")]
    NoRange,
    /// The bytes reach past the segment.
    #[error("the bytes reach past the segment")]
    OutOfSegment,
    /// The transaction did not lock the segment.
    #[error("the transaction did not lock the segment")]
    NotLocked,
    /// There is no memory.
    #[error("out of memory")]
    NoMemory,
    /// The record would have this many words, above 4096.
    #[error("the record would have {words} words")]
    TooLong { words: u32 },
    /// The segment has used its last number, 2^60.
    #[error("segment {segment} has used its last number")]
    SequenceSpent { segment: u32 },
    /// The range has no bytes.
    #[error("the range is empty")]
    EmptyRange,
    /// More than 64 ranges would stand.
    #[error("there are too many ranges")]
    TooManyRanges,
    /// The words do not fit after the tail of the log.
    #[error("the log is full: {need} words behind place {tail}")]
    Full { tail: u32, need: u32 },
    /// The log is being reset.
    #[error("the log is being reset")]
    Sealed,
    /// The last try found another tail, which is named.
    #[error("the tail has moved to {seen}")]
    Lost { seen: u64 },
    /// The device failed in this call.
    #[error("the device failed")]
    DeviceFault,
    /// The device failed before; only a recovery helps.
    #[error("the device failed before")]
    Halted,
    /// What the threads left does not fit: this part of it.
    #[error("{part} does not agree with the rest of the cluster")]
    Mismatch { part: ClusterPart },
    /// The token does not leave or arrive.
    #[error("{fault}")]
    Token { fault: TokenFault },
    /// The log was reset as often as it can be.
    #[error("all rounds are spent")]
    RoundsSpent,
    /// The log has a record whose segment is not on its pages up to this number.
    #[error("record {seq} of segment {segment} is not known to be on its pages")]
    Unclean { segment: u32, seq: u64 },
    /// The channel to this node has no room.
    #[error("the channel to node {to} is full")]
    ChannelFull { to: u16 },
    /// The transaction locked the segment for reading alone.
    #[error("the transaction locked segment {segment} for reading")]
    ReadOnly { segment: u32 },
}

impl NodeFault {
    ghost use Rattle.lc_segments.specs.Fault.{number_of};

    /// The fault's number.
    pub fn code(&self) -> u8
        ensures { result ≡ number_of self.now }
    {
        match self {
            NodeFault::Busy { .. } => 1,
            NodeFault::NotHere { .. } => 2,
            NodeFault::NoRange => 3,
            NodeFault::OutOfSegment => 4,
            NodeFault::NotLocked => 5,
            NodeFault::NoMemory => 6,
            NodeFault::TooLong { .. } => 7,
            NodeFault::SequenceSpent { .. } => 8,
            NodeFault::EmptyRange => 9,
            NodeFault::TooManyRanges => 10,
            NodeFault::Full { .. } => 11,
            NodeFault::Sealed => 12,
            NodeFault::Lost { .. } => 13,
            NodeFault::DeviceFault => 14,
            NodeFault::Halted => 15,
            NodeFault::Mismatch { .. } => 16,
            NodeFault::Token { .. } => 17,
            NodeFault::RoundsSpent => 18,
            NodeFault::Unclean { .. } => 19,
            NodeFault::ChannelFull { .. } => 20,
            NodeFault::ReadOnly { .. } => 21,
        }
    }
}

impl From<TxFault> for NodeFault {
    ghost from_gives = { λ fault own. own ≡ of_tx fault };

    fn from(fault: TxFault) -> NodeFault {
        match fault {
            TxFault::Busy { segment } => NodeFault::Busy { segment },
            TxFault::NotHere { segment } => NodeFault::NotHere { segment },
            TxFault::NoRange => NodeFault::NoRange,
            TxFault::OutOfSegment => NodeFault::OutOfSegment,
            TxFault::NotLocked => NodeFault::NotLocked,
            TxFault::NoMemory => NodeFault::NoMemory,
            TxFault::TooLong { words } => NodeFault::TooLong { words },
            TxFault::SequenceSpent { segment } => NodeFault::SequenceSpent { segment },
            TxFault::EmptyRange => NodeFault::EmptyRange,
            TxFault::TooManyRanges => NodeFault::TooManyRanges,
            TxFault::ReadOnly { segment } => NodeFault::ReadOnly { segment },
        }
    }
}

impl From<ClusterPart> for NodeFault {
    ghost from_gives = { λ part own. own ≡ Mismatch part };

    fn from(part: ClusterPart) -> NodeFault {
        NodeFault::Mismatch { part }
    }
}

impl From<AllocError> for NodeFault {
    ghost from_gives = { λ _ own. own ≡ NoMemory };

    fn from(_error: AllocError) -> NodeFault {
        NodeFault::NoMemory
    }
}

impl From<AdoptFault> for NodeFault {
    ghost from_gives = { λ fault own. own ≡ of_adoption fault };

    fn from(fault: AdoptFault) -> NodeFault {
        match fault {
            AdoptFault::Mismatch(part) => NodeFault::Mismatch { part },
            AdoptFault::NoMemory => NodeFault::NoMemory,
            AdoptFault::DeviceFault => NodeFault::DeviceFault,
        }
    }
}
