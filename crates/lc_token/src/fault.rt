//! Why a token or a record is refused.
ghost use Rattle.lc_token.specs.declared.fault.TokenFault.TheVariants.{NoMemory};
ghost use Rattle.std.specs.Prelude.{◌≡◌};

use std::alloc::AllocError;
use thiserror::Error;

/// Why a token does not leave or arrive, or a record is not received.
#[derive(Clone, Copy, Debug, PartialEq, Eq, Error)]
pub enum TokenFault {
    /// Records that the token has seen are not applied yet.
    #[error("applied up to {applied}, and the token has seen {seq}")]
    Behind {
        /// The number up to which the node has applied.
        applied: u64,
        /// The token's number.
        seq: u64,
    },
    /// A record that the node reserved, of whatever segment, is not on the disk yet.
    #[error("a record of the node is not on the disk")]
    Unflushed,
    /// A page of the segment is being written.
    #[error("a page of the segment is being written")]
    Writing,
    /// A transaction has the token.
    #[error("the token is held")]
    Held,
    /// The token is elsewhere.
    #[error("the token of segment {segment} is not here")]
    NotHere {
        /// The segment.
        segment: u32,
    },
    /// There is no memory.
    #[error("out of memory")]
    NoMemory,
}

impl TokenFault {
    ghost use Rattle.lc_token.specs.Fault.{number_of};

    /// The fault's number.
    pub fn code(&self) -> u8
        ensures { result ≡ number_of self.now }
    {
        match self {
            TokenFault::Behind { .. } => 1,
            TokenFault::Unflushed => 2,
            TokenFault::Writing => 3,
            TokenFault::Held => 4,
            TokenFault::NotHere { .. } => 5,
            TokenFault::NoMemory => 6,
        }
    }
}

impl From<AllocError> for TokenFault {
    ghost from_gives = { λ _ fault. fault ≡ NoMemory };

    fn from(_error: AllocError) -> TokenFault {
        TokenFault::NoMemory
    }
}
