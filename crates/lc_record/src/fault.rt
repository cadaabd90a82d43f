//! Why a record is not written.
use thiserror::Error;

/// Why `encode` gives no words.
#[derive(Clone, Copy, Debug, PartialEq, Eq, Error)]
pub enum RecordFault {
    /// The record has no spelling.
    #[error("the record has no spelling")]
    NotCanonical,
    /// It would have more than 4096 words.
    #[error("the record has {words} words, which is too long")]
    TooLong {
        /// Its words, or the greatest number where there are more.
        words: usize,
    },
    /// There is no memory.
    #[error("out of memory")]
    NoMemory,
}

impl RecordFault {
    ghost use Rattle.std.specs.Prelude.{◌≡◌};
    ghost use Rattle.lc_record.specs.Fault.{number_of};

    /// The fault's number.
    pub fn code(&self) -> u8
        ensures { result ≡ number_of self.now }
    {
        match self {
            RecordFault::NotCanonical => 1,
            RecordFault::TooLong { .. } => 2,
            RecordFault::NoMemory => 3,
        }
    }
}
