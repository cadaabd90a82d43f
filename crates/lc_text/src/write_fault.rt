//! Why something was not written.
use std::io;
use thiserror::Error;

/// The writer failed. Nothing is said of how much went out.
#[derive(Clone, Copy, Debug, PartialEq, Eq, Error)]
#[error("the output could not be written")]
pub struct WriteFault;

impl From<io::Error> for WriteFault {
    fn from(_error: io::Error) -> WriteFault {
        WriteFault
    }
}
