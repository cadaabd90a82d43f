//! Why a server ends before its input does.
use std::alloc::AllocError;
use std::io;
use thiserror::Error;

/// Why a server ends before its input does.
#[derive(Debug, Drop, Error)]
pub(crate) enum Fault {
    /// A device failed, so nothing more becomes durable.
    #[error("device fault")]
    Device,
    /// Standard input could not be read, or there was no memory for a line.
    #[error("standard input: {0}")]
    Input(io::Error),
    /// Standard output could not be written.
    #[error("standard output: {0}")]
    Output(io::Error),
    /// There was no memory, or no thread.
    #[error("out of memory or threads")]
    NoMemory(#[from] AllocError),
}
