//! Who is told why a call on a file failed.
use std::io;

/// A call of the system on a file.
#[derive(Clone, Copy, PartialEq, Eq)]
pub enum FileCall {
    /// It reads bytes.
    Read,
    /// It writes bytes.
    Write,
    /// It makes what was written stable.
    Sync,
}

/// Is told why a call on a file failed, before the call's caller is: a `DeviceFault` does not say it.
pub trait FaultWitness: Drop {
    /// The call failed for this reason.
    fn failed(&self, call: FileCall, error: io::Error);
}

/// A witness that nobody asks.
#[derive(Clone, Copy)]
pub struct NoWitness;

impl FaultWitness for NoWitness {
    fn failed(&self, _call: FileCall, _error: io::Error) {}
}
