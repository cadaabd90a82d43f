//! The statuses that the program ends with.

/// All was done.
pub const DONE: u8 = 0;

/// Something was refused, or there was no memory.
pub const REFUSED: u8 = 1;

/// Something was not understood.
pub const NOT_UNDERSTOOD: u8 = 2;

/// A device, or the reader or the writer, failed.
pub const FAULTED: u8 = 3;
