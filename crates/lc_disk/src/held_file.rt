//! What a file of a store does beside reads, writes and syncs.
use std::fs::{File, OpenFile, TryLockError};
use std::io;
use std::os::fd::AsRawFd;
use std::os::unix::fs::FileExt;

// The greatest descriptor of a standard stream.
const STANDARD_ERROR: i32 = 2;

/// An open file that a store can hold.
pub trait HeldFile: FileExt + OpenFile + Drop {
    /// The same open file, under no descriptor of a standard stream: who opens a file while standard output is closed
    /// may get its descriptor, and what is printed would be written into the file.
    fn beside_standard_streams(self) -> io::Result<Self>
    where
        Self: Sized;

    /// Takes the file's lock for this opening alone, until it is closed. It does not wait: where another opening has
    /// the lock it answers `WouldBlock`.
    fn try_lock(&self) -> Result<(), TryLockError>;
}

impl HeldFile for File {
    fn beside_standard_streams(self) -> io::Result<File> {
        if self.as_raw_fd() > STANDARD_ERROR {
            Ok(self)
        } else {
            self.try_clone()
        }
    }

    fn try_lock(&self) -> Result<(), TryLockError> {
        File::try_lock(self)
    }
}
