//! A folder that several processes may look at side by side.
use crate::owned_file::OwnedFile;
use std::fs::{File, TryLockError};

/// An open file whose lock several openings can have together.
pub trait SharedFile: OwnedFile {
    /// Takes the file's lock beside others that take it so, until it is closed. It does not wait: where another opening
    /// has the lock for itself alone it answers `WouldBlock`.
    fn try_lock_shared(&self) -> Result<(), TryLockError>;
}

impl SharedFile for File {
    fn try_lock_shared(&self) -> Result<(), TryLockError> {
        File::try_lock_shared(self)
    }
}
