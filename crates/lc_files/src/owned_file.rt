//! A file that can be given to somebody.
use lc_disk::HeldFile;
use std::fs::File;
use std::io;
use std::os::fd::AsFd;
use std::os::unix::fs::fchown;

/// An open file that can be given to an owner.
pub trait OwnedFile: HeldFile {
    /// Gives the open file to this user and this group, whatever stands under its name now.
    fn give_to(&self, user: u32, group: u32) -> io::Result<()>;
}

impl OwnedFile for File {
    fn give_to(&self, user: u32, group: u32) -> io::Result<()> {
        fchown(self.as_fd(), Some(user), Some(group))
    }
}
