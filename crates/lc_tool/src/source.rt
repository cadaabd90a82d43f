//! A reader whose first fault ends the reading, and which gives so many bytes at most.
use std::io::{self, Error, ErrorKind, Read};

/// A reader that gives up at its first fault, an interrupted read too, and remembers it. It gives up also where it is
/// asked for more than it has room for.
#[derive(Drop)]
pub(crate) struct Source<'a, R: Read> {
    reader: &'a mut R,
    /// How many bytes may still be read, but for those that come with the last of them.
    pub(crate) room: usize,
    /// Whether the reader failed.
    pub(crate) failed: bool,
}

impl<'a, R: Read> Source<'a, R> {
    ghost use Rattle.std.specs.Prelude.{◌≡◌, false};

    /// What the reader has left, in any number.
    pub(crate) fn new(reader: &'a mut R) -> Self
        ensures reader { result.reader ≡ reader.entry }
        ensures failed { result.failed ≡ false }
    {
        Source {
            reader,
            room: usize::MAX,
            failed: false,
        }
    }
}

impl<R: Read> Read for Source<'_, R> {
    ghost remaining = { λ s. R.remaining s.reader.now };

    fn read(&mut self, buf: &mut [u8]) -> io::Result<usize> {
        if self.room == 0 {
            return Err(Error::from(ErrorKind::Other));
        }
        match self.reader.read(buf) {
            Ok(count) => {
                self.room = self.room.saturating_sub(count);
                Ok(count)
            }
            Err(_) => {
                self.failed = true;
                // std's loops try again after an interrupted read alone.
                Err(Error::from(ErrorKind::Other))
            }
        }
    }
}
