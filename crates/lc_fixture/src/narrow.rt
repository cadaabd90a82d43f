//! A writer with little room.
use std::io::{self, Error, ErrorKind, Write};

/// A writer that takes so many bytes, and then fails.
#[derive(Drop)]
pub struct Narrow {
    pub room: usize,
}

impl Write for Narrow {
    fn write(&mut self, buf: &[u8]) -> io::Result<usize> {
        let Some(room) = self.room.checked_sub(buf.len()) else {
            return Err(Error::from(ErrorKind::Other));
        };
        self.room = room;
        Ok(buf.len())
    }

    fn flush(&mut self) -> io::Result<()> {
        Ok(())
    }
}
