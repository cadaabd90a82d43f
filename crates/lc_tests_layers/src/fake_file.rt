//! A file in memory, whose calls may be short, interrupted or fail.
ghost use Rattle.std.specs.Prelude.{IsErr};

use lc_disk::HeldFile;
use std::alloc::Allocator;
use std::cell::Cell;
use std::fs::{Metadata, OpenFile, OpenOptions, TryLockError};
use std::io::{self, Error, ErrorKind, Read, Seek, SeekFrom, Write};
use std::os::unix::fs::FileExt;
use std::rt::Files;

/// What a file does at its calls.
#[derive(Clone, Copy)]
pub(crate) enum Manner {
    /// Each call moves one byte, and every second one is interrupted.
    Slow,
    /// The call of this number, from 1, fails; the others do all.
    Fails(u32),
    /// No byte can be read or written.
    Ends,
}

/// A file of eight bytes, which has no place of its own.
#[derive(Drop)]
pub(crate) struct FakeFile {
    bytes: Cell<[u8; 8]>,
    manner: Manner,
    calls: Cell<u32>,
}

impl FakeFile {
    // How many bytes of so many a call may move.
    fn allowed(&self, len: usize) -> io::Result<usize> {
        let call = self.calls.get().wrapping_add(1);
        self.calls.set(call);
        match self.manner {
            Manner::Slow if call % 2 == 0 => Err(Error::from(ErrorKind::Interrupted)),
            Manner::Slow => Ok(len.min(1)),
            Manner::Fails(failing) if call == failing => Err(Error::from(ErrorKind::Other)),
            Manner::Fails(_) => Ok(len),
            Manner::Ends => Ok(0),
        }
    }
}

impl FileExt for FakeFile {
    fn read_at(&self, buf: &mut [u8], offset: u64) -> io::Result<usize> {
        let allowed = self.allowed(buf.len())?;
        let bytes = self.bytes.get();
        let at = bytes.len().min(offset as usize);
        let moved = allowed.min(bytes.len() - at).min(buf.len());
        let (here, _) = buf.split_at_mut(moved);
        here.copy_from_slice(&bytes[at..at + moved]);
        Ok(moved)
    }

    fn write_at(&self, buf: &[u8], offset: u64) -> io::Result<usize> {
        let allowed = self.allowed(buf.len())?;
        let mut bytes = self.bytes.get();
        let at = bytes.len().min(offset as usize);
        let moved = allowed.min(bytes.len() - at).min(buf.len());
        bytes[at..at + moved].copy_from_slice(&buf[..moved]);
        self.bytes.set(bytes);
        Ok(moved)
    }
}

impl OpenFile for FakeFile {
    fn metadata(&self) -> io::Result<Metadata> {
        Ok(Metadata::of_file(8))
    }

    fn set_len(&self, _size: u64) -> io::Result<()> {
        unsupported()
    }

    fn sync_all(&self) -> io::Result<()> {
        self.sync_data()
    }

    fn sync_data(&self) -> io::Result<()> {
        self.allowed(0)?;
        Ok(())
    }
}

impl HeldFile for FakeFile {
    fn beside_standard_streams(self) -> io::Result<FakeFile> {
        Ok(self)
    }

    fn try_lock(&self) -> Result<(), TryLockError> {
        Ok(())
    }
}

impl Read for FakeFile {
    fn read(&mut self, _buf: &mut [u8]) -> io::Result<usize> {
        unsupported()
    }
}

impl Write for FakeFile {
    fn write(&mut self, _buf: &[u8]) -> io::Result<usize> {
        unsupported()
    }

    fn flush(&mut self) -> io::Result<()> {
        unsupported()
    }
}

impl Seek for FakeFile {
    fn seek(&mut self, _to: SeekFrom) -> io::Result<u64> {
        unsupported()
    }
}

/// A folder in which each name is that of a new file of eight zeros.
#[derive(Clone, Copy)]
pub(crate) struct FakeFolder {
    /// What its files do.
    pub(crate) manner: Manner,
}

impl Files for FakeFolder {
    type File = FakeFile;

    type Dir = FakeFile;

    fn open_file(&self, _how: &OpenOptions, _path: &str) -> io::Result<FakeFile> {
        Ok(FakeFile {
            bytes: Cell::new([0; 8]),
            manner: self.manner,
            calls: Cell::new(0),
        })
    }

    fn open_dir(&self, _path: &str) -> io::Result<FakeFile> {
        unsupported()
    }

    fn metadata(&self, _path: &str) -> io::Result<Metadata> {
        Ok(Metadata::of_file(8))
    }

    fn symlink_metadata(&self, _path: &str) -> io::Result<Metadata> {
        unsupported()
    }

    fn copy(&self, _from: &str, _to: &str) -> io::Result<u64> {
        unsupported()
    }

    fn rename(&self, _from: &str, _to: &str) -> io::Result<()> {
        unsupported()
    }

    fn remove_file(&self, _path: &str) -> io::Result<()> {
        unsupported()
    }

    fn create_dir(&self, _path: &str) -> io::Result<()> {
        unsupported()
    }

    fn remove_dir(&self, _path: &str) -> io::Result<()> {
        unsupported()
    }

    fn remove_dir_all<B: Allocator>(&self, _alloc: B, _path: &str) -> io::Result<()> {
        unsupported()
    }
}

// What is not here.
fn unsupported<T>() -> io::Result<T>
    ensures { IsErr result }
{
    Err(Error::from(ErrorKind::Unsupported))
}
