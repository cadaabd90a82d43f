//! Files in memory that list the calls which are made on them.
ghost use Rattle.std.specs.Prelude.{IsErr};

use lc_disk::HeldFile;
use lc_files::{OwnedFile, SharedFile};
use std::alloc::{Allocator, Global};
use std::cell::{Cell, RefCell};
use std::fmt::Display;
use std::fs::{Metadata, OpenFile, OpenOptions, Permissions, TryLockError};
use std::io::{self, Error, ErrorKind, Read, Seek, SeekFrom, Write};
use std::mem;
use std::os::unix::fs::FileExt;
use std::rt::Files;

/// The path of the one folder.
pub const FOLDER: &str = "store";

const PARENT: &str = "store/..";

// A file that is there, or was.
#[derive(Drop)]
struct Entry {
    path: String,
    bytes: Vec<u8>,
}

/// What goes wrong in a folder.
#[derive(Clone, Copy)]
pub enum Trouble {
    /// Nothing.
    Nothing,
    /// Another process has the folder.
    InUse,
    /// The sync of this number, from 1, fails.
    Sync(u32),
    /// The write of this number, from 1, fails.
    Write(u32),
}

/// A folder in memory.
#[derive(Drop)]
pub struct Shelf {
    alloc: Global,
    entries: RefCell<Vec<Entry>>,
    calls: RefCell<String>,
    said: RefCell<String>,
    trouble: Cell<Trouble>,
}

impl Shelf {
    pub fn new(alloc: Global) -> Shelf {
        Shelf {
            alloc,
            entries: RefCell::new(Vec::new(alloc)),
            calls: RefCell::new(String::new(alloc)),
            said: RefCell::new(String::new(alloc)),
            trouble: Cell::new(Trouble::Nothing),
        }
    }

    /// This goes wrong from here on.
    pub fn meets(&self, trouble: Trouble) {
        self.trouble.set(trouble);
    }

    /// The calls since the last look, a line each, and none from here on.
    pub fn calls(&self) -> io::Result<String> {
        let mut calls = self.calls.try_borrow_mut()?;
        Ok(mem::replace(&mut *calls, String::new(self.alloc)))
    }

    /// What was printed on standard error since the last look.
    pub fn said(&self) -> io::Result<String> {
        let mut said = self.said.try_borrow_mut()?;
        Ok(mem::replace(&mut *said, String::new(self.alloc)))
    }

    /// Puts a file with this text there.
    pub fn put_text(&self, path: &str, text: &str) -> io::Result<()> {
        let mut bytes = Vec::new(self.alloc);
        bytes.extend_from_slice(text.as_bytes())?;
        self.add(path, bytes)?;
        Ok(())
    }

    fn list(&self, call: &str, path: &str) -> io::Result<()> {
        let line = format!(in self.alloc; "{call} {path}\n")?;
        self.calls.try_borrow_mut()?.push_str(&line)?;
        Ok(())
    }

    // The place of the file at this path.
    fn find(&self, path: &str) -> io::Result<Option<usize>> {
        let entries = self.entries.try_borrow()?;
        for (place, entry) in entries.iter().enumerate() {
            if entry.path.as_str() == path {
                return Ok(Some(place));
            }
        }
        Ok(None)
    }

    fn add(&self, path: &str, bytes: Vec<u8>) -> io::Result<usize> {
        let path = String::from_str(self.alloc, path)?;
        let mut entries = self.entries.try_borrow_mut()?;
        let place = entries.len();
        entries.push(Entry { path, bytes })?;
        Ok(place)
    }

    // Gives the file at a place another path; the empty one is that of no file.
    fn name(&self, place: usize, path: &str) -> io::Result<()> {
        let path = String::from_str(self.alloc, path)?;
        let mut entries = self.entries.try_borrow_mut()?;
        if let Some(entry) = entries.get_mut(place) {
            entry.path = path;
        }
        Ok(())
    }

    fn metadata(&self, path: &str) -> io::Result<Metadata> {
        if path == FOLDER || path == PARENT {
            return Ok(Metadata::of_dir());
        }
        match self.find(path)? {
            Some(place) => Ok(Metadata::of_file(self.len_of(place)?)),
            None => Err(Error::from(ErrorKind::NotFound)),
        }
    }

    fn len_of(&self, place: usize) -> io::Result<u64> {
        let entries = self.entries.try_borrow()?;
        match entries.get(place) {
            Some(entry) => Ok(entry.bytes.len() as u64),
            None => Ok(0),
        }
    }

    // Whether a sync that is made now fails, or a write.
    fn fails(&self, is_sync: bool) -> bool {
        let (left, next) = match self.trouble.get() {
            Trouble::Sync(left) if is_sync => (left, Trouble::Sync(left.saturating_sub(1))),
            Trouble::Write(left) if !is_sync => (left, Trouble::Write(left.saturating_sub(1))),
            _ => return false,
        };
        self.trouble.set(next);
        left == 1
    }
}

/// The folder as a runtime.
#[derive(Clone, Copy)]
pub struct Listed<'a>(pub &'a Shelf);

impl Eprint for Listed<'_> {
    fn eprint<D: Display + Drop>(&self, value: D) -> io::Result<()> {
        let text = value.to_string(self.0.alloc)?;
        self.0.said.try_borrow_mut()?.push_str(&text)?;
        Ok(())
    }

    fn eprintln<D: Display + Drop>(&self, value: D) -> io::Result<()> {
        self.eprint(value)?;
        self.eprint("\n")
    }
}

impl<'a> Files for Listed<'a> {
    type File = ListedFile<'a>;

    type Dir = ListedFile<'a>;

    fn open_file(&self, how: &OpenOptions, path: &str) -> io::Result<ListedFile<'a>> {
        let place = match self.0.find(path)? {
            Some(_) if how.asks_create_new() => return Err(Error::from(ErrorKind::AlreadyExists)),
            Some(place) => {
                self.0.list("open", path)?;
                Some(place)
            }
            None if path == FOLDER || path == PARENT => {
                self.0.list("open", path)?;
                None
            }
            None if how.asks_create_new() || how.asks_create() => {
                self.0.list("make", path)?;
                Some(self.0.add(path, Vec::new(self.0.alloc))?)
            }
            None => return Err(Error::from(ErrorKind::NotFound)),
        };
        Ok(ListedFile {
            shelf: self.0,
            place,
            path: String::from_str(self.0.alloc, path)?,
            at: 0,
        })
    }

    fn open_dir(&self, _path: &str) -> io::Result<ListedFile<'a>> {
        unsupported()
    }

    fn metadata(&self, path: &str) -> io::Result<Metadata> {
        self.0.metadata(path)
    }

    fn symlink_metadata(&self, path: &str) -> io::Result<Metadata> {
        self.0.list("look", path)?;
        self.0.metadata(path)
    }

    fn copy(&self, _from: &str, _to: &str) -> io::Result<u64> {
        unsupported()
    }

    fn rename(&self, from: &str, to: &str) -> io::Result<()> {
        self.0.list("rename", from)?;
        if let Some(place) = self.0.find(to)? {
            self.0.name(place, "")?;
        }
        match self.0.find(from)? {
            Some(place) => self.0.name(place, to),
            None => Err(Error::from(ErrorKind::NotFound)),
        }
    }

    fn remove_file(&self, path: &str) -> io::Result<()> {
        self.0.list("remove", path)?;
        match self.0.find(path)? {
            Some(place) => self.0.name(place, ""),
            None => Err(Error::from(ErrorKind::NotFound)),
        }
    }

    fn create_dir(&self, _path: &str) -> io::Result<()> {
        unsupported()
    }

    fn remove_dir(&self, _path: &str) -> io::Result<()> {
        unsupported()
    }

    fn remove_dir_all<B: Allocator>(&self, _alloc: B, _path: &str) -> io::Result<()> {
        unsupported()
    }
}

/// An open file of the folder, or the folder itself.
#[derive(Drop)]
pub struct ListedFile<'a> {
    shelf: &'a Shelf,
    place: Option<usize>,
    path: String,
    // Where it is read from next.
    at: u64,
}

impl FileExt for ListedFile<'_> {
    fn read_at(&self, buf: &mut [u8], offset: u64) -> io::Result<usize> {
        self.shelf.list("read", &self.path)?;
        let entries = self.shelf.entries.try_borrow()?;
        let Some(entry) = self.place.and_then(|place| entries.get(place)) else {
            return unsupported();
        };
        let at = entry.bytes.len().min(offset as usize);
        let moved = buf.len().min(entry.bytes.len() - at);
        buf[..moved].copy_from_slice(&entry.bytes[at..at + moved]);
        Ok(moved)
    }

    fn write_at(&self, buf: &[u8], offset: u64) -> io::Result<usize> {
        let path = &self.path;
        let len = buf.len();
        let call = format!(in self.shelf.alloc; "{path} {offset} {len}")?;
        self.shelf.list("write", &call)?;
        if self.shelf.fails(false) {
            return Err(Error::other("the write failed"));
        }
        let mut entries = self.shelf.entries.try_borrow_mut()?;
        let Some(place) = self.place else {
            return unsupported();
        };
        let Some(entry) = entries.get_mut(place) else {
            return unsupported();
        };
        let at = (offset as usize).min(1 << 20);
        for (k, byte) in buf.iter().enumerate() {
            match entry.bytes.get_mut(at.wrapping_add(k)) {
                Some(old) => *old = *byte,
                None => entry.bytes.push(*byte)?,
            }
        }
        Ok(buf.len())
    }
}

impl OpenFile for ListedFile<'_> {
    fn metadata(&self) -> io::Result<Metadata> {
        match self.place {
            Some(place) => Ok(Metadata::of_file(self.shelf.len_of(place)?)),
            None => Ok(Metadata::of_dir()),
        }
    }

    fn set_len(&self, _size: u64) -> io::Result<()> {
        unsupported()
    }

    fn sync_all(&self) -> io::Result<()> {
        self.sync_data()
    }

    fn sync_data(&self) -> io::Result<()> {
        self.shelf.list("sync", &self.path)?;
        if self.shelf.fails(true) {
            return Err(Error::other("the sync failed"));
        }
        Ok(())
    }

    fn set_permissions(&self, _perm: Permissions) -> io::Result<()> {
        self.shelf.list("mode", &self.path)
    }
}

impl ListedFile<'_> {
    // A lock that another process may have.
    fn lock(&self, call: &str) -> Result<(), TryLockError> {
        match (self.shelf.list(call, &self.path), self.shelf.trouble.get()) {
            (Ok(()), Trouble::InUse) => Err(TryLockError::WouldBlock),
            (Ok(()), _) => Ok(()),
            (Err(error), _) => Err(TryLockError::Error(error)),
        }
    }
}

impl HeldFile for ListedFile<'_> {
    fn beside_standard_streams(self) -> io::Result<Self> {
        Ok(self)
    }

    fn try_lock(&self) -> Result<(), TryLockError> {
        self.lock("lock")
    }
}

impl OwnedFile for ListedFile<'_> {
    fn give_to(&self, _user: u32, _group: u32) -> io::Result<()> {
        unsupported()
    }
}

impl SharedFile for ListedFile<'_> {
    fn try_lock_shared(&self) -> Result<(), TryLockError> {
        self.lock("share")
    }
}

impl Read for ListedFile<'_> {
    fn read(&mut self, buf: &mut [u8]) -> io::Result<usize> {
        let moved = self.read_at(buf, self.at)?;
        self.at = self.at.wrapping_add(moved as u64);
        Ok(moved)
    }
}

impl Write for ListedFile<'_> {
    fn write(&mut self, _buf: &[u8]) -> io::Result<usize> {
        unsupported()
    }

    fn flush(&mut self) -> io::Result<()> {
        unsupported()
    }
}

impl Seek for ListedFile<'_> {
    fn seek(&mut self, _to: SeekFrom) -> io::Result<u64> {
        unsupported()
    }
}

// What is not here.
fn unsupported<T>() -> io::Result<T>
    ensures { IsErr result }
{
    Err(Error::from(ErrorKind::Unsupported))
}
