//! Which process has the lock of a file.
use std::alloc::Global;
use std::fs::{File, Metadata};
use std::os::unix::fs::MetadataExt;
use std::rt::Files;
use std::{fmt, fs, io};

// Where the system lists its locks, a line each, as `1: FLOCK  ADVISORY  WRITE 1234 fe:01:655362 0 EOF`.
const LOCKS: &str = "/proc/locks";

// The kind of the locks that a store takes.
const KIND: &str = "FLOCK";

/// Who has the lock of a file, where it is known. It prints as what stands after `store in use`.
#[derive(Clone, Copy)]
pub(crate) struct LockHolder(pub(crate) Option<u32>);

impl fmt::Display for LockHolder {
    ghost use Rattle.std.specs.Prelude.{None};

    ghost output = { λ _. None };

    fn fmt<W: fmt::Write>(&self, f: &mut fmt::Formatter<W>) -> fmt::Result {
        match self.0 {
            Some(process) => write!(f, " by process {process}"),
            None => Ok(()),
        }
    }
}

/// The process that has a lock of this file, by the system's list: the first one that is there. A child may hold the
/// lock that a process took which is there no more, and one of another machine or of another space of numbers has none
/// here.
pub(crate) fn lock_holder<R: Files>(
    alloc: Global,
    rt: &R,
    file: &Metadata,
) -> io::Result<Option<u32>> {
    let locks = io::read_to_string(alloc, File::open(rt, LOCKS)?)?;
    let name = name_of(alloc, file)?;
    for line in locks.lines() {
        if let Some(process) = holder_in(line, &name) {
            if fs::exists(rt, &format!(in alloc; "/proc/{process}")?)? {
                return Ok(Some(process));
            }
        }
    }
    Ok(None)
}

// How the list names this file: by its device, in hexadecimal, and its inode.
fn name_of(alloc: Global, file: &Metadata) -> io::Result<String> {
    let device = file.dev();
    let major = (device >> 8 & 0xfff) | (device >> 32 & 0xfffff000);
    let minor = (device & 0xff) | (device >> 12 & 0xffffff00);
    let inode = file.ino();
    Ok(format!(in alloc; "{major:02x}:{minor:02x}:{inode}")?)
}

// The process that has a lock of the file of this name by a line of the list. Who waits for a lock has none.
fn holder_in(line: &str, name: &str) -> Option<u32> {
    let mut words = line.split_ascii_whitespace();
    let _number = words.next()?;
    let kind = words.next()?;
    let _manner = words.next()?;
    let _access = words.next()?;
    let process = words.next()?.parse().ok()?;
    let is_held = kind == KIND && words.next()? == name;
    (is_held && process > 0).then_some(process)
}
