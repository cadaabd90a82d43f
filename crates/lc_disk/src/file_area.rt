//! An area over a file.
ghost use Rattle.std.specs.Prelude.{◌≡◌, ◌≢◌, ◌↔◌, ◌+◌, ◌<◌, ◌≤◌, ◌^◌, ℕ, true, false, length, replicate, IfOk, IsErr};
ghost use Rattle.std.specs.Prelude.{if◌then◌else◌, is_ok};
ghost use Rattle.std.proofs.Common.{rules};
ghost use Rattle.std.proofs.lemmas.List.{length-replicate};
ghost use Rattle.lc_disk.specs.Count.{counted};
ghost use Rattle.lc_disk.specs.Tally.{tallied};

use crate::count::Count;
use crate::{
    Area, Choice, DeviceFault, FaultWitness, FileCall, HeldFile, NoWitness, OpenFault, Stoppable,
    Tally,
};
use std::alloc::Global;
use std::fs::{self, File, OpenFile, OpenOptions};
use std::io::{self, Error, ErrorKind};
use std::os::unix::fs::FileExt;
use std::rt::Files;

// The zeros that go into a new file at once, in bytes.
static ZEROS: [u8; 4096] = [0; 4096];

/// The bytes of a file as an area. Its calls are positional and whole: one that the system cuts short goes on, one that
/// a signal interrupts is tried again, and any other error is a fault, of which its witness is told, and is counted. A
/// sync makes the file's data stable. No file is under a descriptor of the standard streams.
///
/// After a write or a sync that failed each call is a fault, and none is made of the system, until the file is opened
/// anew. What it holds in memory may then be other than what is on the device, and the system no longer tells.
///
/// A sync calls the system only where there is something to sync. That is so after a write, and after the opening, for
/// whoever had the file before may have left bytes that are not stable. A write of no bytes calls nothing.
///
/// Nothing is known of what other processes do to the file, so contracts never see it as honest; a stop leaves it as it
/// is. The file is closed where the area is dropped.
#[derive(Drop)]
pub struct FileArea<F = File, W = NoWitness> {
    file: F,
    len: usize,
    calls: Tally,
    faults: Count,
    is_given_up: bool,
    is_unsynced: bool,
    witness: W,
    ghost fits: { len < 2 ^ 64 },
}

impl<F: HeldFile> FileArea<F> {
    ghost use Rattle.lc_disk.specs.FileArea.{file_calls, file_failures, file_len};

    /// The bytes of the file at this path, as long as it is now.
    ///
    /// # Errors
    ///
    /// `NotOpened` where there is no regular file that can be read and written; `NoMemory` where the system has none.
    pub fn open<R: Files<File = F>>(
        _alloc: Global,
        rt: &R,
        path: &str,
    ) -> Result<FileArea<F>, OpenFault>
        ensures failures { IfOk result (λ area. file_failures area ≡ 0) }
        ensures exists { result ≢ Err OpenFault.Exists }
    {
        match FileArea::try_open(rt, path) {
            Ok(area) => Ok(area),
            Err(error) => Err(not_opened(error)),
        }
    }

    /// As `open`, with the system's reason.
    pub fn try_open<R: Files<File = F>>(rt: &R, path: &str) -> io::Result<FileArea<F>>
        ensures { IfOk result (λ area. file_failures area ≡ 0) }
    {
        let mut options = OpenOptions::new();
        let (file, len) = open_regular(rt, options.read(true).write(true), path)?;
        FileArea::of_file(file, len)
    }

    /// The bytes of a regular file that is open, as many as it has now. Where it was opened for reading alone each
    /// write is a fault.
    ///
    /// # Errors
    ///
    /// `FileTooLarge` exactly where the file is longer than any list of bytes.
    pub fn of_file(file: F, len: u64) -> io::Result<FileArea<F>>
        ensures len { IfOk result (λ area. file_len area ≡ len) }
        ensures failures { IfOk result (λ area. file_failures area ≡ 0) }
        ensures too_large { IsErr result ↔ (usize.MAX < len) }
    {
        match usize::try_from(len) {
            Ok(len) => Ok(FileArea::over(file, len)),
            Err(_) => Err(Error::from(ErrorKind::FileTooLarge)),
        }
    }

    /// A new file at this path, with so many zeros that are stable. The folder that has it is not synced.
    ///
    /// # Errors
    ///
    /// `Exists` where anything stands at the path, be it a link to nothing; `NotOpened` where the file cannot be made,
    /// or its zeros not written and synced, and then it stays as it is; `NoMemory` where the system has none.
    pub fn make<R: Files<File = F>>(
        _alloc: Global,
        rt: &R,
        path: &str,
        len: usize,
    ) -> Result<FileArea<F>, OpenFault>
        ensures len { IfOk result (λ area. file_len area ≡ len) }
        ensures failures { IfOk result (λ area. file_failures area ≡ 0) }
    {
        match make_new(rt, path) {
            Ok(file) => FileArea::of_zeros(file, len).map_err(not_opened),
            Err(error) => Err(not_made(error)),
        }
    }

    /// As `make`, with the system's reason.
    pub fn try_make<R: Files<File = F>>(rt: &R, path: &str, len: usize) -> io::Result<FileArea<F>>
        ensures len { IfOk result (λ area. file_len area ≡ len) }
        ensures failures { IfOk result (λ area. file_failures area ≡ 0) }
    {
        FileArea::of_zeros(make_new(rt, path)?, len)
    }

    // A new file of so many zeros, which are stable.
    fn of_zeros(file: F, len: usize) -> io::Result<FileArea<F>>
        ensures len { IfOk result (λ area. file_len area ≡ len) }
        ensures failures { IfOk result (λ area. file_failures area ≡ 0) }
    {
        write_zeros(&file, len)?;
        file.sync_all()?;
        Ok(FileArea::over(file, len))
    }

    // A file of this length, which has not failed yet, and may hold what is not stable.
    fn over(file: F, len: usize) -> FileArea<F>
        ensures len { file_len result ≡ len }
        ensures failures { file_failures result ≡ 0 }
    {
        FileArea {
            file,
            len,
            calls: Tally::new(),
            faults: Count::new(),
            is_given_up: false,
            is_unsynced: true,
            witness: NoWitness,
        }
    }

    /// The same area, of whose faults this witness is told.
    pub fn witnessed_by<W: FaultWitness>(self, witness: W) -> FileArea<F, W>
        ensures len { file_len result ≡ file_len self }
        ensures calls { file_calls result ≡ file_calls self }
        ensures failures { file_failures result ≡ file_failures self }
    {
        let FileArea {
            file,
            len,
            calls,
            faults,
            is_given_up,
            is_unsynced,
            witness: _,
        } = self;
        FileArea {
            file,
            len,
            calls,
            faults,
            is_given_up,
            is_unsynced,
            witness,
        }
    }
}

impl<F: HeldFile, W: FaultWitness> FileArea<F, W> {
    ghost use Rattle.lc_disk.specs.FileArea.{file_calls, file_failures, file_len};

    // What a call of the system gave, with its error as a fault that is counted. After a write or a sync that failed
    // the file is given up.
    fn counted(&mut self, call: FileCall, done: io::Result<()>) -> Result<(), DeviceFault>
        ensures len { file_len self.new ≡ file_len self.old }
        ensures calls { file_calls self.new ≡ file_calls self.old }
        ensures counted { file_failures self.new
            ≡ (if is_ok result then file_failures self.old else file_failures self.old + 1) }
        ensures told { is_ok result ≡ is_ok done }
    {
        match done {
            Ok(()) => Ok(()),
            Err(error) => {
                self.is_given_up |= call != FileCall::Read;
                self.witness.failed(call, error);
                self.faults.count();
                Err(DeviceFault)
            }
        }
    }

    // The fault of a file that is given up.
    fn refused(&mut self) -> Result<(), DeviceFault>
        ensures len { file_len self.new ≡ file_len self.old }
        ensures calls { file_calls self.new ≡ file_calls self.old }
        ensures counted { file_failures self.new ≡ file_failures self.old + 1 }
        ensures refused { is_ok result ≡ false }
    {
        self.faults.count();
        Err(DeviceFault)
    }
}

/// The regular file at this path, opened so, and how many bytes it has now. What is no regular file is not even opened:
/// a pipe without a writer would wait.
///
/// # Errors
///
/// The system's reason why there is no regular file that can be opened so.
pub fn open_regular<R: Files>(
    rt: &R,
    options: &OpenOptions,
    path: &str,
) -> io::Result<(R::File, u64)>
where
    R::File: HeldFile,
{
    if !fs::metadata(rt, path)?.is_file() {
        return Err(not_regular());
    }
    let file = options.open(rt, path)?.beside_standard_streams()?;
    let metadata = file.metadata()?;
    if !metadata.is_file() {
        return Err(not_regular());
    }
    let len = metadata.len();
    Ok((file, len))
}

// A new file at this path, with no bytes.
fn make_new<R: Files>(rt: &R, path: &str) -> io::Result<R::File>
where
    R::File: HeldFile,
{
    OpenOptions::new()
        .read(true)
        .write(true)
        .create_new(true)
        .open(rt, path)?
        .beside_standard_streams()
}

// Why what is no regular file was not opened.
fn not_regular() -> Error {
    Error::new(ErrorKind::InvalidInput, "not a regular file")
}

// Zeros from the front of a file on.
fn write_zeros<F: FileExt>(file: &F, len: usize) -> io::Result<()> {
    let mut at = 0;
    while at < len {
        let piece = ZEROS.len().min(len - at);
        file.write_all_at(&ZEROS[..piece], at as u64)?;
        at += piece;
    }
    Ok(())
}

// Why a file was not opened.
fn not_opened(error: io::Error) -> OpenFault
    ensures { result ≢ OpenFault.Exists }
{
    match error.kind() {
        ErrorKind::OutOfMemory => OpenFault::NoMemory,
        _ => OpenFault::NotOpened,
    }
}

// Why a file was not made.
fn not_made(error: io::Error) -> OpenFault {
    match error.kind() {
        ErrorKind::AlreadyExists => OpenFault::Exists,
        _ => not_opened(error),
    }
}

impl<F: HeldFile, W: FaultWitness> Area for FileArea<F, W> {
    ghost use Rattle.lc_disk.specs.FileArea.{file_calls, file_failures, file_len};

    ghost now = { λ a. replicate a.len 0 };

    ghost dirty = { λ a k. false };

    ghost calls = { λ a. tallied a.calls };

    ghost failures = { λ a. counted a.faults };

    ghost honest = { λ a. false };

    ghost reads_bytes = { Prim.search rules };

    ghost len_fits = { λ a. Prim.search (rules, length-replicate) };

    fn len(&self) -> usize {
        self.len
    }

    fn read(&mut self, at: usize, buffer: &mut [u8]) -> Result<(), DeviceFault> {
        self.calls.count();
        if self.is_given_up {
            return self.refused();
        }
        let done = self.file.read_exact_at(buffer, at as u64);
        self.counted(FileCall::Read, done)
    }

    fn write_at(&mut self, at: usize, bytes: &[u8]) -> Result<(), DeviceFault> {
        self.calls.count();
        if self.is_given_up {
            return self.refused();
        }
        if bytes.is_empty() {
            return Ok(());
        }
        self.is_unsynced = true;
        let done = self.file.write_all_at(bytes, at as u64);
        self.counted(FileCall::Write, done)
    }

    fn sync(&mut self) -> Result<(), DeviceFault> {
        self.calls.count();
        if self.is_given_up {
            return self.refused();
        }
        if !self.is_unsynced {
            return Ok(());
        }
        let done = self.file.sync_data();
        self.is_unsynced = done.is_err();
        self.counted(FileCall::Sync, done)
    }

    fn faults(&self) -> u64 {
        self.faults.shown()
    }
}

impl<F: HeldFile, W: FaultWitness> Stoppable for FileArea<F, W> {
    // Nothing is said of a file.
    ghost left = { λ area choices k. 0 };

    /// Nothing: a stop of the process leaves the file as it is.
    fn stop(&mut self, _choices: &[Choice]) {}
}
