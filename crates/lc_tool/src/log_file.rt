//! The inspection of a log's file.
ghost use Rattle.std.specs.Prelude.{◌≡◌, ◌↔◌, ◌⊎◌, IfOk, IsTrue};
ghost use Rattle.std.specs.Io.KnownBytes.{Appends};
ghost use Rattle.lc_record.specs.Words.{words_of};
ghost use Rattle.lc_folder.specs.Files.{IsLogLen};
ghost use Rattle.lc_tool.specs.Files.{TellsInspection};
ghost use Rattle.lc_text.specs.Inspector.{Inspects};
ghost use Rattle.lc_text.specs.Text.{no_memory_text};

use crate::making::stopped;
use crate::scripts::{bad_geometry, no_memory};
use crate::{ToolFault, WriteFault};
use lc_disk::{HeldFile, open_regular};
use lc_files::FolderFault;
use lc_look::DONE;
use lc_record::Geometry;
use lc_text::inspect;
use std::alloc::Global;
use std::fs::OpenOptions;
use std::io::{self, ErrorKind, Write};
use std::os::unix::fs::FileExt;
use std::rt::Files;

const WORD_BYTES: u64 = 8;

// What a file has.
enum LogFile {
    Bytes(Vec<u8>),
    // It is longer or shorter than any log.
    OtherLen,
}

/// Writes a line for each record of the log in a file, the last first where `reverse` is set. The status is 0 where
/// that is done, 1 where the file has not the length of a log or there was no memory, 3 where it could not be read, and
/// why is said on standard error. The file is opened for reading alone, and takes memory only where it is as long as a
/// log. An `Err` is a fault of the writer.
pub fn inspect_file<R: Files + Eprint, W: Write>(
    alloc: Global,
    rt: &R,
    path: &str,
    reverse: bool,
    writer: &mut W,
) -> Result<u8, WriteFault>
where
    R::File: HeldFile,
    ensures tells { IfOk result (λ status.
        TellsInspection reverse (W.contents writer.old) (W.contents writer.new) status) }
{
    match read_log(alloc, rt, path) {
        Ok(LogFile::Bytes(bytes)) => show(alloc, &bytes, reverse, writer),
        Ok(LogFile::OtherLen) => bad_geometry(writer, 0),
        Err(error) if error.kind() == ErrorKind::OutOfMemory => {
            stopped(writer, FolderFault::NoMemory)
        }
        Err(error) => {
            let _ = eprintln!(rt; "lcrvm: {path}: {error}");
            stopped(writer, FolderFault::Failed)
        }
    }
}

// The bytes of a log's file.
fn read_log<R: Files>(alloc: Global, rt: &R, path: &str) -> io::Result<LogFile>
where
    R::File: HeldFile,
{
    let mut options = OpenOptions::new();
    let (file, len) = open_regular(rt, options.read(true), path)?;
    if !is_log_len(len) {
        return Ok(LogFile::OtherLen);
    }
    let mut bytes = vec![in alloc; 0; len as usize]?;
    file.read_exact_at(&mut bytes, 0)?;
    Ok(LogFile::Bytes(bytes))
}

// Whether some log is so many bytes long.
fn is_log_len(len: u64) -> bool
    ensures { IsTrue result ↔ IsLogLen len }
{
    if len % WORD_BYTES != 0 || len / WORD_BYTES == 0 {
        return false;
    }
    let Ok(words) = u32::try_from(len / WORD_BYTES - 1) else {
        return false;
    };
    Geometry::new(1, 1, 1, 1, words).is_some()
}

// The lines of these bytes, or that of want of memory.
fn show<W: Write>(
    alloc: Global,
    bytes: &[u8],
    reverse: bool,
    writer: &mut W,
) -> Result<u8, WriteFault>
    ensures shown { IfOk result (λ status.
        ((status ≡ 0) × Inspects reverse (words_of bytes.now) (W.contents writer.old) (W.contents writer.new))
        ⊎ ((status ≡ 1) × Appends (W.contents writer.old) (W.contents writer.new) no_memory_text)) }
{
    match inspect(alloc, bytes, reverse, writer) {
        Ok(()) => Ok(DONE),
        Err(ToolFault::NoMemory) => no_memory(writer),
        Err(_) => Err(WriteFault),
    }
}
