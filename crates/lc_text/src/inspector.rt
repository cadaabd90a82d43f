//! The records of a log, one a line.
ghost use Rattle.std.specs.Prelude.{◌≡◌, ◌≢◌, ◌≤◌, IfOk, OnErr, OnOk, length};
ghost use Rattle.std.specs.Io.KnownBytes.{Appends, Keeps};
ghost use Rattle.lc_record.specs.Words.{words_of};
ghost use Rattle.lc_text.specs.Inspector.{AreFound, Inspects};

use crate::ToolFault;
use crate::records::write_records;
use lc_log::{text_len, walk, walk_back, words_in};
use lc_record::Record;
use std::alloc::{AllocError, Global};
use std::io::Write;

/// Writes a line for each record of a log's bytes, with its place and its words, and nothing else: the first record
/// first, or with `reverse` the last one first. It is safe on any bytes; what stands after the last record is not
/// shown. Without a whole word it asks for no memory.
pub fn inspect<W: Write>(
    alloc: Global,
    bytes: &[u8],
    reverse: bool,
    writer: &mut W,
) -> Result<(), ToolFault>
    ensures shown { OnOk result (Inspects reverse (words_of bytes.now) (W.contents writer.old)
        (W.contents writer.new)) }
    ensures memory { result ≡ Err ToolFault.NoMemory → Keeps (W.contents writer.old) (W.contents writer.new) }
    ensures asks { result ≡ Err ToolFault.NoMemory → 8 ≤ length bytes.now }
    ensures never_reads { result ≢ Err ToolFault.Read }
{
    let Ok(found) = find(alloc, bytes, reverse) else {
        return Err(ToolFault::NoMemory);
    };
    match write_records(writer, &found) {
        Ok(()) => Ok(()),
        Err(_) => Err(ToolFault::Write),
    }
}

// The records, each with its place, in the order in which they are shown.
fn find(alloc: Global, bytes: &[u8], reverse: bool) -> Result<Vec<(usize, Record)>, AllocError>
    ensures found { IfOk result (λ found. AreFound reverse (words_of bytes.now) found.items) }
    ensures memory { OnErr result (8 ≤ length bytes.now) }
{
    if !reverse {
        return Ok(walk(alloc, bytes)?.records);
    }
    let end_place = text_len(&words_in(alloc, bytes)?);
    walk_back(alloc, bytes, end_place)
}
