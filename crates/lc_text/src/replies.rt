//! The texts of the replies.
ghost use Rattle.std.specs.Prelude.{◌≡◌, OnOk};
ghost use Rattle.std.specs.Io.KnownBytes.{Appends};
ghost use Rattle.lc_text.specs.Text.{bytes_text, refusal_text, refusal_words, reply_text};

use crate::hex::write_hex;
use crate::text::write_line;
use lc_model::{Refusal, Reply};
use std::io;

/// Writes the answer to one event.
pub fn write_reply<W: io::Write>(writer: &mut W, reply: &Reply) -> io::Result<()>
    ensures { OnOk result (Appends (W.contents writer.old) (W.contents writer.new) (reply_text reply.now)) }
{
    match reply {
        Reply::Ok => write_line(writer, b"ok", &[]),
        Reply::Bytes(bytes) => write_bytes(writer, bytes.as_slice()),
        Reply::Reserved { place, words } => write_line(
            writer,
            b"reserved",
            &[u64::from(*place), u64::from(*words)],
        ),
        Reply::Ended => write_line(writer, b"ended", &[]),
        Reply::Stepped(step) => write_line(writer, b"step", &[*step]),
        Reply::Acked(count) => write_line(writer, b"acked", &[*count]),
        Reply::Nothing => write_line(writer, b"nothing", &[]),
        Reply::Applied(seq) => write_line(writer, b"applied", &[*seq]),
        Reply::HeldBack => write_line(writer, b"held back", &[]),
        Reply::Ignored => write_line(writer, b"ignored", &[]),
        Reply::Trimmed(count) => write_line(writer, b"trimmed", &[*count]),
        Reply::Written(number) => write_line(writer, b"written", &[*number]),
        Reply::Reset => write_line(writer, b"reset", &[]),
        Reply::Down => write_line(writer, b"down", &[]),
        Reply::Recovered => write_line(writer, b"recovered", &[]),
        Reply::Refused(refusal) => write_refusal(writer, refusal),
    }
}

/// Writes the bytes that were read.
fn write_bytes<W: io::Write>(writer: &mut W, bytes: &[u8]) -> io::Result<()>
    ensures { OnOk result (Appends (W.contents writer.old) (W.contents writer.new) (bytes_text bytes.now)) }
{
    if bytes.is_empty() {
        return write_line(writer, b"bytes", &[]);
    }
    writer.write_all(b"bytes ")?;
    write_hex(writer, bytes)?;
    writer.write_all(b"\n")
}

/// Writes why something is refused.
fn write_refusal<W: io::Write>(writer: &mut W, refusal: &Refusal) -> io::Result<()>
    ensures { OnOk result (Appends (W.contents writer.old) (W.contents writer.new) (refusal_text refusal.now)) }
{
    let words = refusal_words(refusal);
    match refusal {
        Refusal::Busy { segment: number }
        | Refusal::NotHere { segment: number }
        | Refusal::OutOfSegment { area: Some(number) }
        | Refusal::SequenceSpent { segment: number }
        | Refusal::TooLong { words: number }
        | Refusal::BadGeometry { area: number }
        | Refusal::ReadOnly { segment: number } => write_line(writer, words, &[u64::from(*number)]),
        Refusal::Full { tail, need } => write_line(
            writer,
            words,
            &[u64::from(*tail), u64::from(*need)],
        ),
        Refusal::Behind { applied, seq } => write_line(writer, words, &[*applied, *seq]),
        Refusal::Unclean { segment, seq }
        | Refusal::Twice { segment, seq }
        | Refusal::Gap { segment, seq } => write_line(writer, words, &[u64::from(*segment), *seq]),
        _ => write_line(writer, words, &[]),
    }
}

/// What is said of a refusal in front of its numbers.
fn refusal_words(refusal: &Refusal) -> &'static [u8]
    ensures { result.now ≡ refusal_words refusal.now }
{
    match refusal {
        Refusal::Down => b"refused Down",
        Refusal::Unknown => b"refused Unknown",
        Refusal::Halted => b"refused Halted",
        Refusal::OutOfTurn => b"refused OutOfTurn",
        Refusal::Busy { .. } => b"refused Busy",
        Refusal::NotHere { .. } => b"refused NotHere",
        Refusal::NotLocked => b"refused NotLocked",
        Refusal::EmptyRange => b"refused EmptyRange",
        Refusal::OutOfSegment { .. } => b"refused OutOfSegment",
        Refusal::NoRange => b"refused NoRange",
        Refusal::TooManyRanges => b"refused TooManyRanges",
        Refusal::SequenceSpent { .. } => b"refused SequenceSpent",
        Refusal::TooLong { .. } => b"refused TooLong",
        Refusal::Sealed => b"refused Sealed",
        Refusal::Full { .. } => b"refused Full",
        Refusal::Held => b"refused Held",
        Refusal::Writing => b"refused Writing",
        Refusal::Unflushed => b"refused Unflushed",
        Refusal::Behind { .. } => b"refused Behind",
        Refusal::Uncommitted => b"refused Uncommitted",
        Refusal::NotNewer => b"refused NotNewer",
        Refusal::Unclean { .. } => b"refused Unclean",
        Refusal::RoundsSpent => b"refused RoundsSpent",
        Refusal::DeviceFault => b"device fault",
        Refusal::BadGeometry { .. } => b"refused BadGeometry",
        Refusal::Twice { .. } => b"refused Twice",
        Refusal::Gap { .. } => b"refused Gap",
        Refusal::ReadOnly { .. } => b"refused ReadOnly",
    }
}
