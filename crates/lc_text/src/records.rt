//! The texts of records.
ghost use Rattle.std.specs.Prelude.{◌++◌, flat_map, codes, OnOk};
ghost use Rattle.std.specs.List.{join_by};
ghost use Rattle.std.specs.Io.KnownBytes.{Appends};
ghost use Rattle.lc_text.specs.Text.{lock_text, range_text, record_text, records_text};

use lc_record::{Lock, RangeData, Record, encoded_words};
use std::io;

/// Writes a lock.
fn write_lock<W: io::Write>(writer: &mut W, lock: &Lock) -> io::Result<()>
    ensures { OnOk result (Appends (W.contents writer.old) (W.contents writer.new) (lock_text lock.now)) }
{
    let segment = lock.segment;
    let seq = lock.seq;
    write!(writer, "{segment}:{seq}")
}

/// Writes where a range is.
fn write_range<W: io::Write>(writer: &mut W, range: &RangeData) -> io::Result<()>
    ensures { OnOk result (Appends (W.contents writer.old) (W.contents writer.new) (range_text range.now)) }
{
    let segment = range.segment;
    let offset = range.offset;
    let len = range.bytes.as_slice().len();
    write!(writer, "{segment}:{offset}+{len}")
}

/// Writes locks after others.
fn write_more_locks<W: io::Write>(writer: &mut W, locks: &[Lock]) -> io::Result<()>
    ensures { OnOk result (Appends (W.contents writer.old) (W.contents writer.new)
        (flat_map (λ lock. codes "," ++ lock_text lock) locks.now)) }
{
    for lock in locks {
        writer.write_all(b",")?;
        write_lock(writer, lock)?;
    }
    Ok(())
}

/// Writes locks with commas between them.
fn write_locks<W: io::Write>(writer: &mut W, locks: &[Lock]) -> io::Result<()>
    ensures { OnOk result (Appends (W.contents writer.old) (W.contents writer.new)
        (join_by lock_text (codes ",") locks.now)) }
{
    let [first, later @ ..] = locks else {
        return Ok(());
    };
    write_lock(writer, first)?;
    write_more_locks(writer, later)
}

/// Writes ranges after others.
fn write_more_ranges<W: io::Write>(writer: &mut W, ranges: &[RangeData]) -> io::Result<()>
    ensures { OnOk result (Appends (W.contents writer.old) (W.contents writer.new)
        (flat_map (λ range. codes "," ++ range_text range) ranges.now)) }
{
    for range in ranges {
        writer.write_all(b",")?;
        write_range(writer, range)?;
    }
    Ok(())
}

/// Writes ranges with commas between them.
fn write_ranges<W: io::Write>(writer: &mut W, ranges: &[RangeData]) -> io::Result<()>
    ensures { OnOk result (Appends (W.contents writer.old) (W.contents writer.new)
        (join_by range_text (codes ",") ranges.now)) }
{
    let [first, later @ ..] = ranges else {
        return Ok(());
    };
    write_range(writer, first)?;
    write_more_ranges(writer, later)
}

/// Writes a record and its place in the log.
pub fn write_record<W: io::Write>(writer: &mut W, place: usize, record: &Record) -> io::Result<()>
    ensures { OnOk result (Appends (W.contents writer.old) (W.contents writer.new) (record_text place «record».now)) }
{
    let words = encoded_words(record);
    let node = record.node;
    write!(writer, "{place} {words} node {node} locks ")?;
    write_locks(writer, record.locks.as_slice())?;
    writer.write_all(b" ranges ")?;
    write_ranges(writer, record.ranges.as_slice())?;
    writer.write_all(b"\n")
}

/// Writes the records of a log.
pub fn write_records<W: io::Write>(writer: &mut W, records: &[(usize, Record)]) -> io::Result<()>
    ensures { OnOk result (Appends (W.contents writer.old) (W.contents writer.new) (records_text records.now)) }
{
    for (place, record) in records {
        write_record(writer, *place, record)?;
    }
    Ok(())
}
