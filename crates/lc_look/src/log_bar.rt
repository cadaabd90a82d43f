//! A log as a bar of records.
ghost use Rattle.std.specs.Prelude.{flat_map, OnOk};
ghost use Rattle.std.specs.Io.KnownBytes.{Appends};
ghost use Rattle.lc_look.specs.Picture.{bar_frame_text, bar_head_text, bar_label_text, bar_place_text};
ghost use Rattle.lc_look.specs.Picture.{bar_trailing_text, bar_text, edge_text, lane_text, lanes_text};
ghost use Rattle.lc_look.specs.Picture.{record_end_text, record_head_text, record_in_bar, records_in_bar};

use crate::layout::log_top;
use lc_record::{Geometry, Lock, Record, encoded_words};
use lc_text::write_record;
use std::io;

/// A log as it is drawn.
#[derive(Drop)]
pub struct LogBar {
    /// The node whose log it is, from 0.
    pub node: u16,
    /// Its records, each with its place, in words.
    pub records: Vec<(usize, Record)>,
    /// Where they end, in words.
    pub end: usize,
    /// How many words after them were written, up to the last that is not zero: no record reads them.
    pub trailing: usize,
}

/// Writes the bar of a log.
#[tactic(auto, unfolding(crate::specs::Picture::bar_text))]
pub(crate) fn write_bar<W: io::Write>(
    writer: &mut W,
    geometry: &Geometry,
    bar: &LogBar,
) -> io::Result<()>
    ensures { OnOk result (Appends (W.contents writer.old) (W.contents writer.new) (bar_text geometry.now bar.now)) }
{
    write_bar_head(writer, geometry, bar)?;
    write_records_in_bar(writer, geometry.segments, bar.records.as_slice())?;
    writer.write_all(b"</svg>\n</g>\n")
}

// What the log has, and the room after its records. A lane of the bar is a segment.
fn write_bar_head<W: io::Write>(writer: &mut W, geometry: &Geometry, bar: &LogBar) -> io::Result<()>
    ensures { OnOk result (Appends (W.contents writer.old) (W.contents writer.new)
        (bar_head_text geometry.now bar.now)) }
{
    write_bar_place(writer, log_top(bar.node))?;
    write_bar_label(
        writer,
        bar.node,
        bar.records.len(),
        bar.end,
        geometry.words,
        bar.trailing,
    )?;
    write_bar_frame(writer, geometry.words, geometry.segments)?;
    write_bar_trailing(writer, bar.end, bar.trailing, geometry.segments)
}

fn write_bar_place<W: io::Write>(writer: &mut W, top: u32) -> io::Result<()>
    ensures { OnOk result (Appends (W.contents writer.old) (W.contents writer.new) (bar_place_text top)) }
{
    write!(writer, "<g transform='translate(20 {top})'>\n")
}

fn write_bar_label<W: io::Write>(
    writer: &mut W,
    node: u16,
    count: usize,
    end: usize,
    words: u32,
    trailing: usize,
) -> io::Result<()>
    ensures { OnOk result (Appends (W.contents writer.old) (W.contents writer.new)
        (bar_label_text node count end words trailing)) }
{
    write!(
        writer,
        "<text y='12'>log {node}: {count} records in {end} of {words} words, {trailing} written behind them</text>\n"
    )
}

fn write_bar_frame<W: io::Write>(writer: &mut W, words: u32, lanes: u32) -> io::Result<()>
    ensures { OnOk result (Appends (W.contents writer.old) (W.contents writer.new) (bar_frame_text words lanes)) }
{
    write!(
        writer,
        "<svg y='20' width='960' height='32' viewBox='0 1 {words} {lanes}' preserveAspectRatio='none'>\n<rect class='free' y='1' width='{words}' height='{lanes}'/>\n"
    )
}

fn write_bar_trailing<W: io::Write>(
    writer: &mut W,
    end: usize,
    trailing: usize,
    lanes: u32,
) -> io::Result<()>
    ensures { OnOk result (Appends (W.contents writer.old) (W.contents writer.new)
        (bar_trailing_text end trailing lanes)) }
{
    write!(
        writer,
        "<rect class='open' x='{end}' y='1' width='{trailing}' height='{lanes}'/>\n"
    )
}

fn write_records_in_bar<W: io::Write>(
    writer: &mut W,
    lanes: u32,
    records: &[(usize, Record)],
) -> io::Result<()>
    ensures { OnOk result (Appends (W.contents writer.old) (W.contents writer.new) (records_in_bar lanes records.now)) }
{
    for (place, record) in records {
        write_record_in_bar(writer, lanes, *place, record)?;
    }
    Ok(())
}

// A record, with the lanes of the segments that it locks.
#[tactic(auto, unfolding(crate::specs::Picture::record_in_bar))]
fn write_record_in_bar<W: io::Write>(
    writer: &mut W,
    lanes: u32,
    place: usize,
    record: &Record,
) -> io::Result<()>
    ensures { OnOk result (Appends (W.contents writer.old) (W.contents writer.new)
        (record_in_bar lanes place «record».now)) }
{
    let words = encoded_words(record);
    write_record_head(writer, place, record)?;
    write_record_end(writer, lanes, place, words)?;
    write_lanes(writer, place, words, record.locks.as_slice())?;
    write_edge(writer, lanes, place)
}

#[tactic(auto, unfolding(crate::specs::Picture::record_head_text))]
fn write_record_head<W: io::Write>(writer: &mut W, place: usize, record: &Record) -> io::Result<()>
    ensures { OnOk result (Appends (W.contents writer.old) (W.contents writer.new)
        (record_head_text place «record».now)) }
{
    writer.write_all(b"<g><title>")?;
    write_record(writer, place, record)
}

fn write_record_end<W: io::Write>(
    writer: &mut W,
    lanes: u32,
    place: usize,
    words: usize,
) -> io::Result<()>
    ensures { OnOk result (Appends (W.contents writer.old) (W.contents writer.new)
        (record_end_text lanes place words)) }
{
    write!(
        writer,
        "</title><rect class='stable' x='{place}' y='1' width='{words}' height='{lanes}'/>\n"
    )
}

// Where the record begins.
fn write_edge<W: io::Write>(writer: &mut W, lanes: u32, place: usize) -> io::Result<()>
    ensures { OnOk result (Appends (W.contents writer.old) (W.contents writer.new) (edge_text lanes place)) }
{
    write!(
        writer,
        "<rect class='edge' x='{place}' y='1' width='.15' height='{lanes}'/>\n</g>\n"
    )
}

fn write_lanes<W: io::Write>(
    writer: &mut W,
    place: usize,
    words: usize,
    locks: &[Lock],
) -> io::Result<()>
    ensures { OnOk result (Appends (W.contents writer.old) (W.contents writer.new) (lanes_text place words locks.now)) }
{
    for lock in locks {
        write_lane(writer, place, words, lock.segment)?;
    }
    Ok(())
}

fn write_lane<W: io::Write>(
    writer: &mut W,
    place: usize,
    words: usize,
    segment: u32,
) -> io::Result<()>
    ensures { OnOk result (Appends (W.contents writer.old) (W.contents writer.new) (lane_text place words segment)) }
{
    write!(
        writer,
        "<rect class='s{segment}' x='{place}' y='{segment}' width='{words}' height='1'/>\n"
    )
}
