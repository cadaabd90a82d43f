//! The picture of a store.
ghost use Rattle.std.specs.Prelude.{flat_map, OnOk};
ghost use Rattle.std.specs.Io.KnownBytes.{Appends};
ghost use Rattle.lc_look.specs.Picture.{bars_text, closings_text, fields_begin_text, fields_text, head_text};
ghost use Rattle.lc_look.specs.Picture.{drawn_logs, picture_text, segments_text};

use crate::layout::{field_height, fields_top, picture_height};
use crate::log_bar::{LogBar, write_bar};
use crate::segment_field::{SegmentField, write_field};
use crate::style::STYLE;
use lc_record::Geometry;
use std::io;

/// A store as it is drawn.
#[derive(Drop)]
pub struct StorePicture {
    /// How many there are of each thing.
    pub geometry: Geometry,
    /// The logs of its nodes.
    pub bars: Vec<LogBar>,
    /// Its segments.
    pub fields: Vec<SegmentField>,
}

/// Writes the picture of a store, as SVG. Each log is a bar of its records, in which each segment has a lane, and after
/// them of what was written and of what is free. Each segment is a field of its pages, 64 in a row, with the slot that
/// counts and whether some record is newer.
pub fn write_picture<W: io::Write>(writer: &mut W, picture: &StorePicture) -> io::Result<()>
    ensures { OnOk result (Appends (W.contents writer.old) (W.contents writer.new) (picture_text picture.now)) }
{
    write_logs(writer, &picture.geometry, picture.bars.as_slice())?;
    write_segments(writer, &picture.geometry, picture.fields.as_slice())
}

// The colours and the legend, and the logs below them.
#[tactic(auto, unfolding(crate::specs::Picture::drawn_logs))]
fn write_logs<W: io::Write>(writer: &mut W, geometry: &Geometry, bars: &[LogBar]) -> io::Result<()>
    ensures { OnOk result (Appends (W.contents writer.old) (W.contents writer.new) (drawn_logs geometry.now bars.now)) }
{
    write_head(writer, picture_height(geometry))?;
    writer.write_all(STYLE.as_bytes())?;
    write_bars(writer, geometry, bars)
}

// The segments, each below the one before.
#[tactic(auto, unfolding(crate::specs::Picture::segments_text))]
fn write_segments<W: io::Write>(
    writer: &mut W,
    geometry: &Geometry,
    fields: &[SegmentField],
) -> io::Result<()>
    ensures { OnOk result (Appends (W.contents writer.old) (W.contents writer.new)
        (segments_text geometry.now fields.now)) }
{
    write_fields_begin(writer, fields_top(geometry))?;
    write_fields(writer, field_height(geometry), fields)?;
    write_closings(writer, fields)?;
    writer.write_all(b"</g>\n</svg>\n")
}

fn write_head<W: io::Write>(writer: &mut W, height: u32) -> io::Result<()>
    ensures { OnOk result (Appends (W.contents writer.old) (W.contents writer.new) (head_text height)) }
{
    write!(
        writer,
        "<svg xmlns='http://www.w3.org/2000/svg' width='1000' height='{height}' viewBox='0 0 1000 {height}'>\n"
    )
}

fn write_bars<W: io::Write>(writer: &mut W, geometry: &Geometry, bars: &[LogBar]) -> io::Result<()>
    ensures { OnOk result (Appends (W.contents writer.old) (W.contents writer.new) (bars_text geometry.now bars.now)) }
{
    for bar in bars {
        write_bar(writer, geometry, bar)?;
    }
    Ok(())
}

fn write_fields_begin<W: io::Write>(writer: &mut W, top: u32) -> io::Result<()>
    ensures { OnOk result (Appends (W.contents writer.old) (W.contents writer.new) (fields_begin_text top)) }
{
    write!(writer, "<g transform='translate(20 {top})'>\n")
}

fn write_fields<W: io::Write>(
    writer: &mut W,
    height: u32,
    fields: &[SegmentField],
) -> io::Result<()>
    ensures { OnOk result (Appends (W.contents writer.old) (W.contents writer.new) (fields_text height fields.now)) }
{
    for field in fields {
        write_field(writer, field, height)?;
    }
    Ok(())
}

// Each field began what stands below it.
fn write_closings<W: io::Write>(writer: &mut W, fields: &[SegmentField]) -> io::Result<()>
    ensures { OnOk result (Appends (W.contents writer.old) (W.contents writer.new) (closings_text fields.now)) }
{
    for _ in fields {
        writer.write_all(b"</g>\n")?;
    }
    Ok(())
}
