//! A segment as a field of pages.
ghost use Rattle.std.specs.Prelude.{flat_map, OnOk};
ghost use Rattle.std.specs.Io.KnownBytes.{Appends};
ghost use Rattle.lc_look.specs.Picture.{cells_text, field_head_text, field_text, next_field_text};

use crate::page_cell::{PageCell, write_cell};
use std::io;

/// A segment as it is drawn.
#[derive(Drop)]
pub struct SegmentField {
    /// Its number, from 1.
    pub segment: u32,
    /// The number that it has after a recovery.
    pub sequence: u64,
    /// Its pages.
    pub cells: Vec<PageCell>,
}

/// Writes the field of a segment, and begins what stands below it, so many pixels further down.
#[tactic(auto, unfolding(crate::specs::Picture::field_text))]
pub(crate) fn write_field<W: io::Write>(
    writer: &mut W,
    field: &SegmentField,
    height: u32,
) -> io::Result<()>
    ensures { OnOk result (Appends (W.contents writer.old) (W.contents writer.new) (field_text height field.now)) }
{
    write_field_head(writer, field.segment, field.sequence)?;
    write_cells(writer, field.cells.as_slice())?;
    write_next_field(writer, height)
}

// Its colour, its number and what it has come to.
fn write_field_head<W: io::Write>(writer: &mut W, segment: u32, sequence: u64) -> io::Result<()>
    ensures { OnOk result (Appends (W.contents writer.old) (W.contents writer.new) (field_head_text segment sequence)) }
{
    write!(
        writer,
        "<rect class='s{segment}' width='13' height='13'/><text x='22' y='12'>segment {segment}: number {sequence}</text>\n<g transform='translate(0 20)'>\n"
    )
}

fn write_cells<W: io::Write>(writer: &mut W, cells: &[PageCell]) -> io::Result<()>
    ensures { OnOk result (Appends (W.contents writer.old) (W.contents writer.new) (cells_text cells.now)) }
{
    for cell in cells {
        write_cell(writer, cell)?;
    }
    Ok(())
}

// The pages are over, and what comes stands further down.
fn write_next_field<W: io::Write>(writer: &mut W, height: u32) -> io::Result<()>
    ensures { OnOk result (Appends (W.contents writer.old) (W.contents writer.new) (next_field_text height)) }
{
    write!(writer, "</g>\n<g transform='translate(0 {height})'>\n")
}
