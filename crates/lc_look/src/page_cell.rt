//! A page as a cell.
ghost use Rattle.std.specs.Prelude.{◌≡◌, OnOk};
ghost use Rattle.std.specs.Io.KnownBytes.{Appends};
ghost use Rattle.lc_look.specs.Picture.{behind_class, behind_words, cell_head_text, cell_text, cell_title_text};
ghost use Rattle.lc_look.specs.Picture.{slot_class, slot_words};

use crate::layout::{cell_left, cell_top};
use lc_page::Slot;
use std::io;

/// A page as it is drawn.
#[derive(Clone, Copy)]
pub struct PageCell {
    /// Which page of its segment it is, from 0.
    pub page: u32,
    /// The slot that counts, or None where the page was never written.
    pub slot: Option<Slot>,
    /// The number under which it was written, 0 where it never was.
    pub sequence: u64,
    /// Whether some record is newer.
    pub is_behind: bool,
}

/// Writes the cell of a page.
#[tactic(auto, unfolding(crate::specs::Picture::cell_text))]
pub(crate) fn write_cell<W: io::Write>(writer: &mut W, cell: &PageCell) -> io::Result<()>
    ensures { OnOk result (Appends (W.contents writer.old) (W.contents writer.new) (cell_text cell.now)) }
{
    write_cell_head(
        writer,
        slot_class(cell.slot),
        behind_class(cell.is_behind),
        cell_left(cell.page),
        cell_top(cell.page),
    )?;
    write_cell_title(
        writer,
        cell.page,
        slot_words(cell.slot),
        cell.sequence,
        behind_words(cell.is_behind),
    )
}

fn write_cell_head<W: io::Write>(
    writer: &mut W,
    slot: &str,
    behind: &str,
    left: u32,
    top: u32,
) -> io::Result<()>
    ensures { OnOk result (Appends (W.contents writer.old) (W.contents writer.new)
        (cell_head_text slot.now behind.now left top)) }
{
    write!(
        writer,
        "<rect class='{slot}{behind}' x='{left}' y='{top}' width='13' height='13'>"
    )
}

fn write_cell_title<W: io::Write>(
    writer: &mut W,
    page: u32,
    slot: &str,
    number: u64,
    behind: &str,
) -> io::Result<()>
    ensures { OnOk result (Appends (W.contents writer.old) (W.contents writer.new)
        (cell_title_text page slot.now number behind.now)) }
{
    write!(
        writer,
        "<title>page {page}: {slot}, number {number}{behind}</title></rect>\n"
    )
}

fn slot_class(slot: Option<Slot>) -> &'static str
    ensures { result.now ≡ slot_class slot }
{
    match slot {
        None => "none",
        Some(Slot::First) => "first",
        Some(Slot::Second) => "second",
    }
}

fn slot_words(slot: Option<Slot>) -> &'static str
    ensures { result.now ≡ slot_words slot }
{
    match slot {
        None => "never written",
        Some(Slot::First) => "first slot",
        Some(Slot::Second) => "second slot",
    }
}

fn behind_class(is_behind: bool) -> &'static str
    ensures { result.now ≡ behind_class is_behind }
{
    if is_behind { " behind" } else { "" }
}

fn behind_words(is_behind: bool) -> &'static str
    ensures { result.now ≡ behind_words is_behind }
{
    if is_behind {
        ", behind its records"
    } else {
        ""
    }
}
