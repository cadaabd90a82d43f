//! What is shown of a store in a folder, with nothing changed.
ghost use Rattle.std.specs.Prelude.{◌≡◌, IfErr, IfOk, OnOk};
ghost use Rattle.std.specs.Io.KnownBytes.{Appends};
ghost use Rattle.lc_look.specs.Printed.{Adds};
ghost use Rattle.lc_tool.specs.Found.{TellsChecked, TellsDrawn, TellsDumped, size_text};
ghost use Rattle.lc_tool.specs.StoreReport.{HasNoSize, ShowsView, TakesSize, TellsView, front_text};

use crate::WriteFault;
use crate::making::{not_opened, stopped};
use crate::store_report::StoreReport;
use lc_disk::Area;
use lc_files::{Look, Misfit, SharedFile, StoreFolder, write_misfit};
use lc_look::{NOT_UNDERSTOOD, REFUSED, check_areas, draw_areas, dump_areas};
use lc_record::Geometry;
use lc_words::Size;
use std::alloc::Global;
use std::io::{self, Write};
use std::rt::Files;

/// Prints the size that the files of a folder tell, or what of them does not fit together, and then what a recovery of
/// the store would say, as `check_areas` over the areas of its files. The folder's lock is taken beside others that
/// take it so; no file is made, written or synced. Where the files do not fit together and no size is given the status
/// is 1. A store that cannot be looked at gives `device fault` and the status 3. What failed, and why, is said on
/// standard error.
pub fn check_store<R: Files + Eprint, W: Write>(
    alloc: Global,
    rt: &R,
    folder: &str,
    size: &Size,
    writer: &mut W,
) -> Result<u8, WriteFault>
where
    R::File: SharedFile,
    ensures tells { IfOk result (λ status.
        Adds (TellsChecked size.now) (W.contents writer.old) (W.contents writer.new) status) }
{
    look_at(alloc, rt, folder, StoreReport::Check(*size), writer)
}

/// Prints a page of the store in a folder as it would be after a recovery, and its two slots as they are, as
/// `dump_areas` over the areas of its files, which tell its size. The folder's lock is taken beside others that take it
/// so; no file is made, written or synced. Where the files do not fit together the status is 1. A store that cannot be
/// looked at gives `device fault` and the status 3. What failed, and why, is said on standard error.
pub fn dump_page<R: Files + Eprint, W: Write>(
    alloc: Global,
    rt: &R,
    folder: &str,
    segment: u32,
    page: u32,
    writer: &mut W,
) -> Result<u8, WriteFault>
where
    R::File: SharedFile,
    ensures tells { IfOk result (λ status.
        Adds (TellsDumped segment page) (W.contents writer.old) (W.contents writer.new) status) }
{
    look_at(
        alloc,
        rt,
        folder,
        StoreReport::Dump { segment, page },
        writer,
    )
}

/// Prints the picture of the store in a folder, as `draw_areas` over the areas of its files, which tell its size. The
/// folder's lock is taken beside others that take it so; no file is made, written or synced. Where the files do not fit
/// together the status is 1. A store that cannot be looked at gives `device fault` and the status 3. What failed, and
/// why, is said on standard error.
pub fn draw_store<R: Files + Eprint, W: Write>(
    alloc: Global,
    rt: &R,
    folder: &str,
    writer: &mut W,
) -> Result<u8, WriteFault>
where
    R::File: SharedFile,
    ensures tells { IfOk result (λ status. Adds TellsDrawn (W.contents writer.old) (W.contents writer.new) status) }
{
    look_at(alloc, rt, folder, StoreReport::Draw, writer)
}

// Shows the view of the store in a folder, and says on standard error what failed.
fn look_at<R: Files + Eprint, W: Write>(
    alloc: Global,
    rt: &R,
    folder: &str,
    view: StoreReport,
    writer: &mut W,
) -> Result<u8, WriteFault>
where
    R::File: SharedFile,
    ensures tells { IfOk result (λ status.
        Adds (TellsView view) (W.contents writer.old) (W.contents writer.new) status) }
{
    let folder = StoreFolder::new(alloc, rt, folder);
    let ended = look_in(alloc, &folder, view, writer);
    folder.tell();
    ended
}

// The same, but for what is said on standard error.
fn look_in<R: Files, W: Write>(
    alloc: Global,
    folder: &StoreFolder<&R, &str>,
    view: StoreReport,
    writer: &mut W,
) -> Result<u8, WriteFault>
where
    R::File: SharedFile,
    ensures tells { IfOk result (λ status.
        Adds (TellsView view) (W.contents writer.old) (W.contents writer.new) status) }
{
    match folder.look() {
        Ok(look) => {
            let Look {
                found,
                guard: _guard,
            } = look;
            show_store(alloc, folder, view, found, writer)
        }
        Err(fault) => stopped(writer, fault),
    }
}

// The view of a store whose files tell this size, or do not fit together so.
fn show_store<R: Files, W: Write>(
    alloc: Global,
    folder: &StoreFolder<&R, &str>,
    view: StoreReport,
    found: Result<Geometry, Misfit>,
    writer: &mut W,
) -> Result<u8, WriteFault>
where
    R::File: SharedFile,
    ensures tells { IfOk result (λ status.
        Adds (TellsView view) (W.contents writer.old) (W.contents writer.new) status) }
{
    write_front(writer, view, &found)?;
    match taken_of(view, &found) {
        Ok(geometry) => show_files(alloc, folder, view, &geometry, writer),
        Err(status) => Ok(status),
    }
}

// Writes what does not fit, or, in front of a check, the size that files tell.
fn write_front<W: Write>(
    writer: &mut W,
    view: StoreReport,
    found: &Result<Geometry, Misfit>,
) -> io::Result<()>
    ensures { OnOk result (Appends (W.contents writer.old) (W.contents writer.new) (front_text found.now view)) }
{
    match found {
        Ok(geometry) => match view {
            StoreReport::Check(_) => write_size(writer, geometry),
            StoreReport::Dump { .. } | StoreReport::Draw => Ok(()),
        },
        Err(misfit) => write_misfit(writer, *misfit),
    }
}

// Writes how many there are of each thing that files tell.
fn write_size<W: Write>(writer: &mut W, geometry: &Geometry) -> io::Result<()>
    ensures { OnOk result (Appends (W.contents writer.old) (W.contents writer.new) (size_text geometry.now)) }
{
    let nodes = geometry.nodes;
    let segments = geometry.segments;
    let pages = geometry.pages;
    let words = geometry.words;
    write!(
        writer,
        "nodes {nodes} segments {segments} pages {pages} words {words}\n"
    )
}

// The size that a store is taken to have whose files tell this, or the status where it is of none.
pub(crate) fn taken_of(view: StoreReport, found: &Result<Geometry, Misfit>) -> Result<Geometry, u8>
    ensures taken { IfOk result (TakesSize view found.now) }
    ensures none { IfErr result (HasNoSize view found.now) }
{
    match view {
        StoreReport::Check(Size::Given(geometry)) => Ok(geometry),
        StoreReport::Check(Size::AsFound(wanted)) => match found {
            Ok(found) => match wanted.over(found) {
                Some(geometry) => Ok(geometry),
                None => Err(NOT_UNDERSTOOD),
            },
            Err(_) => Err(REFUSED),
        },
        StoreReport::Dump { .. } | StoreReport::Draw => match found {
            Ok(geometry) => Ok(*geometry),
            Err(_) => Err(REFUSED),
        },
    }
}

// The view of the files of a store of this size.
fn show_files<R: Files, W: Write>(
    alloc: Global,
    folder: &StoreFolder<&R, &str>,
    view: StoreReport,
    geometry: &Geometry,
    writer: &mut W,
) -> Result<u8, WriteFault>
where
    R::File: SharedFile,
    ensures tells { IfOk result (λ status.
        Adds (ShowsView view geometry.now) (W.contents writer.old) (W.contents writer.new) status) }
{
    match folder.areas_to_read(geometry) {
        Ok(mut areas) => show_areas(alloc, view, geometry, areas.as_mut_slice(), writer),
        Err(fault) => not_opened(writer, fault),
    }
}

// The view of these areas.
fn show_areas<D: Area, W: Write>(
    alloc: Global,
    view: StoreReport,
    geometry: &Geometry,
    areas: &mut [D],
    writer: &mut W,
) -> Result<u8, WriteFault>
    ensures tells { IfOk result (λ status.
        Adds (ShowsView view geometry.now) (W.contents writer.old) (W.contents writer.new) status) }
{
    match view {
        StoreReport::Check(_) => check_areas(alloc, geometry, areas, writer),
        StoreReport::Dump { segment, page } => dump_areas(
            alloc, geometry, areas, segment, page, writer,
        ),
        StoreReport::Draw => draw_areas(alloc, geometry, areas, writer),
    }
}
