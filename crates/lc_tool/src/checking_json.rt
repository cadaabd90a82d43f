//! The check of a store in a folder, as JSON.
ghost use Rattle.std.specs.Prelude.{◌≡◌, IfOk, OnOk};
ghost use Rattle.std.specs.Io.KnownBytes.{Appends};
ghost use Rattle.lc_look.specs.Json.{EndsJson};
ghost use Rattle.lc_look.specs.Printed.{Adds};
ghost use Rattle.lc_tool.specs.CheckedJson.{TellsCheck, TellsJson, TellsUnlooked, folder_fault, found_json};
ghost use Rattle.lc_tool.specs.CheckedJson.{misfit_json, opening_fault, size_json, unlooked_json, unsized_json};

use crate::WriteFault;
use crate::looking::{check_store, taken_of};
use crate::store_report::StoreReport;
use lc_files::{FolderFault, Look, Misfit, SharedFile, StoreFolder, Unopened};
use lc_look::{check_areas_json, ended, refuse_json};
use lc_record::Geometry;
use lc_recover::RecoverFault;
use lc_words::Size;
use std::alloc::Global;
use std::io::{self, Write};
use std::rt::Files;

/// Prints what `check_store` finds, as one JSON object on one line, and answers the same status. The object is whole
/// whatever is found, and has the same keys in the same order: `size`, `misfit`, `logs`, `segments`, `refused` and
/// `ok`. What failed, and why, is said on standard error. An `Err` is a fault of the writer.
pub fn check_store_json<R: Files + Eprint, W: Write>(
    alloc: Global,
    rt: &R,
    folder: &str,
    size: &Size,
    writer: &mut W,
) -> Result<u8, WriteFault>
where
    R::File: SharedFile,
    ensures tells { IfOk result (λ status.
        Adds (TellsJson size.now) (W.contents writer.old) (W.contents writer.new) status) }
{
    let folder = StoreFolder::new(alloc, rt, folder);
    let ended = look(alloc, &folder, size, writer);
    folder.tell();
    ended
}

/// A check, in lines or as JSON.
pub(crate) fn check_asked<R: Files + Eprint, W: Write>(
    alloc: Global,
    rt: &R,
    folder: &str,
    size: &Size,
    json: bool,
    writer: &mut W,
) -> Result<u8, WriteFault>
where
    R::File: SharedFile,
    ensures tells { IfOk result (λ status.
        Adds (TellsCheck json size.now) (W.contents writer.old) (W.contents writer.new) status) }
{
    if json {
        check_store_json(alloc, rt, folder, size, writer)
    } else {
        check_store(alloc, rt, folder, size, writer)
    }
}

// The same, but for what is said on standard error.
fn look<R: Files, W: Write>(
    alloc: Global,
    folder: &StoreFolder<&R, &str>,
    size: &Size,
    writer: &mut W,
) -> Result<u8, WriteFault>
where
    R::File: SharedFile,
    ensures tells { IfOk result (λ status.
        Adds (TellsJson size.now) (W.contents writer.old) (W.contents writer.new) status) }
{
    match folder.look() {
        Ok(look) => {
            let Look {
                found,
                guard: _guard,
            } = look;
            show(alloc, folder, size, &found, writer)
        }
        Err(fault) => tell_unlooked(writer, fault),
    }
}

// The object of a folder that could not be looked at.
fn tell_unlooked<W: Write>(writer: &mut W, fault: FolderFault) -> Result<u8, WriteFault>
    ensures tells { IfOk result (λ status. Adds TellsUnlooked (W.contents writer.old) (W.contents writer.new) status) }
{
    write_unlooked(writer)?;
    refuse_json(writer, folder_fault(fault))
}

// The object of a store whose files tell this size, or do not fit together so.
fn show<R: Files, W: Write>(
    alloc: Global,
    folder: &StoreFolder<&R, &str>,
    size: &Size,
    found: &Result<Geometry, Misfit>,
    writer: &mut W,
) -> Result<u8, WriteFault>
where
    R::File: SharedFile,
    ensures tells { IfOk result (λ status.
        Adds (TellsJson size.now) (W.contents writer.old) (W.contents writer.new) status) }
{
    write_found(writer, found)?;
    match taken_of(StoreReport::Check(*size), found) {
        Ok(geometry) => show_files(alloc, folder, &geometry, writer),
        Err(status) => ended(write_unsized(writer), status),
    }
}

// The rest of the object of a store of this size.
fn show_files<R: Files, W: Write>(
    alloc: Global,
    folder: &StoreFolder<&R, &str>,
    geometry: &Geometry,
    writer: &mut W,
) -> Result<u8, WriteFault>
where
    R::File: SharedFile,
    ensures tells { IfOk result (λ status.
        Adds (EndsJson geometry.now) (W.contents writer.old) (W.contents writer.new) status) }
{
    match folder.areas_to_read(geometry) {
        Ok(mut areas) => check_areas_json(alloc, geometry, areas.as_mut_slice(), writer),
        Err(fault) => refuse_json(writer, opening_fault(fault)),
    }
}

// What is said of a fault of the folder.
fn folder_fault(fault: FolderFault) -> RecoverFault
    ensures { result ≡ folder_fault fault }
{
    match fault {
        FolderFault::Failed => RecoverFault::DeviceFault,
        FolderFault::NoMemory => RecoverFault::NoMemory,
    }
}

// Why a store is not opened.
fn opening_fault(fault: Unopened) -> RecoverFault
    ensures { result ≡ opening_fault fault }
{
    match fault {
        Unopened::Folder(fault) => folder_fault(fault),
        Unopened::OtherSize { area } => RecoverFault::BadGeometry { area },
    }
}

// Writes the front of the object where the folder could not be looked at.
fn write_unlooked<W: Write>(writer: &mut W) -> io::Result<()>
    ensures { OnOk result (Appends (W.contents writer.old) (W.contents writer.new) unlooked_json) }
{
    writer.write_all(b"{\"size\":null,\"misfit\":null,")
}

// Writes the rest of the object of a store of no size.
fn write_unsized<W: Write>(writer: &mut W) -> io::Result<()>
    ensures { OnOk result (Appends (W.contents writer.old) (W.contents writer.new) unsized_json) }
{
    writer.write_all(b"\"logs\":[],\"segments\":[],\"refused\":null,\"ok\":false}\n")
}

// Writes the front of the object: the size that files tell, or what does not fit.
fn write_found<W: Write>(writer: &mut W, found: &Result<Geometry, Misfit>) -> io::Result<()>
    ensures { OnOk result (Appends (W.contents writer.old) (W.contents writer.new) (found_json found.now)) }
{
    match found {
        Ok(geometry) => write_size(writer, geometry),
        Err(misfit) => write_misfit(writer, *misfit),
    }
}

fn write_size<W: Write>(writer: &mut W, geometry: &Geometry) -> io::Result<()>
    ensures { OnOk result (Appends (W.contents writer.old) (W.contents writer.new) (size_json geometry.now)) }
{
    let nodes = geometry.nodes;
    let segments = geometry.segments;
    let pages = geometry.pages;
    let words = geometry.words;
    write!(
        writer,
        "{{\"size\":{{\"nodes\":{nodes},\"segments\":{segments},\"pages\":{pages},\"words\":{words}}},\"misfit\":null,"
    )
}

fn write_misfit<W: Write>(writer: &mut W, misfit: Misfit) -> io::Result<()>
    ensures { OnOk result (Appends (W.contents writer.old) (W.contents writer.new) (misfit_json misfit)) }
{
    match misfit {
        Misfit::Missing(name) => write!(
            writer,
            "{{\"size\":null,\"misfit\":{{\"file\":\"{name}\",\"why\":\"is missing\"}},"
        ),
        Misfit::NoLen(name) => write!(
            writer,
            "{{\"size\":null,\"misfit\":{{\"file\":\"{name}\",\"why\":\"has a length of no store\"}},"
        ),
        Misfit::OtherLen(name) => write!(
            writer,
            "{{\"size\":null,\"misfit\":{{\"file\":\"{name}\",\"why\":\"has another length than the first\"}},"
        ),
    }
}
