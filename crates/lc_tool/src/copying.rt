//! Copies of a store.
ghost use Rattle.std.specs.Prelude.{IfErr, IfOk};
ghost use Rattle.lc_look.specs.Printed.{Adds};
ghost use Rattle.lc_tool.specs.Copied.{IsCopySize, IsNoCopySize, TellsCopied};

use crate::WriteFault;
use crate::making::{not_opened, stopped, told_of_making};
use crate::scripts::bad_geometry;
use crate::stores::tell_unmade;
use lc_core::World;
use lc_files::{
    CopyDirectory, Look, SharedFile, StoreFolder, first_lacking, make_store, write_misfit,
};
use lc_look::{NOT_UNDERSTOOD, REFUSED, ended};
use lc_record::Geometry;
use lc_recover::RecoverFault;
use lc_words::Wanted;
use std::alloc::Global;
use std::io::Write;
use std::rt::Files;

/// Why a copy is of no size.
#[derive(Clone, Copy, PartialEq, Eq)]
pub(crate) enum NoCopySize {
    /// The copy has no room for this area of the store.
    Lacking { area: u32 },
    /// A number is that of no store.
    NoStore,
}

/// Makes a copy of the store in a folder, in another folder: each of its files has the bytes of the file of its name
/// and then zeros, and is stable. A number of the size that is not wanted is that of the store; the copy may have more
/// segments, and more pages in each. The store is at rest: its folder is locked beside others that look at it, and
/// nothing of it changes.
///
/// It prints nothing, and the status is 0. Where the files of the store do not fit together the line says so, and the
/// status is 1. So it is where the copy would have no room for an area, or a file is not of the store's size: it prints
/// `refused BadGeometry` and the area. Where a name of a store is taken in the other folder it prints `refused Exists`.
/// A folder that fails, that another process has open, or that has the mark of a fault gives `device fault` and 3, and
/// what was made is taken away again. It says on standard error why. An `Err` is a fault of the writer.
pub fn copy_store<R: Files + Eprint, W: Write>(
    alloc: Global,
    rt: &R,
    folder: &str,
    to: &str,
    wanted: &Wanted,
    writer: &mut W,
) -> Result<u8, WriteFault>
where
    R::File: SharedFile,
    ensures tells { IfOk result (λ status. Adds TellsCopied (W.contents writer.old) (W.contents writer.new) status) }
{
    let store = StoreFolder::new(alloc, rt, folder);
    let copy = StoreFolder::new(alloc, rt, to);
    let ended = copy_in(&store, &copy, wanted, writer);
    store.tell();
    copy.tell();
    ended
}

// The same, but for what is said on standard error.
fn copy_in<R: Files + Eprint, W: Write>(
    store: &StoreFolder<&R, &str>,
    copy: &StoreFolder<&R, &str>,
    wanted: &Wanted,
    writer: &mut W,
) -> Result<u8, WriteFault>
where
    R::File: SharedFile,
    ensures tells { IfOk result (λ status. Adds TellsCopied (W.contents writer.old) (W.contents writer.new) status) }
{
    match store.look() {
        Ok(look) => {
            let Look {
                found,
                guard: _guard,
            } = look;
            match found {
                Ok(found) => copy_found(store, copy, &found, wanted, writer),
                Err(misfit) => ended(write_misfit(writer, misfit), REFUSED),
            }
        }
        Err(fault) => stopped(writer, fault),
    }
}

// Makes the copy of a store of this size.
fn copy_found<R: Files + Eprint, W: Write>(
    store: &StoreFolder<&R, &str>,
    copy: &StoreFolder<&R, &str>,
    found: &Geometry,
    wanted: &Wanted,
    writer: &mut W,
) -> Result<u8, WriteFault>
where
    R::File: SharedFile,
    ensures tells { IfOk result (λ status. Adds TellsCopied (W.contents writer.old) (W.contents writer.new) status) }
{
    match copy_size(found, wanted) {
        Ok(geometry) => copy_files(store, copy, found, &geometry, writer),
        Err(NoCopySize::Lacking { area }) => bad_geometry(writer, area),
        Err(NoCopySize::NoStore) => Ok(NOT_UNDERSTOOD),
    }
}

// The size of a copy: the numbers that are wanted over those that are found, where all of the store has room.
fn copy_size(found: &Geometry, wanted: &Wanted) -> Result<Geometry, NoCopySize>
    ensures size { IfOk result (IsCopySize found.now wanted.now) }
    ensures none { IfErr result (IsNoCopySize found.now wanted.now) }
{
    let Some(geometry) = wanted.over(found) else {
        return Err(NoCopySize::NoStore);
    };
    match first_lacking(found, &geometry) {
        Some(area) => Err(NoCopySize::Lacking { area }),
        None => Ok(geometry),
    }
}

// Makes the copy, of this size, of the files of a store.
fn copy_files<R: Files + Eprint, W: Write>(
    store: &StoreFolder<&R, &str>,
    copy: &StoreFolder<&R, &str>,
    found: &Geometry,
    geometry: &Geometry,
    writer: &mut W,
) -> Result<u8, WriteFault>
where
    R::File: SharedFile,
    ensures tells { IfOk result (λ status. Adds TellsCopied (W.contents writer.old) (W.contents writer.new) status) }
{
    if let Err(fault) = store.look_unmarked() {
        return stopped(writer, fault);
    }
    let areas = match store.areas_to_read(found) {
        Ok(areas) => areas,
        Err(fault) => return not_opened(writer, fault),
    };
    let (_, areas) = match World::new(*found, areas) {
        Ok(world) => world.into_areas(),
        Err((_, RecoverFault::BadGeometry { area })) => return bad_geometry(writer, area),
        Err(_) => unreachable!(),
    };
    let mut directory = CopyDirectory::new(copy, areas, *found);
    let made = make_store(&mut directory, geometry);
    if let Err(unmade) = &made {
        tell_unmade(copy, directory.directory(), geometry, unmade);
    }
    told_of_making(writer, made)
}
