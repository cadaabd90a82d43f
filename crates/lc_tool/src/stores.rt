//! Stores in folders.
ghost use Rattle.std.specs.Prelude.{IfOk, IfSome};
ghost use Rattle.lc_tool.specs.Files.{TellsInit};
ghost use Rattle.lc_look.specs.Recovers.{TellsRecovery};
ghost use Rattle.lc_tool.specs.Script.{given_as};
ghost use Rattle.lc_look.specs.Printed.{Adds};
ghost use Rattle.lc_tool.specs.Tells.{TellsScript};

use crate::making::{not_opened, told_of_making};
use crate::manner::Manner;
use crate::scripts::run_told;
use crate::size_hint::{are_of_size, tell_size_found};
use crate::telling::{ErrorOutput, PageTeller};
use crate::{ScriptFault, WriteFault};
use lc_files::{
    Cause, Directory, OpenStore, SharedFile, StoreFolder, Unmade, Unopened, make_store,
};
use lc_look::recover_told;
use lc_record::Geometry;
use std::alloc::Global;
use std::cell::Cell;
use std::io::{Read, Write};
use std::rt::Files;

/// Makes the files of a new store in a folder: `lcrvm.store`, which says the size, and then, as zeros, `log0` and so on
/// for the nodes and `seg1` and so on for the segments. It prints nothing, and the status is 0. Where something stands
/// under a name that some store gives in its folder (these up to `log7` and `seg16`, with `.new` at their ends too, and
/// `fault`), it makes none, prints `refused Exists`, and the status is 1. A folder that fails, or that another process
/// has open, gives `device fault` and 3, and what was made is taken away again. It says on standard error why, and
/// which files are left that could not be taken away. An `Err` is a fault of the writer.
pub fn init_store<R: Files + Eprint, W: Write>(
    alloc: Global,
    rt: &R,
    folder: &str,
    geometry: Geometry,
    writer: &mut W,
) -> Result<u8, WriteFault>
where
    R::File: SharedFile,
    ensures tells { IfOk result (λ status. Adds TellsInit (W.contents writer.old) (W.contents writer.new) status) }
{
    let folder = StoreFolder::new(alloc, rt, folder);
    let mut directory = Directory::new(&folder);
    let made = make_store(&mut directory, &geometry);
    folder.tell();
    if let Err(unmade) = &made {
        tell_unmade(&folder, &directory, &geometry, unmade);
    }
    told_of_making(writer, made)
}

/// Says on standard error which name is taken, and which files are left.
pub(crate) fn tell_unmade<R: Files + Eprint>(
    folder: &StoreFolder<&R, &str>,
    directory: &Directory<'_, &R, &str>,
    geometry: &Geometry,
    unmade: &Unmade,
)
where
    R::File: SharedFile,
{
    if let Cause::Exists(name) = unmade.cause {
        folder.tell_taken(name);
    }
    if unmade.is_left {
        directory.tell_left(geometry);
    }
}

/// Recovers the store in a folder, and prints the number of each segment and `recovered`: as `recover_areas` over the
/// areas of its files, as they are opened (`StoreFolder::open`). A store that cannot be opened gives `device fault` and
/// the status 3. What failed, and why, it says on standard error.
pub fn recover_store<R: Files + Eprint, W: Write>(
    alloc: Global,
    rt: &R,
    errors: ErrorOutput,
    folder: &str,
    geometry: Geometry,
    writer: &mut W,
) -> Result<u8, WriteFault>
where
    R::File: SharedFile,
    ensures tells { IfOk result (λ status.
        Adds (TellsRecovery geometry) (W.contents writer.old) (W.contents writer.new) status) }
{
    let path = folder;
    let folder = StoreFolder::new(alloc, rt, path);
    let misfits = Cell::new(false);
    let ended = recover_in(alloc, rt, errors, &folder, geometry, &misfits, writer);
    folder.tell();
    if misfits.get() {
        tell_size_found(alloc, rt, path, &folder);
    }
    ended
}

// The same, but for why something failed; and whether the store is one of another size.
fn recover_in<R: Files + Eprint, W: Write>(
    alloc: Global,
    rt: &R,
    errors: ErrorOutput,
    folder: &StoreFolder<&R, &str>,
    geometry: Geometry,
    misfits: &Cell<bool>,
    writer: &mut W,
) -> Result<u8, WriteFault>
where
    R::File: SharedFile,
    ensures tells { IfOk result (λ status.
        Adds (TellsRecovery geometry) (W.contents writer.old) (W.contents writer.new) status) }
{
    match folder.open(&geometry) {
        Ok(store) => {
            let OpenStore {
                mut areas,
                guard: _guard,
            } = store;
            misfits.set(!are_of_size(&geometry, areas.as_slice()));
            let teller = PageTeller::new(alloc, rt, errors, &geometry, areas.as_mut_slice());
            recover_told(alloc, geometry, areas, &teller, writer)
        }
        Err(fault) => {
            misfits.set(matches!(fault, Unopened::OtherSize { .. }));
            not_opened(writer, fault)
        }
    }
}

/// Runs a script on the store in a folder: as `run_script` over the areas of its files, as they are opened
/// (`StoreFolder::open`). A store that cannot be opened gives `device fault` and the status 3. What failed, and why, it
/// says on standard error.
pub fn run_store<R: Files + Eprint, I: Read, W: Write>(
    alloc: Global,
    rt: &R,
    errors: ErrorOutput,
    folder: &str,
    geometry: Geometry,
    manner: Manner,
    reader: &mut I,
    writer: &mut W,
) -> Result<u8, ScriptFault>
where
    R::File: SharedFile,
    ensures tells { IfOk result (λ status. IfSome (I.remaining reader.old) (λ script.
        Adds (TellsScript geometry (given_as manner script)) (W.contents writer.old) (W.contents writer.new) status)) }
{
    let path = folder;
    let folder = StoreFolder::new(alloc, rt, path);
    let misfits = Cell::new(false);
    let ended = run_in(
        alloc, rt, errors, &folder, geometry, manner, &misfits, reader, writer,
    );
    folder.tell();
    if misfits.get() {
        tell_size_found(alloc, rt, path, &folder);
    }
    ended
}

// The same, but for why something failed; and whether the store is one of another size.
fn run_in<R: Files + Eprint, I: Read, W: Write>(
    alloc: Global,
    rt: &R,
    errors: ErrorOutput,
    folder: &StoreFolder<&R, &str>,
    geometry: Geometry,
    manner: Manner,
    misfits: &Cell<bool>,
    reader: &mut I,
    writer: &mut W,
) -> Result<u8, ScriptFault>
where
    R::File: SharedFile,
    ensures tells { IfOk result (λ status. IfSome (I.remaining reader.old) (λ script.
        Adds (TellsScript geometry (given_as manner script)) (W.contents writer.old) (W.contents writer.new) status)) }
{
    match folder.open(&geometry) {
        Ok(store) => {
            let OpenStore {
                mut areas,
                guard: _guard,
            } = store;
            misfits.set(!are_of_size(&geometry, areas.as_slice()));
            let teller = PageTeller::new(alloc, rt, errors, &geometry, areas.as_mut_slice());
            run_told(alloc, geometry, manner, areas, &teller, reader, writer)
        }
        Err(fault) => {
            misfits.set(matches!(fault, Unopened::OtherSize { .. }));
            Ok(not_opened(writer, fault)?)
        }
    }
}
