//! The size that a store in a folder is taken to have.
ghost use Rattle.std.specs.Prelude.{IfErr, IfOk, IfSome};
ghost use Rattle.lc_tool.specs.Found.{AnswersSized, IsAsFound, IsTaken, TellsUnsized};
ghost use Rattle.lc_look.specs.Recovers.{TellsRecovery};
ghost use Rattle.lc_tool.specs.Script.{given_as};
ghost use Rattle.lc_look.specs.Printed.{Adds};
ghost use Rattle.lc_tool.specs.Tells.{TellsScript};

use crate::making::stopped;
use crate::manner::Manner;
use crate::stores::{recover_store, run_store};
use crate::telling::ErrorOutput;
use crate::{ScriptFault, WriteFault};
use lc_files::{SharedFile, SizeFault, StoreFolder, size_found, write_misfit};
use lc_look::{NOT_UNDERSTOOD, REFUSED, ended};
use lc_record::Geometry;
use lc_words::Size;
use std::alloc::Global;
use std::io::{Read, Write};
use std::rt::Files;

// Why a store is of no size.
enum Sizeless {
    // Its folder tells none.
    Untold(SizeFault),
    // A number that is given is that of no store.
    NoStore,
}

/// As `recover_store`, of a store that has this size.
pub fn recover_sized<R: Files + Eprint, W: Write>(
    alloc: Global,
    rt: &R,
    errors: ErrorOutput,
    folder: &str,
    size: &Size,
    writer: &mut W,
) -> Result<u8, WriteFault>
where
    R::File: SharedFile,
    ensures tells { IfOk result (λ status.
        AnswersSized size.now (λ g. Adds (TellsRecovery g) (W.contents writer.old) (W.contents writer.new) status)
        (W.contents writer.old) (W.contents writer.new) status) }
{
    match size_in(alloc, rt, folder, size) {
        Ok(geometry) => recover_store(alloc, rt, errors, folder, geometry, writer),
        Err(fault) => no_size(writer, fault),
    }
}

/// As `run_store`, on a store that has this size.
pub fn run_sized<R: Files + Eprint, I: Read, W: Write>(
    alloc: Global,
    rt: &R,
    errors: ErrorOutput,
    folder: &str,
    size: &Size,
    manner: Manner,
    reader: &mut I,
    writer: &mut W,
) -> Result<u8, ScriptFault>
where
    R::File: SharedFile,
    ensures tells { IfOk result (λ status. IfSome (I.remaining reader.old) (λ script.
        AnswersSized size.now (λ g.
        Adds (TellsScript g (given_as manner script)) (W.contents writer.old) (W.contents writer.new) status)
        (W.contents writer.old) (W.contents writer.new) status)) }
{
    match size_in(alloc, rt, folder, size) {
        Ok(geometry) => run_store(alloc, rt, errors, folder, geometry, manner, reader, writer),
        Err(fault) => Ok(no_size(writer, fault)?),
    }
}

// The size that the store in this folder is taken to have. Why its files could not be looked at is said on standard
// error.
fn size_in<R: Files + Eprint>(
    alloc: Global,
    rt: &R,
    folder: &str,
    size: &Size,
) -> Result<Geometry, Sizeless>
where
    R::File: SharedFile,
    ensures taken { IfOk result (IsTaken size.now) }
    ensures fault { IfErr result (λ _. IsAsFound size.now) }
{
    match size {
        Size::Given(geometry) => Ok(*geometry),
        Size::AsFound(wanted) => match told_size(alloc, rt, folder) {
            Ok(found) => match wanted.over(&found) {
                Some(geometry) => Ok(geometry),
                None => Err(Sizeless::NoStore),
            },
            Err(fault) => Err(Sizeless::Untold(fault)),
        },
    }
}

// The size that this folder tells. What there is to say of its files is said on standard error.
fn told_size<R: Files + Eprint>(alloc: Global, rt: &R, folder: &str) -> Result<Geometry, SizeFault>
where
    R::File: SharedFile,
{
    let folder = StoreFolder::new(alloc, rt, folder);
    let found = size_found(alloc, &folder);
    folder.tell();
    found
}

// Says why a store is of no size, and answers the status.
fn no_size<W: Write>(writer: &mut W, fault: Sizeless) -> Result<u8, WriteFault>
    ensures tells { IfOk result (TellsUnsized (W.contents writer.old) (W.contents writer.new)) }
{
    match fault {
        Sizeless::Untold(SizeFault::Misfit(misfit)) => {
            ended(write_misfit(writer, misfit), REFUSED)
        }
        Sizeless::Untold(SizeFault::Folder(fault)) => stopped(writer, fault),
        Sizeless::NoStore => Ok(NOT_UNDERSTOOD),
    }
}
