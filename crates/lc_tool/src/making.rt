//! The making of a store, and what is told of it.
ghost use Rattle.std.specs.Prelude.{◌≡◌, IfOk};
ghost use Rattle.std.specs.Io.KnownBytes.{Appends};
ghost use Rattle.lc_look.specs.Printed.{Adds, Stops};
ghost use Rattle.lc_text.specs.Text.{exists_text};
ghost use Rattle.lc_tool.specs.Files.{NotOpened, TellsMaking, TellsStopped, TellsUnopened};

use crate::WriteFault;
use crate::scripts::bad_geometry;
use lc_core::{Refusal, Reply};
use lc_files::{Cause, FolderFault, Unmade, Unopened};
use lc_look::{DONE, FAULTED, REFUSED, ended};
use lc_text::{write_exists, write_no_memory, write_reply};
use std::io::Write;

/// What is told of the making of a store's files, and the status: nothing and 0 where they are made, 1 where a name is
/// taken or there was no memory, 3 where the folder failed. An `Err` is a fault of the writer.
pub(crate) fn told_of_making<W: Write>(
    writer: &mut W,
    made: Result<(), Unmade>,
) -> Result<u8, WriteFault>
    ensures tells { IfOk result (λ status.
        Adds (TellsMaking made) (W.contents writer.old) (W.contents writer.new) status) }
{
    match made {
        Ok(()) => Ok(DONE),
        Err(unmade) => match unmade.cause {
            Cause::Exists(_) => exists(writer),
            Cause::Folder(fault) => stopped(writer, fault),
        },
    }
}

// The line that tells that a file is there already, and its status.
fn exists<W: Write>(writer: &mut W) -> Result<u8, WriteFault>
    ensures shown { IfOk result (λ status. (status ≡ 1)
        × Appends (W.contents writer.old) (W.contents writer.new) exists_text) }
{
    write_exists(writer)?;
    Ok(REFUSED)
}

/// The line that tells why a store is not opened, and its status.
pub(crate) fn not_opened<W: Write>(writer: &mut W, fault: Unopened) -> Result<u8, WriteFault>
    ensures shown { IfOk result (λ status. Adds NotOpened (W.contents writer.old) (W.contents writer.new) status) }
    ensures exactly { IfOk result (λ status.
        Adds (TellsUnopened fault) (W.contents writer.old) (W.contents writer.new) status) }
{
    match fault {
        Unopened::Folder(fault) => stopped(writer, fault),
        Unopened::OtherSize { area } => bad_geometry(writer, area),
    }
}

/// The line that tells why there is no store, and its status.
pub(crate) fn stopped<W: Write>(writer: &mut W, fault: FolderFault) -> Result<u8, WriteFault>
    ensures shown { IfOk result (λ status. Adds Stops (W.contents writer.old) (W.contents writer.new) status) }
    ensures exactly { IfOk result (λ status.
        Adds (TellsStopped fault) (W.contents writer.old) (W.contents writer.new) status) }
{
    let (written, status) = match fault {
        FolderFault::Failed => {
            let reply = Reply::Refused(Refusal::DeviceFault);
            (write_reply(writer, &reply), FAULTED)
        }
        FolderFault::NoMemory => (write_no_memory(writer), REFUSED),
    };
    ended(written, status)
}
