//! What each command does to the store, and what it prints.
ghost use Rattle.std.specs.Prelude.{◌≡◌, IfOk, Option, Some};
ghost use Rattle.std.specs.Io.KnownBytes.{Appends, Keeps};
ghost use Rattle.lc_record.specs.Words.{bytes_of};
ghost use Rattle.lc_record.specs.declared.geometry.Geometry.{Geometry};
ghost use Rattle.lc_model.specs.declared.refusal.Refusal.{Refusal};
ghost use Rattle.lc_core.specs.Lives.{FitsLife, Life, StillLives};
ghost use Rattle.lc_core.specs.World.{FitsWorld};
ghost use Rattle.lc_tool.specs.Fits.{AsksFor, Performs};
ghost use Rattle.lc_tool.specs.Session.{Says, end_text};
ghost use Rattle.lc_tool.specs.Shown.{refusal_to};
ghost use Rattle.lc_look.specs.Printed.{Adds};
ghost use Rattle.lc_tool.specs.Tells.{TellsCommand};
ghost use Rattle.lc_text.specs.Text.{refusal_text, reply_text};
ghost use Rattle.lc_tool.specs.Verdict.{verdict_of, verdict_on};
ghost use Rattle.lc_text.specs.declared.command.Command.TheVariants.{Inspect, Log, Show};

use crate::repeating::{end, flush, recover};
use crate::stop::Stop;
use crate::truncating::show_truncation;
use crate::verdict::Verdict;
use crate::{ToolFault, WriteFault};
use lc_core::{Refusal, Reply, ShowFault, World};
use lc_disk::Stoppable;
use lc_look::Silent;
use lc_text::{Command, inspect, write_closed, write_page, write_reply, write_words};
use std::alloc::{AllocError, Global};
use std::io::Write;

/// One line of a script. An `Err` has written nothing where there was no memory.
pub(crate) fn perform<D: Stoppable + Drop, W: Write>(
    world: &mut World<D>,
    alloc: Global,
    command: &Command,
    writer: &mut W,
) -> Result<Verdict, Stop>
    ensures done { IfOk result (λ verdict.
        Performs D.Area (FitsWorld D.Area) world.old command.now (W.contents writer.old)
        (W.contents writer.new) verdict world.new) }
    ensures tells { IfOk result (λ verdict. (g : Geometry) (at : Option Life) → FitsLife D.Area g at world.old.phase
        → (after : Option Life) × FitsLife D.Area g after world.new.phase
        × Adds (λ text end. TellsCommand g at command.now text end after) (W.contents writer.old)
        (W.contents writer.new) verdict) }
    ensures memory { result ≡ Err Stop.NoMemory → Keeps (W.contents writer.old) (W.contents writer.new) }
    ensures asks { result ≡ Err Stop.NoMemory → AsksFor D.Area world.old command.now }
    ensures still { result ≡ Err Stop.NoMemory → StillLives D.Area world.old.phase world.new.phase }
{
    match command {
        Command::Step(event) => Ok(show(writer, &world.step(alloc, event)?)?),
        Command::End { node, thread } => Ok(show_end(writer, &end(world, alloc, *node, *thread)?)?),
        Command::Flush { node } => Ok(show(writer, &flush(world, alloc, *node))?),
        Command::Truncate { node } => Ok(show_truncation(world, alloc, *node, writer)?),
        Command::Recover => Ok(show(writer, &recover(world, alloc, &Silent)?)?),
        Command::Log { node } => show_log(world, alloc, *node, writer),
        Command::Inspect { node } => show_records(world, alloc, *node, writer),
        Command::Show {
            node,
            segment,
            page,
        } => Ok(show_page(world, *node, *segment, *page, writer)?),
    }
}

/// Writes the line of a reply, and tells what became of its command.
pub(crate) fn show<W: Write>(writer: &mut W, reply: &Reply) -> Result<Verdict, WriteFault>
    ensures shown { IfOk result (λ verdict. (verdict ≡ verdict_of reply.now)
        × Appends (W.contents writer.old) (W.contents writer.new) (reply_text reply.now)) }
{
    write_reply(writer, reply)?;
    Ok(Verdict::of(reply))
}

// Writes the line of a reservation that was closed, or of the reply in its place.
fn show_end<W: Write>(writer: &mut W, reply: &Reply) -> Result<Verdict, WriteFault>
    ensures shown { IfOk result (λ verdict. (verdict ≡ verdict_of reply.now)
        × Appends (W.contents writer.old) (W.contents writer.new) (end_text reply.now)) }
{
    match reply {
        Reply::Reserved { place, words } => {
            write_closed(writer, *place, *words)?;
            Ok(Verdict::Done)
        }
        _ => show(writer, reply),
    }
}

// The words of the log's records.
fn show_log<D: Stoppable + Drop, W: Write>(
    world: &mut World<D>,
    alloc: Global,
    node: u16,
    writer: &mut W,
) -> Result<Verdict, Stop>
    ensures done { IfOk result (λ verdict.
        Performs D.Area (FitsWorld D.Area) world.old (Log node) (W.contents writer.old)
        (W.contents writer.new) verdict world.new) }
    ensures tells { IfOk result (λ verdict. (g : Geometry) (at : Option Life) → FitsLife D.Area g at world.old.phase
        → (after : Option Life) × FitsLife D.Area g after world.new.phase
        × Adds (λ text end. TellsCommand g at (Log node) text end after) (W.contents writer.old)
        (W.contents writer.new) verdict) }
    ensures memory { result ≡ Err Stop.NoMemory → Keeps (W.contents writer.old) (W.contents writer.new) }
    ensures asks { result ≡ Err Stop.NoMemory → AsksFor D.Area world.old (Log node) }
    ensures still { result ≡ Err Stop.NoMemory → StillLives D.Area world.old.phase world.new.phase }
{
    match world.log_words(alloc, node) {
        Ok(words) => {
            write_words(writer, words.as_slice())?;
            Ok(Verdict::Done)
        }
        Err(fault) => show_fault(writer, fault),
    }
}

// The log's records, one a line.
fn show_records<D: Stoppable + Drop, W: Write>(
    world: &mut World<D>,
    alloc: Global,
    node: u16,
    writer: &mut W,
) -> Result<Verdict, Stop>
    ensures done { IfOk result (λ verdict.
        Performs D.Area (FitsWorld D.Area) world.old (Inspect node) (W.contents writer.old)
        (W.contents writer.new) verdict world.new) }
    ensures tells { IfOk result (λ verdict. (g : Geometry) (at : Option Life) → FitsLife D.Area g at world.old.phase
        → (after : Option Life) × FitsLife D.Area g after world.new.phase
        × Adds (λ text end. TellsCommand g at (Inspect node) text end after) (W.contents writer.old)
        (W.contents writer.new) verdict) }
    ensures memory { result ≡ Err Stop.NoMemory → Keeps (W.contents writer.old) (W.contents writer.new) }
    ensures asks { result ≡ Err Stop.NoMemory → AsksFor D.Area world.old (Inspect node) }
    ensures still { result ≡ Err Stop.NoMemory → StillLives D.Area world.old.phase world.new.phase }
{
    let words = match world.log_words(alloc, node) {
        Ok(words) => words,
        Err(fault) => return show_fault(writer, fault),
    };
    let bytes = log_bytes(alloc, words.as_slice())?;
    match inspect(alloc, bytes.as_slice(), false, writer) {
        Ok(()) => Ok(Verdict::Done),
        Err(ToolFault::NoMemory) => Err(Stop::NoMemory),
        Err(_) => Err(Stop::Write),
    }
}

// Writes why a log is not shown.
fn show_fault<W: Write>(writer: &mut W, fault: ShowFault) -> Result<Verdict, Stop>
    ensures shown { IfOk result (λ verdict. (refusal : Refusal) × (refusal_to fault ≡ Some refusal)
        × (verdict ≡ verdict_on refusal)
        × Appends (W.contents writer.old) (W.contents writer.new) (refusal_text refusal)) }
    ensures memory { result ≡ Err Stop.NoMemory
        → (fault ≡ ShowFault.NoMemory) × Keeps (W.contents writer.old) (W.contents writer.new) }
{
    match fault {
        ShowFault::Unknown => Ok(show(writer, &Reply::Refused(Refusal::Unknown))?),
        ShowFault::DeviceFault => Ok(show(writer, &Reply::Refused(Refusal::DeviceFault))?),
        ShowFault::NoMemory => Err(Stop::NoMemory),
    }
}

// The bytes of a page, with those of the open transaction.
fn show_page<D: Stoppable + Drop, W: Write>(
    world: &mut World<D>,
    node: u16,
    segment: u32,
    page: u32,
    writer: &mut W,
) -> Result<Verdict, WriteFault>
    ensures done { IfOk result (λ verdict.
        Performs D.Area (FitsWorld D.Area) world.old (Show node segment page) (W.contents writer.old)
        (W.contents writer.new) verdict world.new) }
    ensures tells { IfOk result (λ verdict. (g : Geometry) (at : Option Life) → FitsLife D.Area g at world.old.phase
        → (after : Option Life) × FitsLife D.Area g after world.new.phase
        × Adds (λ text end. TellsCommand g at (Show node segment page) text end after) (W.contents writer.old)
        (W.contents writer.new) verdict) }
{
    match world.page(node, segment, page) {
        Ok(bytes) => {
            write_page(writer, bytes)?;
            Ok(Verdict::Done)
        }
        Err(refusal) => show(writer, &Reply::Refused(refusal)),
    }
}

// The bytes of words, the lowest byte of each first.
fn log_bytes(alloc: Global, words: &[u64]) -> Result<Vec<u8>, AllocError>
    ensures { IfOk result (λ bytes. bytes.items ≡ bytes_of words.now) }
{
    let mut bytes = Vec::new(alloc);
    for word in words {
        bytes.extend_from_slice(&word.to_le_bytes())?;
    }
    Ok(bytes)
}
