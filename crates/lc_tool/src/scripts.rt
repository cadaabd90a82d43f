//! Runs a script.
ghost use Rattle.std.specs.Prelude.{◌≡◌, ◌≢◌, ◌+◌, ℕ, List, false, IfOk, IfSome, OnOk, Option, Some, None, take};
ghost use Rattle.std.specs.Prelude.{if◌then◌else◌};
ghost use Rattle.std.specs.Io.KnownBytes.{Appends};
ghost use Rattle.lc_record.specs.declared.geometry.Geometry.{Geometry as Sizes};
ghost use Rattle.lc_model.specs.declared.refusal.Refusal.TheVariants.{BadGeometry};
ghost use Rattle.lc_core.specs.Lives.{FitsLife, Life};
ghost use Rattle.lc_tool.specs.Outcome.{LeavesFronted, LeavesLine, OpensStore, RefusesFirst, RunsAll, RunsLines};
ghost use Rattle.lc_tool.specs.Outcome.{RunsRecovered};
ghost use Rattle.lc_tool.specs.Script.{front_of, given_as};
ghost use Rattle.lc_text.specs.Line.{line_of};
ghost use Rattle.lc_text.specs.Lines.{script_lines};
ghost use Rattle.lc_look.specs.Printed.{Adds};
ghost use Rattle.lc_look.specs.Refused.{RefusesLengths, RefusesMerge};
ghost use Rattle.lc_tool.specs.Store.{RunsStore};
ghost use Rattle.lc_text.specs.declared.command.Line.TheVariants.{Command as Commanded};
ghost use Rattle.lc_tool.specs.Tells.{TellsAll, TellsFronted, TellsLine, TellsLines, TellsOpening, TellsRecovered};
ghost use Rattle.lc_tool.specs.Tells.{TellsScript};
ghost use Rattle.lc_text.specs.Text.{no_memory_text, refusal_text, reply_text, too_long_text};

use crate::commands::perform;
use crate::following::follow_script;
use crate::line_telling::LineTeller;
use crate::manner::Manner;
use crate::outcome::Outcome;
use crate::repeating::recover;
use crate::source::Source;
use crate::stop::Stop;
use crate::verdict::Verdict;
use crate::{ScriptFault, ToolFault, WriteFault};
use lc_core::{Refusal, Reply, World};
use lc_disk::Stoppable;
use lc_look::{DONE, FAULTED, NOT_UNDERSTOOD, REFUSED, Silent, Teller};
use lc_record::Geometry;
use lc_recover::RecoverFault;
use lc_text::{
    Command, Line, first_line, is_skipped, parse, write_line_number, write_no_memory,
    write_not_understood, write_reply, write_too_long,
};
use std::alloc::Global;
use std::io::{Read, Write};

// The bytes of the longest script.
pub(crate) const LONGEST: usize = 1_048_576;

/// Runs a script on a store of these areas, once it is recovered, and answers the status. It is 0 where all was done,
/// and 1 where something was refused or there was no memory. It is 2 where a line or the script was not understood, and
/// 3 where a device failed. The manner says whether its lines are read one by one, and whether their numbers are
/// printed. An `Err` is a fault of the reader or of the writer, and says nothing of what was written.
pub fn run_script<D: Stoppable + Drop, R: Read, W: Write>(
    alloc: Global,
    geometry: Geometry,
    manner: Manner,
    areas: Vec<D>,
    reader: &mut R,
    writer: &mut W,
) -> Result<u8, ToolFault>
    // Areas that merge to one result, whatever a stop leaves of them.
    ensures runs { IfOk result (λ status. IfSome (R.remaining reader.old) (λ script.
        RunsStore D.Area geometry areas.items (given_as manner script) (W.contents writer.old)
        (W.contents writer.new) status)) }

    // Areas whose merge is refused, and areas that are not those of the geometry.
    ensures refused { IfOk result (λ status.
        RefusesMerge D.Area geometry areas.items (W.contents writer.old) (W.contents writer.new) status) }
    ensures wrong { IfOk result (λ status.
        RefusesLengths D.Area geometry areas.items (W.contents writer.old) (W.contents writer.new) status) }

    // Any areas.
    ensures tells { IfOk result (λ status. IfSome (R.remaining reader.old) (λ script.
        Adds (TellsScript geometry (given_as manner script)) (W.contents writer.old) (W.contents writer.new) status)) }
    ensures memory { result ≢ Err ToolFault.NoMemory }
{
    Ok(run_told(alloc, geometry, manner, areas, &Silent, reader, writer)?)
}

/// The same, and how far its recovery is is told.
pub(crate) fn run_told<D: Stoppable + Drop, T: Teller + LineTeller, R: Read, W: Write>(
    alloc: Global,
    geometry: Geometry,
    manner: Manner,
    areas: Vec<D>,
    teller: &T,
    reader: &mut R,
    writer: &mut W,
) -> Result<u8, ScriptFault>
    ensures runs { IfOk result (λ status. IfSome (R.remaining reader.old) (λ script.
        RunsStore D.Area geometry areas.items (given_as manner script) (W.contents writer.old)
        (W.contents writer.new) status)) }
    ensures refused { IfOk result (λ status.
        RefusesMerge D.Area geometry areas.items (W.contents writer.old) (W.contents writer.new) status) }
    ensures wrong { IfOk result (λ status.
        RefusesLengths D.Area geometry areas.items (W.contents writer.old) (W.contents writer.new) status) }
    ensures tells { IfOk result (λ status. IfSome (R.remaining reader.old) (λ script.
        Adds (TellsScript geometry (given_as manner script)) (W.contents writer.old) (W.contents writer.new) status)) }
{
    let mut world = match World::new(geometry, areas) {
        Ok(world) => world,
        Err((_, RecoverFault::BadGeometry { area })) => return Ok(bad_geometry(writer, area)?),
        Err(_) => unreachable!(),
    };
    if let Some(status) = open(alloc, &mut world, teller, writer)? {
        return Ok(status);
    }
    run_recovered(alloc, manner, teller, &mut world, reader, writer)
}

// Reads the script and runs it on a store that is recovered. What it leaves that is lost is told, unless a device has
// failed.
fn run_recovered<D: Stoppable + Drop, T: Teller + LineTeller, R: Read, W: Write>(
    alloc: Global,
    manner: Manner,
    teller: &T,
    world: &mut World<D>,
    reader: &mut R,
    writer: &mut W,
) -> Result<u8, ScriptFault>
    ensures runs { IfOk result (λ status. IfSome (R.remaining reader.old) (λ script.
        RunsRecovered D.Area world.old (given_as manner script) (W.contents writer.old)
        (W.contents writer.new) status)) }
    ensures tells { IfOk result (λ status. IfSome (R.remaining reader.old) (λ script. (g : Sizes) (at : Option Life)
        → FitsLife D.Area g at world.old.phase
        → Adds (TellsRecovered g at (given_as manner script)) (W.contents writer.old) (W.contents writer.new) status)) }
{
    let ended = run_read(alloc, manner, teller, world, reader, writer);
    if ended != Ok(FAULTED) {
        let left = world.unfinished();
        teller.left(left.commits, left.transactions);
    }
    ended
}

// Reads the script and runs it on a store that is recovered.
fn run_read<D: Stoppable + Drop, L: LineTeller, R: Read, W: Write>(
    alloc: Global,
    manner: Manner,
    teller: &L,
    world: &mut World<D>,
    reader: &mut R,
    writer: &mut W,
) -> Result<u8, ScriptFault>
    ensures runs { IfOk result (λ status. IfSome (R.remaining reader.old) (λ script.
        RunsRecovered D.Area world.old (given_as manner script) (W.contents writer.old)
        (W.contents writer.new) status)) }
    ensures tells { IfOk result (λ status. IfSome (R.remaining reader.old) (λ script. (g : Sizes) (at : Option Life)
        → FitsLife D.Area g at world.old.phase
        → Adds (TellsRecovered g at (given_as manner script)) (W.contents writer.old) (W.contents writer.new) status)) }
{
    if manner.follow {
        follow_script(alloc, manner.number, teller, world, reader, writer)
    } else {
        run_whole(alloc, manner.number, teller, world, reader, writer)
    }
}

// Reads the script as a whole and runs it on a store that is recovered.
fn run_whole<D: Stoppable + Drop, L: LineTeller, R: Read, W: Write>(
    alloc: Global,
    numbered: bool,
    teller: &L,
    world: &mut World<D>,
    reader: &mut R,
    writer: &mut W,
) -> Result<u8, ScriptFault>
    ensures runs { IfOk result (λ status. IfSome (R.remaining reader.old) (λ script.
        RunsAll D.Area (front_of numbered) world.old script (W.contents writer.old) (W.contents writer.new) status)) }
    ensures tells { IfOk result (λ status. IfSome (R.remaining reader.old) (λ script. (g : Sizes) (at : Option Life)
        → FitsLife D.Area g at world.old.phase
        → Adds (TellsAll (front_of numbered) g at script) (W.contents writer.old) (W.contents writer.new) status)) }
{
    let script = match read_script(alloc, reader) {
        Ok(script) => script,
        Err(ToolFault::NoMemory) => return Ok(no_memory(writer)?),
        Err(_) => return Err(ScriptFault::Read),
    };
    if script.len() > LONGEST {
        return Ok(too_long(writer)?);
    }
    Ok(run_lines(alloc, numbered, teller, world, &script, writer)?)
}

// Recovers the store, and says nothing where that is done: otherwise the status is answered.
fn open<D: Stoppable + Drop, T: Teller, W: Write>(
    alloc: Global,
    world: &mut World<D>,
    teller: &T,
    writer: &mut W,
) -> Result<Option<u8>, WriteFault>
    ensures opens { IfOk result (λ status.
        OpensStore D.Area world.old (W.contents writer.old) (W.contents writer.new) status world.new) }
    ensures refused { IfOk result (λ status.
        RefusesFirst D.Area world.old (W.contents writer.old) (W.contents writer.new) status) }
    ensures tells { IfOk result (λ status. (g : Sizes) → FitsLife D.Area g None world.old.phase
        → (after : Option Life) × FitsLife D.Area g after world.new.phase
        × TellsOpening g (W.contents writer.old) (W.contents writer.new) status after) }
{
    let recovered = recover(world, alloc, teller);
    teller.finished();
    let Ok(reply) = recovered else {
        return Ok(Some(no_memory(writer)?));
    };
    match Verdict::of(&reply) {
        Verdict::Done => Ok(None),
        Verdict::Refused => Ok(Some(printed(writer, &reply, REFUSED)?)),
        Verdict::Faulted => Ok(Some(printed(writer, &reply, FAULTED)?)),
    }
}

// Writes that an area is not one of the geometry, and gives the status.
pub(crate) fn bad_geometry<W: Write>(writer: &mut W, area: u32) -> Result<u8, WriteFault>
    ensures shown { IfOk result (λ status. (status ≡ 1)
        × Appends (W.contents writer.old) (W.contents writer.new) (refusal_text (BadGeometry area))) }
{
    printed(
        writer,
        &Reply::Refused(Refusal::BadGeometry { area }),
        REFUSED,
    )
}

// Writes the line of a reply, after which nothing more is done, and gives the status.
fn printed<W: Write>(writer: &mut W, reply: &Reply, status: u8) -> Result<u8, WriteFault>
    ensures shown { IfOk result (λ given. (given ≡ status)
        × Appends (W.contents writer.old) (W.contents writer.new) (reply_text reply.now)) }
{
    write_reply(writer, reply)?;
    Ok(status)
}

// The bytes of the script, and one more where there are too many.
fn read_script<R: Read>(alloc: Global, reader: &mut R) -> Result<Vec<u8>, ToolFault>
    ensures script { IfOk result (λ script. IfSome (R.remaining reader.old) (λ all. script.items
        ≡ take (LONGEST + 1) all)) }
    ensures writes { result ≢ Err ToolFault.Write }
{
    let mut script = Vec::new(alloc);
    let mut source = Source::new(reader).take(LONGEST as u64 + 1);
    match source.read_to_end(&mut script) {
        Ok(_) => Ok(script),
        Err(_) if source.into_inner().failed => Err(ToolFault::Read),
        Err(_) => Err(ToolFault::NoMemory),
    }
}

// Each line in turn.
fn run_lines<D: Stoppable + Drop, L: LineTeller, W: Write>(
    alloc: Global,
    numbered: bool,
    teller: &L,
    world: &mut World<D>,
    script: &[u8],
    writer: &mut W,
) -> Result<u8, WriteFault>
    ensures runs { IfOk result (λ status.
        RunsLines D.Area (front_of numbered) world.old script.now (W.contents writer.old)
        (W.contents writer.new) status) }
    ensures tells { IfOk result (λ status. (g : Sizes) (at : Option Life) → FitsLife D.Area g at world.old.phase
        → Adds (TellsLines (front_of numbered) g at 1 false (script_lines script.now)) (W.contents writer.old)
        (W.contents writer.new) status) }
{
    let mut rest = script;
    let mut number = 1;
    let mut refused = false;
    while !rest.is_empty() {
        let (line, behind) = first_line(rest);
        match run_line(alloc, numbered, teller, world, line, number, writer)? {
            Outcome::Goes { refused: was } => refused |= was,
            Outcome::Ends(status) => return Ok(status),
        }
        rest = behind;
        number += 1;
    }
    Ok(status_of(refused))
}

// The status of a script that came to its end.
pub(crate) fn status_of(refused: bool) -> u8
    ensures { result ≡ (if refused then 1 else 0) }
{
    if refused { REFUSED } else { DONE }
}

/// One line, of which all that is printed has gone out before the next is begun; its number stands in front of that
/// where numbers are asked for. Of a line that is not understood the teller is told.
pub(crate) fn run_line<D: Stoppable + Drop, L: LineTeller, W: Write>(
    alloc: Global,
    numbered: bool,
    teller: &L,
    world: &mut World<D>,
    line: &[u8],
    number: u64,
    writer: &mut W,
) -> Result<Outcome, WriteFault>
    ensures leaves { IfOk result (λ outcome.
        LeavesFronted D.Area (front_of numbered) world.old line.now number (W.contents writer.old)
        (W.contents writer.new) outcome world.new) }
    ensures tells { IfOk result (λ outcome. (g : Sizes) (at : Option Life) → FitsLife D.Area g at world.old.phase
        → (after : Option Life) × FitsLife D.Area g after world.new.phase
        × Adds (λ text end. TellsFronted (front_of numbered) g at line.now number text end after)
        (W.contents writer.old) (W.contents writer.new) outcome) }
{
    let outcome = number_line(alloc, numbered, teller, world, line, number, writer)?;
    writer.flush()?;
    Ok(outcome)
}

// One line, in front of which its number stands where numbers are asked for, and which prints something.
fn number_line<D: Stoppable + Drop, L: LineTeller, W: Write>(
    alloc: Global,
    numbered: bool,
    teller: &L,
    world: &mut World<D>,
    line: &[u8],
    number: u64,
    writer: &mut W,
) -> Result<Outcome, WriteFault>
    ensures leaves { IfOk result (λ outcome.
        LeavesFronted D.Area (front_of numbered) world.old line.now number (W.contents writer.old)
        (W.contents writer.new) outcome world.new) }
    ensures tells { IfOk result (λ outcome. (g : Sizes) (at : Option Life) → FitsLife D.Area g at world.old.phase
        → (after : Option Life) × FitsLife D.Area g after world.new.phase
        × Adds (λ text end. TellsFronted (front_of numbered) g at line.now number text end after)
        (W.contents writer.old) (W.contents writer.new) outcome) }
{
    if is_skipped(line) {
        return Ok(Outcome::Goes { refused: false });
    }
    show_number(numbered, number, writer)?;
    do_line(alloc, teller, world, line, number, writer)
}

// The number of a line, where numbers are asked for.
fn show_number<W: Write>(numbered: bool, number: u64, writer: &mut W) -> Result<(), WriteFault>
    ensures shown { OnOk result (Appends (W.contents writer.old) (W.contents writer.new) (front_of numbered number)) }
{
    if numbered {
        write_line_number(writer, number)?;
    }
    Ok(())
}

// One line.
fn do_line<D: Stoppable + Drop, L: LineTeller, W: Write>(
    alloc: Global,
    teller: &L,
    world: &mut World<D>,
    line: &[u8],
    number: u64,
    writer: &mut W,
) -> Result<Outcome, WriteFault>
    ensures leaves { IfOk result (λ outcome.
        LeavesLine D.Area world.old line.now number (W.contents writer.old) (W.contents writer.new) outcome world.new) }
    ensures tells { IfOk result (λ outcome. (g : Sizes) (at : Option Life) → FitsLife D.Area g at world.old.phase
        → (after : Option Life) × FitsLife D.Area g after world.new.phase
        × Adds (λ text end. TellsLine g at line.now number text end after) (W.contents writer.old)
        (W.contents writer.new) outcome) }
{
    let Ok(read) = parse(alloc, line) else {
        return Ok(Outcome::Ends(no_memory(writer)?));
    };
    match read {
        Line::Skipped => Ok(Outcome::Goes { refused: false }),
        Line::NotUnderstood => {
            teller.not_understood(number, line);
            write_not_understood(writer, number)?;
            Ok(Outcome::Ends(NOT_UNDERSTOOD))
        }
        Line::Command(command) => do_command(alloc, world, &command, writer),
    }
}

// A line's command.
fn do_command<D: Stoppable + Drop, W: Write>(
    alloc: Global,
    world: &mut World<D>,
    command: &Command,
    writer: &mut W,
) -> Result<Outcome, WriteFault>
    ensures leaves { (line : List ℕ) (number : ℕ) → line_of line ≡ Commanded command.now
        → IfOk result (λ outcome. LeavesLine D.Area world.old line number (W.contents writer.old)
        (W.contents writer.new) outcome world.new) }
    ensures tells { (line : List ℕ) (number : ℕ) → line_of line ≡ Commanded command.now
        → IfOk result (λ outcome. (g : Sizes) (at : Option Life) → FitsLife D.Area g at world.old.phase
        → (after : Option Life) × FitsLife D.Area g after world.new.phase
        × Adds (λ text end. TellsLine g at line number text end after) (W.contents writer.old)
        (W.contents writer.new) outcome) }
{
    match perform(world, alloc, command, writer) {
        Ok(Verdict::Done) => Ok(Outcome::Goes { refused: false }),
        Ok(Verdict::Refused) => Ok(Outcome::Goes { refused: true }),
        Ok(Verdict::Faulted) => Ok(Outcome::Ends(FAULTED)),
        Err(Stop::NoMemory) => Ok(Outcome::Ends(no_memory(writer)?)),
        Err(Stop::Write) => Err(WriteFault),
    }
}

// The line that tells of want of memory, and its status.
pub(crate) fn no_memory<W: Write>(writer: &mut W) -> Result<u8, WriteFault>
    ensures shown { IfOk result (λ status. (status ≡ 1)
        × Appends (W.contents writer.old) (W.contents writer.new) no_memory_text) }
{
    write_no_memory(writer)?;
    Ok(REFUSED)
}

// The line that tells of a script that is too long, and its status.
pub(crate) fn too_long<W: Write>(writer: &mut W) -> Result<u8, WriteFault>
    ensures shown { IfOk result (λ status. (status ≡ 2)
        × Appends (W.contents writer.old) (W.contents writer.new) too_long_text) }
{
    write_too_long(writer)?;
    Ok(NOT_UNDERSTOOD)
}
