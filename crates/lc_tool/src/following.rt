//! Runs the lines of a script as they come.
ghost use Rattle.std.specs.Prelude.{false, IfOk, IfSome, Option};
ghost use Rattle.lc_record.specs.declared.geometry.Geometry.{Geometry};
ghost use Rattle.lc_core.specs.Lives.{FitsLife, Life};
ghost use Rattle.lc_tool.specs.Coming.{lines_left};
ghost use Rattle.lc_tool.specs.Following.{lines_followed};
ghost use Rattle.lc_tool.specs.Outcome.{FollowsLines};
ghost use Rattle.lc_tool.specs.Script.{front_of};
ghost use Rattle.lc_look.specs.Printed.{Adds};
ghost use Rattle.lc_tool.specs.Tells.{TellsFollowed};

use crate::line_telling::LineTeller;
use crate::outcome::Outcome;
use crate::script_lines::ScriptLines;
use crate::scripts::{LONGEST, no_memory, run_line, status_of, too_long};
use crate::{ScriptFault, ToolFault};
use lc_core::World;
use lc_disk::Stoppable;
use lc_text::first_line;
use std::alloc::Global;
use std::io::{Read, Write};

// Of a line more there is no number.
const LAST_NUMBER: u64 = u64::MAX;

/// Runs each line on a store that is recovered before the next is read. A line has the bytes of the longest script at
/// most.
pub(crate) fn follow_script<D: Stoppable + Drop, L: LineTeller, R: Read, W: Write>(
    alloc: Global,
    numbered: bool,
    teller: &L,
    world: &mut World<D>,
    reader: &mut R,
    writer: &mut W,
) -> Result<u8, ScriptFault>
    ensures runs { IfOk result (λ status. IfSome (R.remaining reader.old) (λ script.
        FollowsLines D.Area (front_of numbered) world.old script (W.contents writer.old)
        (W.contents writer.new) status)) }
    ensures tells { IfOk result (λ status. IfSome (R.remaining reader.old) (λ script. (g : Geometry) (at : Option Life)
        → FitsLife D.Area g at world.old.phase
        → Adds (TellsFollowed (front_of numbered) g at 1 false (lines_followed script)) (W.contents writer.old)
        (W.contents writer.new) status)) }
{
    match ScriptLines::new(alloc, reader) {
        Ok(mut lines) => follow_lines(alloc, numbered, teller, world, &mut lines, writer),
        Err(_) => Ok(no_memory(writer)?),
    }
}

// Each line in turn, as it comes.
fn follow_lines<D: Stoppable + Drop, L: LineTeller, R: Read, W: Write>(
    alloc: Global,
    numbered: bool,
    teller: &L,
    world: &mut World<D>,
    lines: &mut ScriptLines<'_, R>,
    writer: &mut W,
) -> Result<u8, ScriptFault>
    ensures runs { IfOk result (λ status. IfSome (lines_left R.remaining lines.old) (λ script.
        FollowsLines D.Area (front_of numbered) world.old script (W.contents writer.old)
        (W.contents writer.new) status)) }
    ensures tells { IfOk result (λ status. IfSome (lines_left R.remaining lines.old) (λ script. (g : Geometry)
        (at : Option Life) → FitsLife D.Area g at world.old.phase
        → Adds (TellsFollowed (front_of numbered) g at 1 false (lines_followed script)) (W.contents writer.old)
        (W.contents writer.new) status)) }
{
    let mut number = 1;
    let mut refused = false;
    loop {
        let raw = match lines.next(alloc) {
            Ok(raw) => raw,
            Err(ToolFault::NoMemory) => return Ok(no_memory(writer)?),
            Err(_) => return Err(ScriptFault::Read),
        };
        if raw.is_empty() {
            return Ok(status_of(refused));
        }
        if raw.len() > LONGEST {
            return Ok(too_long(writer)?);
        }
        if number == LAST_NUMBER {
            return Ok(too_long(writer)?);
        }
        let (line, _) = first_line(&raw);
        match run_line(alloc, numbered, teller, world, line, number, writer)? {
            Outcome::Goes { refused: was } => refused |= was,
            Outcome::Ends(status) => return Ok(status),
        }
        number += 1;
    }
}
