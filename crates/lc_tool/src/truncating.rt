//! How a script's line empties the log of a node.
ghost use Rattle.std.specs.Prelude.{◌≡◌, IfOk, Option};
ghost use Rattle.lc_record.specs.declared.geometry.Geometry.{Geometry};
ghost use Rattle.lc_core.specs.Lives.{FitsLife, Life};
ghost use Rattle.lc_core.specs.World.{FitsWorld};
ghost use Rattle.lc_tool.specs.Fits.{Performs};
ghost use Rattle.lc_tool.specs.Session.{truncate_text};
ghost use Rattle.lc_look.specs.Printed.{Adds};
ghost use Rattle.lc_tool.specs.Tells.{TellsCommand};
ghost use Rattle.lc_tool.specs.Verdict.{verdict_of};
ghost use Rattle.std.specs.Io.KnownBytes.{Appends};
ghost use Rattle.lc_text.specs.declared.command.Command.TheVariants.{Truncate};

use crate::WriteFault;
use crate::commands::show;
use crate::verdict::Verdict;
use lc_core::{Reply, World};
use lc_disk::Stoppable;
use lc_text::write_truncated;
use std::alloc::Global;
use std::io::Write;

/// Empties the log of a node, and writes in which round it is then, or the first refusal.
pub(crate) fn show_truncation<D: Stoppable + Drop, W: Write>(
    world: &mut World<D>,
    alloc: Global,
    node: u16,
    writer: &mut W,
) -> Result<Verdict, WriteFault>
    ensures done { IfOk result (λ verdict.
        Performs D.Area (FitsWorld D.Area) world.old (Truncate node) (W.contents writer.old)
        (W.contents writer.new) verdict world.new) }
    ensures tells { IfOk result (λ verdict. (g : Geometry) (at : Option Life) → FitsLife D.Area g at world.old.phase
        → (after : Option Life) × FitsLife D.Area g after world.new.phase
        × Adds (λ text end. TellsCommand g at (Truncate node) text end after) (W.contents writer.old)
        (W.contents writer.new) verdict) }
{
    let reply = world.truncate(alloc, node);
    show_round(writer, &reply, world.round(node))
}

// Writes the round of a log that is empty, or the line of the reply in its place.
fn show_round<W: Write>(writer: &mut W, reply: &Reply, round: u64) -> Result<Verdict, WriteFault>
    ensures shown { IfOk result (λ verdict. (verdict ≡ verdict_of reply.now)
        × Appends (W.contents writer.old) (W.contents writer.new) (truncate_text round reply.now)) }
{
    match reply {
        Reply::Reset | Reply::Nothing => {
            write_truncated(writer, round)?;
            Ok(Verdict::Done)
        }
        _ => show(writer, reply),
    }
}
