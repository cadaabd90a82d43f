//! What takes several steps of a store.
ghost use Rattle.std.specs.Prelude.{◌≡◌, IfOk, OnErr};
ghost use Rattle.std.specs.Option.{ForSome};
ghost use Rattle.lc_model.specs.declared.event.Event.TheVariants.{FlushStep, RecoverStep};
ghost use Rattle.lc_core.specs.Geometries.{phase_geometry};
ghost use Rattle.lc_core.specs.Lives.{StillLives};
ghost use Rattle.lc_core.specs.World.{FitsWorld};
ghost use Rattle.lc_tool.specs.Fits.{AsksFor, FollowsAll, FollowsEnd, IsUpBeside, RefusesAll, RefusesDown};
ghost use Rattle.lc_tool.specs.Fits.{RunsRecovery};
ghost use Rattle.lc_tool.specs.Tells.{KeepsTo};
ghost use Rattle.lc_text.specs.declared.command.Command.TheVariants.{End, Recover};

use crate::call_replies::{end_reply, flush_reply};
use lc_core::{Event, Reply, World};
use lc_disk::Stoppable;
use lc_look::Teller;
use std::alloc::{AllocError, Global};

// More than any recovery has.
const RECOVERY_STEPS: u32 = 1 << 20;

/// A thread's transaction is reserved, and closed where it was. Only the reservation may want memory.
pub(crate) fn end<D: Stoppable + Drop>(
    world: &mut World<D>,
    alloc: Global,
    node: u16,
    thread: u16,
) -> Result<Reply, AllocError>
    ensures follows { IfOk result (λ reply.
        FollowsEnd D.Area (FitsWorld D.Area) world.old node thread reply world.new) }
    // Whatever the areas are: of a store that is up, and of one that is down.
    ensures anyhow { IfOk result (λ reply.
        FollowsEnd D.Area (IsUpBeside D.Area) world.old node thread reply world.new) }
    ensures down { IfOk result (λ reply. RefusesDown D.Area world.old reply world.new) }
    ensures memory { OnErr result (AsksFor D.Area world.old (End node thread)) }
    ensures still { OnErr result (StillLives D.Area world.old.phase world.new.phase) }
{
    end_reply(world.end(alloc, node, thread))
}

/// The steps of a flush of a node, up to the one that is answered otherwise than that more are to come.
pub(crate) fn flush<D: Stoppable + Drop>(world: &mut World<D>, alloc: Global, node: u16) -> Reply
    ensures follows { FollowsAll D.Area (FitsWorld D.Area) world.old (FlushStep node) result world.new }
    // Whatever the areas are: of a store that is up, and of one that is down.
    ensures anyhow { FollowsAll D.Area (IsUpBeside D.Area) world.old (FlushStep node) result world.new }
    ensures down { RefusesDown D.Area world.old result world.new }
{
    flush_reply(world.flush(alloc, node))
}

/// The steps of a recovery, up to the one that is answered otherwise than that more are to come. How many are done is
/// told.
pub(crate) fn recover<D: Stoppable + Drop, T: Teller>(
    world: &mut World<D>,
    alloc: Global,
    teller: &T,
) -> Result<Reply, AllocError>
    ensures follows { IfOk result (λ reply.
        FollowsAll D.Area (FitsWorld D.Area) world.old RecoverStep reply world.new) }
    // Whatever the areas are: of a store that is up, and of one that is down.
    ensures anyhow { IfOk result (λ reply.
        FollowsAll D.Area (IsUpBeside D.Area) world.old RecoverStep reply world.new) }
    ensures down { IfOk result (λ reply. RunsRecovery D.Area world.old reply world.new) }
    ensures refused { IfOk result (λ reply. RefusesAll D.Area world.old reply) }
    ensures keeps { IfOk result (λ reply. ForSome (phase_geometry D.Area world.old.phase) (λ g.
        KeepsTo g RecoverStep reply)) }
    ensures memory { OnErr result (AsksFor D.Area world.old Recover) }
    ensures still { OnErr result (StillLives D.Area world.old.phase world.new.phase) }
{
    for _ in 0..RECOVERY_STEPS {
        match world.step(alloc, &Event::RecoverStep)? {
            Reply::Stepped(steps) => teller.stepped(steps),
            reply => return Ok(reply),
        }
    }
    world.step(alloc, &Event::RecoverStep)
}
