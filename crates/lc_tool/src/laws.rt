//! What follows of a command over any areas, as the contract of a function with nothing to do.
ghost use Rattle.std.specs.Prelude.{ℕ, List, Option, Some};
ghost use Rattle.lc_record.specs.declared.geometry.Geometry.{Geometry};
ghost use Rattle.lc_core.specs.Lives.{IsBorn, Life};
ghost use Rattle.lc_text.specs.declared.command.Command.{Command};
ghost use Rattle.lc_tool.specs.Keeps.{IsOf, KeepsCommand};
ghost use Rattle.lc_tool.specs.Tells.{TellsCommand};
ghost use Rattle.lc_tool.specs.declared.verdict.Verdict.{Verdict};

/// Whatever a store of any areas stands beside, a command is answered within its geometry: what names something outside
/// of it is refused as unknown, or because the store is down, and nothing else is unknown but a delivery. The geometry
/// is that of what has come up, and stays.
pub(crate) fn commands_keep()
    ensures keeps { (g : Geometry) (at after : Option Life) (command : Command) (text : List ℕ) (verdict : Verdict)
        → IsOf g at
        → TellsCommand g at command text verdict after → KeepsCommand g command text verdict × IsOf g after }
    ensures born { (g : Geometry) (life : Life) → IsBorn g life → IsOf g (Some life) }
{}
