//! The rounds of a recovery, as C asks for them.
ghost use Rattle.std.specs.Prelude.{◌≡◌, ◌+◌, ◌<◌, ◌≤◌, if◌then◌else◌};
ghost use Rattle.lc_record.specs.declared.geometry.Geometry.{Geometry};
ghost use Rattle.lc_recover.specs.Steps.{calls_done, first_steps, steps_of};
ghost use Rattle.lc_recover.specs.declared.log_resets.LogResets.{LogResets};
ghost use Rattle.lc_recover.specs.declared.page_writes.PageWrites.{PageWrites};
ghost use Rattle.lc_recover.specs.declared.recovery_phase.RecoveryPhase.TheVariants.{Resetting, Writing};

use lc_rounds::round_of;

/// In which round a step of a recovery makes its call on the file of the area at this place, where so many steps are
/// done before it.
#[unsafe(no_mangle)]
pub extern "C" fn lcrvm_recovery_round(nodes: u16, segments: u32, steps: u64, place: u32) -> u32
    ensures sync { (g : Geometry) → g.nodes ≡ nodes → g.segments ≡ segments → steps < first_steps g → result ≡ 0 }
    ensures page { (g : Geometry) (w : PageWrites) → g.nodes ≡ nodes → g.segments ≡ segments
        → steps ≡ steps_of g (Writing w) → nodes ≤ place → result ≡ calls_done w.current + 1 }
    ensures log { (g : Geometry) (r : LogResets) → g.nodes ≡ nodes → g.segments ≡ segments
        → steps ≡ steps_of g (Resetting r) → place < nodes → result ≡ 7 + (if r.is_closing then 1 else 0) }
{
    round_of(nodes, segments, steps, place)
}
