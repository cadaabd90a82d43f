//! The rounds in which the calls of a recovery are made on files.
ghost use Rattle.std.specs.Prelude.{◌≡◌, ◌+◌, ◌<◌, ◌≤◌, if◌then◌else◌};
ghost use Rattle.lc_record.specs.declared.geometry.Geometry.{Geometry};
ghost use Rattle.lc_recover.specs.Steps.{calls_done, first_steps, steps_of};
ghost use Rattle.lc_recover.specs.declared.log_resets.LogResets.{LogResets};
ghost use Rattle.lc_recover.specs.declared.page_writes.PageWrites.{PageWrites};
ghost use Rattle.lc_recover.specs.declared.recovery_phase.RecoveryPhase.TheVariants.{Resetting, Writing};

// How many calls the write of a page takes, and the reset of a log.
const PAGE_CALLS: u64 = 6;

const LOG_CALLS: u64 = 2;

// The rounds of their first calls.
const PAGE_ROUND: u32 = 1;

const LOG_ROUND: u32 = 7;

/// In which round a step of a recovery makes its call on the file of this area, where so many steps are done before it:
/// the syncs of all areas in round 0, then the i-th call of each page in round i, and then the two calls of each log.
pub fn round_of(nodes: u16, segments: u32, steps: u64, area: u32) -> u32
    ensures sync { (g : Geometry) → g.nodes ≡ nodes → g.segments ≡ segments → steps < first_steps g → result ≡ 0 }
    ensures page { (g : Geometry) (w : PageWrites) → g.nodes ≡ nodes → g.segments ≡ segments
        → steps ≡ steps_of g (Writing w) → nodes ≤ area → result ≡ calls_done w.current + 1 }
    ensures log { (g : Geometry) (r : LogResets) → g.nodes ≡ nodes → g.segments ≡ segments
        → steps ≡ steps_of g (Resetting r) → area < nodes → result ≡ 7 + (if r.is_closing then 1 else 0) }
{
    let first = 2 * (nodes as u64 + segments as u64) + 1;
    if steps < first {
        return 0;
    }
    if area < nodes as u32 {
        return LOG_ROUND + ((steps - first) % LOG_CALLS) as u32;
    }
    PAGE_ROUND + ((steps - first) % PAGE_CALLS) as u32
}
