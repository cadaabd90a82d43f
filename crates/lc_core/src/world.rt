//! A store of several nodes.
ghost use Rattle.std.specs.Prelude.{◌≡◌, ◌≢◌};
ghost use Rattle.lc_recover.specs.Recovery.{Recovering, IsDone};
ghost use Rattle.lc_core.specs.declared.world_phase.WorldPhase.TheVariants.{Down, Taken};

use crate::world_phase::WorldPhase;
use lc_disk::Area;

/// A store of several nodes, on an area for the log of each node and then an area for each segment. It is down until
/// the recovery that is begun on its areas has made its last step. It always has its areas.
///
/// Idea: recoverable memory (RVM: Satyanarayanan et al., TOCS 1994) that several nodes map, each with a log that brings
/// the others up to date (log-based coherency: Feeley et al., OSDI 1994).
#[derive(Drop)]
pub struct World<D: Area> {
    pub(crate) phase: WorldPhase<D>,
    ghost going: { (r : Recovering D) → phase ≡ Down r → IsDone r → ⊥ },
    ghost there: { phase ≢ Taken },
}
