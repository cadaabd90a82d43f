//! How areas become a store that is up.
ghost use Rattle.std.specs.Prelude.{◌≡◌, true, IfOk, Some};
ghost use Rattle.lc_core.specs.Geometries.{phase_geometry};
ghost use Rattle.lc_core.specs.Observed.{observed};
ghost use Rattle.lc_store.specs.Opening.{Opens};

use crate::StoreOpenFault;
use lc_core::World;
use lc_disk::Stoppable;
use lc_record::Geometry;
use lc_recover::RecoverFault;
use std::alloc::Global;

/// The store of these areas, which is up.
pub(crate) fn up_on<D: Stoppable + Drop>(
    alloc: Global,
    geometry: Geometry,
    areas: Vec<D>,
) -> Result<World<D>, StoreOpenFault>
    ensures opens { Opens D.Area geometry areas.items result }
    ensures up { IfOk result (λ world. (observed D.Area world).up ≡ true) }
    ensures geometry { IfOk result (λ world. phase_geometry D.Area world.phase ≡ Some geometry) }
{
    let mut world = match World::new(geometry, areas) {
        Ok(world) => world,
        Err((_, RecoverFault::BadGeometry { area })) => {
            return Err(StoreOpenFault::BadGeometry { area });
        }
        Err(_) => unreachable!(),
    };
    match world.recover(alloc) {
        Ok(()) => Ok(world),
        Err(fault) => Err(StoreOpenFault::NotUp(fault)),
    }
}
