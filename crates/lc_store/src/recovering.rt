//! What a recovery makes of areas.
ghost use Rattle.std.specs.Prelude.{◌≡◌, IfErr, IfOk};
ghost use Rattle.lc_recover.specs.Reads.{HaveLengths};
ghost use Rattle.lc_recover.specs.Recovered.{AreFinished};
ghost use Rattle.lc_look.specs.Recovers.{Recovers};
ghost use Rattle.lc_store.specs.Opening.{RefusesAreas};

use crate::StoreOpenFault;
use lc_disk::Area;
use lc_record::Geometry;
use lc_recover::{Progress, RecoverFault, Recovered, Recovery};
use std::alloc::Global;

/// What a recovery makes of these areas, the logs of the nodes and then the segments, run to its end. `Node::open` and
/// `Cluster::open` of `lc_node` take it.
///
/// # Errors
///
/// `BadGeometry` of the first area that has not the length of the geometry, or is one too many or too few; `NotUp`
/// where a record or a page is not one, a device failed, or there is no memory. The areas are gone.
pub fn recovered_on<D: Area + Drop>(
    alloc: Global,
    geometry: Geometry,
    areas: Vec<D>,
) -> Result<Recovered<D>, StoreOpenFault>
    ensures geometry { IfOk result (λ store. store.geometry ≡ geometry) }
    ensures lengths { IfOk result (λ store. HaveLengths D.Area store.geometry store.areas) }
    ensures finished { IfOk result (AreFinished D.Area) }
    ensures recovers { IfOk result (Recovers D.Area geometry areas.items) }
    ensures refuses { IfErr result (RefusesAreas D.Area geometry areas.items) }
{
    let mut recovery = match Recovery::new(geometry, areas) {
        Ok(recovery) => recovery,
        Err((_, RecoverFault::BadGeometry { area })) => {
            return Err(StoreOpenFault::BadGeometry { area });
        }
        Err(_) => unreachable!(),
    };
    while let Progress::Stepped(_) = recovery.step(alloc)? {}
    Ok(recovery.finish())
}
