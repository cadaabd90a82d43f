//! What a recovery of a store's areas would give.
ghost use Rattle.std.specs.Prelude.{◌≡◌, ◌≢◌, ◌⊎◌, ℕ, Err, IfErr, IfOk, OnOk, length, map, slice_get};
ghost use Rattle.lc_model.specs.Merge.{IsLeast, MergesTo};
ghost use Rattle.lc_record.specs.Content.{Content};
ghost use Rattle.lc_recover.specs.Fault.{IsRefusal};
ghost use Rattle.lc_recover.specs.Forecast.{IsForecast};
ghost use Rattle.lc_recover.specs.Reads.{area_len, AreHonest, AreLeftAs, HaveLengths, store_of};
ghost use Rattle.lc_recover.specs.declared.fault.RecoverFault.TheVariants.{BadGeometry, DeviceFault as Failed};
ghost use Rattle.lc_recover.specs.declared.fault.RecoverFault.TheVariants.{NoMemory};

use crate::{Forecast, RecoverFault, Survey};
use lc_disk::Area;
use lc_record::Geometry;
use std::alloc::Global;

/// What a recovery of these areas would make of their store. It reads each area once, whole, syncs none and writes to
/// none.
///
/// # Errors
///
/// Those of `Survey::read`, and then those of `Survey::forecast`.
pub fn survey_areas<D: Area>(
    alloc: Global,
    geometry: &Geometry,
    areas: &mut [D],
) -> Result<Forecast, RecoverFault>
    ensures right { OnOk result (HaveLengths D.Area geometry.now areas.old) }
    ensures wrong { (area : ℕ) → IsLeast
        (λ k. slice_get (map (λ d. length (D.now d)) areas.old) k ≢ area_len geometry.now k) area
        → (result ≡ Err (BadGeometry area)) }

    // The merge of what the areas read as is refused just where it has to be, unless a device has failed or there was
    // no memory. What was read of an area that is not honest may be anything.
    ensures refused { IfErr result (λ fault. HaveLengths D.Area geometry.now areas.old → AreHonest D.Area areas.old
        → (fault ≡ Failed → ⊥)
        → IsRefusal (store_of geometry.now (map D.now areas.old)) fault) }
    ensures accepted { (content : Content) (numbers : ℕ → ℕ) → HaveLengths D.Area geometry.now areas.old
        → AreHonest D.Area areas.old
        → MergesTo (store_of geometry.now (map D.now areas.old)) content numbers
        → IfErr result (λ fault. (fault ≡ NoMemory) ⊎ (fault ≡ Failed)) }
    ensures merged { IfOk result IsForecast }
    ensures geometry { IfOk result (λ forecast. forecast.geometry ≡ geometry.now) }
    ensures read { IfOk result (λ forecast. AreHonest D.Area areas.old
        → forecast.store ≡ store_of geometry.now (map D.now areas.old)) }

    // Also after a fault.
    ensures left { AreLeftAs D.Area areas.old areas.new }
    ensures honest { AreHonest D.Area areas.old → AreHonest D.Area areas.new }
    ensures reads { AreHonest D.Area areas.old → map D.now areas.new ≡ map D.now areas.old }
{
    Survey::read(alloc, geometry, areas)?.forecast(alloc)
}
