//! The steps that sync the areas.
ghost use Rattle.std.specs.Prelude.{◌≡◌, ◌+◌, ℕ, OnOk, map, is_ok, true};
ghost use Rattle.lc_record.specs.Content.{Content};
ghost use Rattle.lc_recover.specs.Reads.{AreHonest, AllMergeTo};
ghost use Rattle.lc_recover.specs.RecoveryPhase.{AreasFit, Fits, OneCall};
ghost use Rattle.lc_recover.specs.declared.recovery_phase.RecoveryPhase.{RecoveryPhase};

use lc_disk::{Area, DeviceFault};
use lc_record::Geometry;

/// Syncs an area.
pub(crate) fn sync_area<D: Area>(
    geometry: &Geometry,
    areas: &mut [D],
    synced: usize,
) -> Result<(), DeviceFault>
    requires { Fits D.Area geometry.now (RecoveryPhase.Syncing synced) areas.old }
    ensures fits { OnOk result (AreasFit D.Area geometry.now (RecoveryPhase.Syncing (synced + 1)) areas.new) }
    ensures areas { AreasFit D.Area geometry.now (RecoveryPhase.Syncing 0) areas.new }
    ensures call { OneCall D.Area synced areas.old areas.new (is_ok result) }
    ensures reads { AreHonest D.Area areas.old → map D.now areas.new ≡ map D.now areas.old }
    ensures merges { (content : Content) (numbers : ℕ → ℕ) → AreHonest D.Area areas.new
        → AllMergeTo D.Area geometry.now areas.old content numbers
        → AllMergeTo D.Area geometry.now areas.new content numbers }
{
    areas[synced].sync()
}
