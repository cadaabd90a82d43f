//! A step of a recovery that was not made.
ghost use Rattle.std.specs.Prelude.{◌≡◌};
ghost use Rattle.lc_recover.specs.declared.fault.RecoverFault.TheVariants.{NoMemory, DeviceFault as Failed};
ghost use Rattle.lc_recover.specs.declared.recovery_phase.RecoveryPhase.{RecoveryPhase};

use crate::RecoverFault;
use crate::read_areas::ReadAreas;
use crate::recovery_phase::RecoveryPhase;
use lc_disk::DeviceFault;

/// A step of a recovery that was not made: why, and where to go on.
#[derive(Drop)]
pub(crate) struct Stopped {
    pub(crate) stage: RecoveryPhase,
    pub(crate) fault: RecoverFault,
}

impl From<DeviceFault> for Stopped {
    ghost from_gives = { λ _ stopped. stopped ≡ record { stage = RecoveryPhase.Syncing 0; fault = Failed } };

    fn from(_error: DeviceFault) -> Stopped {
        Stopped {
            stage: RecoveryPhase::Syncing(0),
            fault: RecoverFault::DeviceFault,
        }
    }
}

impl Stopped {
    /// Where memory was wanted the same step may be tried again, else the first sync is next.
    pub(crate) fn new(read: ReadAreas, fault: RecoverFault) -> Stopped
        ensures fault { result.fault ≡ fault }
        ensures kept { fault ≡ NoMemory → result.stage ≡ RecoveryPhase.Reading read }
        ensures again { (fault ≡ NoMemory → ⊥) → result.stage ≡ RecoveryPhase.Syncing 0 }
    {
        let stage = match fault {
            RecoverFault::NoMemory => RecoveryPhase::Reading(read),
            _ => RecoveryPhase::Syncing(0),
        };
        Stopped { stage, fault }
    }
}
