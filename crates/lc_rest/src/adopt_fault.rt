//! Why a cluster at rest is not adopted.
ghost use Rattle.std.specs.Prelude.{◌≡◌};
ghost use Rattle.lc_rest.specs.declared.adopt_fault.AdoptFault.TheVariants.{DeviceFault as Failed, NoMemory};

use crate::cluster_part::ClusterPart;
use lc_disk::DeviceFault;
use std::alloc::AllocError;
use thiserror::Error;

/// Why a cluster at rest does not become a store that is up.
#[derive(Clone, Copy, Debug, PartialEq, Eq, Error)]
pub enum AdoptFault {
    /// This part does not agree with the others.
    #[error("{0} does not agree with the rest of the cluster")]
    Mismatch(ClusterPart),
    /// There is no memory.
    #[error("there is no memory")]
    NoMemory,
    /// The device failed.
    #[error("the device failed")]
    DeviceFault,
}

impl AdoptFault {
    ghost use Rattle.lc_rest.specs.AdoptFault.{number_of};

    /// The fault's number.
    pub fn code(&self) -> u8
        ensures { result ≡ number_of self.now }
    {
        match self {
            AdoptFault::Mismatch(_) => 1,
            AdoptFault::NoMemory => 2,
            AdoptFault::DeviceFault => 3,
        }
    }
}

impl From<AllocError> for AdoptFault {
    ghost from_gives = { λ _ fault. fault ≡ NoMemory };

    fn from(_error: AllocError) -> AdoptFault {
        AdoptFault::NoMemory
    }
}

impl From<DeviceFault> for AdoptFault {
    ghost from_gives = { λ _ fault. fault ≡ Failed };

    fn from(_error: DeviceFault) -> AdoptFault {
        AdoptFault::DeviceFault
    }
}
