//! Why a log is not shown.
ghost use Rattle.std.specs.Prelude.{◌≡◌};
ghost use Rattle.lc_journal.specs.declared.show_fault.ShowFault.TheVariants.{DeviceFault as Failed, NoMemory};

use lc_disk::DeviceFault;
use std::alloc::AllocError;
use thiserror::Error;

/// Why the words of a log are not shown.
#[derive(Clone, Copy, Debug, PartialEq, Eq, Error)]
pub enum ShowFault {
    /// The store has no such node.
    #[error("there is no log of this node")]
    Unknown,
    /// The device of the log failed.
    #[error("the device failed")]
    DeviceFault,
    /// There is no memory.
    #[error("there is no memory")]
    NoMemory,
}

impl From<AllocError> for ShowFault {
    ghost from_gives = { λ _ fault. fault ≡ NoMemory };

    fn from(_error: AllocError) -> ShowFault {
        ShowFault::NoMemory
    }
}

impl From<DeviceFault> for ShowFault {
    ghost from_gives = { λ _ fault. fault ≡ Failed };

    fn from(_error: DeviceFault) -> ShowFault {
        ShowFault::DeviceFault
    }
}
