//! Why a store in a folder is not opened.
ghost use Rattle.std.specs.Prelude.{◌≡◌};
ghost use Rattle.lc_store.specs.Opening.{of_recovery, of_size, of_unopened};
ghost use Rattle.lc_store.specs.declared.store_open_fault.StoreOpenFault.TheVariants.{NotUp};

use lc_core::CallFault;
use lc_files::{FolderFault, Misfit, SizeFault, Unopened};
use lc_recover::RecoverFault;
use std::fmt;
use thiserror::Error;

/// Why a store in a folder is not opened.
#[derive(Clone, Copy, PartialEq, Eq, Error)]
pub enum StoreOpenFault {
    /// The folder or one of its files could not be opened, or another process has the store open; `StoreFolder::fault`
    /// says what, and why.
    #[error("the files of the store could not be opened")]
    Folder(FolderFault),
    /// No file of the folder says the store's size, and the others are those of no store.
    #[error("the files are those of no store")]
    NoStore(Misfit),
    /// A node has 1 to 16 threads.
    #[error("a node has 1 to 16 threads")]
    BadThreads,
    /// The file of this area has not the length of the geometry, or is one too many, or the store's own file says
    /// another size, whose files differ first at this area. The areas are the logs of the nodes and then the segments.
    #[error("area {area} does not fit the geometry")]
    BadGeometry { area: u32 },
    /// The store does not come up: its recovery is refused, a device failed in it, or there is no memory for it.
    #[error("the store does not come up")]
    NotUp(CallFault),
}

impl fmt::Debug for StoreOpenFault {
    fn fmt<W: fmt::Write>(&self, f: &mut fmt::Formatter<W>) -> fmt::Result {
        write!(f, "{self}")
    }
}

impl From<Unopened> for StoreOpenFault {
    ghost from_gives = { λ fault own. own ≡ of_unopened fault };

    fn from(fault: Unopened) -> StoreOpenFault {
        match fault {
            Unopened::Folder(fault) => StoreOpenFault::Folder(fault),
            Unopened::OtherSize { area } => StoreOpenFault::BadGeometry { area },
        }
    }
}

impl From<SizeFault> for StoreOpenFault {
    ghost from_gives = { λ fault own. own ≡ of_size fault };

    fn from(fault: SizeFault) -> StoreOpenFault {
        match fault {
            SizeFault::Misfit(misfit) => StoreOpenFault::NoStore(misfit),
            SizeFault::Folder(fault) => StoreOpenFault::Folder(fault),
        }
    }
}

impl From<CallFault> for StoreOpenFault {
    ghost from_gives = { λ fault own. own ≡ NotUp fault };

    fn from(fault: CallFault) -> StoreOpenFault {
        StoreOpenFault::NotUp(fault)
    }
}

impl From<RecoverFault> for StoreOpenFault {
    ghost from_gives = { λ fault own. own ≡ NotUp (of_recovery fault) };

    fn from(fault: RecoverFault) -> StoreOpenFault {
        match fault.refusal() {
            Some(refusal) => StoreOpenFault::NotUp(CallFault::Refused(refusal)),
            None => StoreOpenFault::NotUp(CallFault::NoMemory),
        }
    }
}
