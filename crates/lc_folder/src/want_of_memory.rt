//! Want of memory, as a fault of a folder.
ghost use Rattle.std.specs.Prelude.{◌≡◌};
ghost use Rattle.lc_folder.specs.declared.folder.FolderFault.TheVariants.{NoMemory};

use crate::folder::FolderFault;
use std::alloc::AllocError;

impl From<AllocError> for FolderFault {
    ghost from_gives = { λ _ fault. fault ≡ NoMemory };

    fn from(_error: AllocError) -> FolderFault {
        FolderFault::NoMemory
    }
}
