//! Why a file gives no area.
use thiserror::Error;

/// Why there is no area over a file.
#[derive(Clone, Copy, Debug, PartialEq, Eq, Error)]
pub enum OpenFault {
    /// The file could not be opened or made, or is no regular file; or its zeros could not be written and synced.
    #[error("the file could not be opened")]
    NotOpened,
    /// Where a file was to be made, something stands already.
    #[error("there is such a file already")]
    Exists,
    /// There is no memory.
    #[error("out of memory")]
    NoMemory,
}

impl OpenFault {
    ghost use Rattle.std.specs.Prelude.{◌≡◌};
    ghost use Rattle.lc_disk.specs.OpenFault.{open_fault_number};

    /// The fault's number.
    pub fn code(&self) -> u8
        ensures { result ≡ open_fault_number self.now }
    {
        match self {
            OpenFault::NotOpened => 1,
            OpenFault::Exists => 2,
            OpenFault::NoMemory => 3,
        }
    }
}
