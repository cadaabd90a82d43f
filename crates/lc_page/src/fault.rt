//! Why a page write does not begin, or ends.
use thiserror::Error;

/// Why a page write does not begin, or ends before its time.
#[derive(Clone, Copy, Debug, PartialEq, Eq, Error)]
pub enum PageFault {
    /// There are uncommitted references to the page.
    #[error("the page has uncommitted bytes")]
    Uncommitted,
    /// The number is not above the page's sequence.
    #[error("the number is not above the page's sequence")]
    NotNewer,
    /// The device failed.
    #[error("the device failed")]
    DeviceFault,
}

impl PageFault {
    ghost use Rattle.std.specs.Prelude.{◌≡◌};
    ghost use Rattle.lc_page.specs.Fault.{code_of};

    /// The fault's number.
    pub fn code(&self) -> u8
        ensures { result ≡ code_of self.now }
    {
        match self {
            PageFault::Uncommitted => 1,
            PageFault::NotNewer => 2,
            PageFault::DeviceFault => 3,
        }
    }
}
