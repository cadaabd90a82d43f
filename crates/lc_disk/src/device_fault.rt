//! The fault of a device.
use thiserror::Error;

/// The device failed. This comes only where its count of failures rose in that call.
#[derive(Clone, Copy, Debug, PartialEq, Eq, Error)]
#[error("the device failed")]
pub struct DeviceFault;

impl DeviceFault {
    ghost use Rattle.std.specs.Prelude.{◌≡◌};

    /// The fault's number.
    pub fn code(&self) -> u8
        ensures { result ≡ 1 }
    {
        1
    }
}
