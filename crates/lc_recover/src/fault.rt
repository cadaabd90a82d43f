//! Why a recovery does not go on.
ghost use Rattle.lc_recover.specs.declared.fault.RecoverFault.TheVariants.{NoMemory, DeviceFault as Failed};
ghost use Rattle.std.specs.Prelude.{◌≡◌};

use lc_disk::DeviceFault;
use lc_model::Refusal;
use std::alloc::AllocError;
use thiserror::Error;

/// Why a recovery does not go on. After `NoMemory` the same step may be tried again, after any other fault the next
/// step begins again with the first sync.
#[derive(Clone, Copy, Debug, PartialEq, Eq, Error)]
pub enum RecoverFault {
    /// The length of an area is not that of the geometry, there is no such area or one too many, or a record of this
    /// log names another node.
    #[error("area {area} does not fit the geometry")]
    BadGeometry { area: u32 },
    /// No record has this number of the segment, and one has a greater one.
    #[error("record {seq} of segment {segment} is missing")]
    Gap { segment: u32, seq: u64 },
    /// Two records have this number of the segment.
    #[error("record {seq} of segment {segment} stands twice")]
    Twice { segment: u32, seq: u64 },
    /// A record of this log is of a segment that the store does not have, or reaches past one.
    #[error("a record of area {area} lies outside of the segments")]
    OutOfSegment { area: u32 },
    /// The device failed.
    #[error("the device failed")]
    DeviceFault,
    /// There is no memory.
    #[error("there is no memory")]
    NoMemory,
}

impl RecoverFault {
    ghost use Rattle.lc_recover.specs.Fault.{code_of, refusal_to};

    /// The fault's number.
    pub fn code(&self) -> u8
        ensures { result ≡ code_of self.now }
    {
        match self {
            RecoverFault::BadGeometry { .. } => 1,
            RecoverFault::Gap { .. } => 2,
            RecoverFault::Twice { .. } => 3,
            RecoverFault::OutOfSegment { .. } => 4,
            RecoverFault::DeviceFault => 5,
            RecoverFault::NoMemory => 6,
        }
    }

    /// The refusal with which a store answers the fault: that of the same name and fields. Want of memory is no
    /// refusal.
    pub fn refusal(self) -> Option<Refusal>
        ensures { result ≡ refusal_to self }
    {
        match self {
            RecoverFault::BadGeometry { area } => Some(Refusal::BadGeometry { area }),
            RecoverFault::Gap { segment, seq } => Some(Refusal::Gap { segment, seq }),
            RecoverFault::Twice { segment, seq } => Some(Refusal::Twice { segment, seq }),
            RecoverFault::OutOfSegment { area } => Some(Refusal::OutOfSegment { area: Some(area) }),
            RecoverFault::DeviceFault => Some(Refusal::DeviceFault),
            RecoverFault::NoMemory => None,
        }
    }
}

impl From<AllocError> for RecoverFault {
    ghost from_gives = { λ _ fault. fault ≡ NoMemory };

    fn from(_error: AllocError) -> RecoverFault {
        RecoverFault::NoMemory
    }
}

impl From<DeviceFault> for RecoverFault {
    ghost from_gives = { λ _ fault. fault ≡ Failed };

    fn from(_error: DeviceFault) -> RecoverFault {
        RecoverFault::DeviceFault
    }
}
