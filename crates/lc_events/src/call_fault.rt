//! Why a call is not carried out.
ghost use Rattle.std.specs.Prelude.{◌≡◌};
ghost use Rattle.lc_events.specs.declared.call_fault.CallFault.TheVariants.{NoMemory, Refused};

use lc_model::Refusal;
use std::alloc::AllocError;

/// Why a call that may want memory is not carried out.
#[derive(Clone, Copy, PartialEq, Eq)]
pub enum CallFault {
    /// The store refuses it.
    Refused(Refusal),
    /// There is no memory. Nothing has changed, and no area was called.
    NoMemory,
}

impl From<AllocError> for CallFault {
    ghost from_gives = { λ _ fault. fault ≡ NoMemory };

    fn from(_error: AllocError) -> CallFault {
        CallFault::NoMemory
    }
}

impl From<Refusal> for CallFault {
    ghost from_gives = { λ refusal fault. fault ≡ Refused refusal };

    fn from(refusal: Refusal) -> CallFault {
        CallFault::Refused(refusal)
    }
}
