//! Why a script stops before its end.

use crate::WriteFault;
use std::alloc::AllocError;
use std::io;

/// Why a command did not come to its end.
#[derive(Clone, Copy)]
pub(crate) enum Stop {
    /// There was no memory, and nothing was written.
    NoMemory,
    /// The writer failed.
    Write,
}

impl From<AllocError> for Stop {
    ghost use Rattle.std.specs.Prelude.{◌≡◌};
    ghost use Rattle.lc_tool.specs.declared.stop.Stop.TheVariants.{NoMemory};

    ghost from_gives = { λ _ stop. stop ≡ NoMemory };

    fn from(_error: AllocError) -> Stop {
        Stop::NoMemory
    }
}

impl From<io::Error> for Stop {
    ghost use Rattle.std.specs.Prelude.{◌≡◌};
    ghost use Rattle.lc_tool.specs.declared.stop.Stop.TheVariants.{Write};

    ghost from_gives = { λ _ stop. stop ≡ Write };

    fn from(_error: io::Error) -> Stop {
        Stop::Write
    }
}

impl From<WriteFault> for Stop {
    ghost use Rattle.std.specs.Prelude.{◌≡◌};
    ghost use Rattle.lc_tool.specs.declared.stop.Stop.TheVariants.{Write};

    ghost from_gives = { λ _ stop. stop ≡ Write };

    fn from(_fault: WriteFault) -> Stop {
        Stop::Write
    }
}
