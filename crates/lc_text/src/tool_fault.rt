//! Why a script or an inspection did not come to its end.
ghost use Rattle.std.specs.Prelude.{◌≡◌};
ghost use Rattle.lc_text.specs.Fault.{number_of, of_script};
ghost use Rattle.lc_text.specs.declared.tool_fault.ToolFault.TheVariants.{Write};

use crate::script_fault::ScriptFault;
use crate::write_fault::WriteFault;
use thiserror::Error;

/// A fault of the reader or of the writer, or, of an inspection alone, want of memory.
#[derive(Clone, Copy, Debug, PartialEq, Eq, Error)]
pub enum ToolFault {
    /// The reader failed; a read that was interrupted counts too.
    #[error("the script could not be read")]
    Read,
    /// The writer failed. Nothing is said of how much went out.
    #[error("the output could not be written")]
    Write,
    /// There is no memory, and nothing was written.
    #[error("out of memory")]
    NoMemory,
}

impl ToolFault {
    /// The fault's number.
    pub fn code(&self) -> u8
        ensures { result ≡ number_of self.now }
    {
        match self {
            ToolFault::Read => 1,
            ToolFault::Write => 2,
            ToolFault::NoMemory => 3,
        }
    }
}

impl From<WriteFault> for ToolFault {
    ghost from_gives = { λ _ fault. fault ≡ Write };

    fn from(_fault: WriteFault) -> ToolFault {
        ToolFault::Write
    }
}

impl From<ScriptFault> for ToolFault {
    ghost from_gives = { λ fault own. own ≡ of_script fault };

    fn from(fault: ScriptFault) -> ToolFault {
        match fault {
            ScriptFault::Read => ToolFault::Read,
            ScriptFault::Write => ToolFault::Write,
        }
    }
}
