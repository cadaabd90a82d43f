//! Why a script was not read, or what it prints not written.
ghost use Rattle.std.specs.Prelude.{◌≡◌};
ghost use Rattle.lc_text.specs.declared.script_fault.ScriptFault.TheVariants.{Write};

use crate::write_fault::WriteFault;
use thiserror::Error;

/// A fault of the reader of a script, or of the writer.
#[derive(Clone, Copy, Debug, PartialEq, Eq, Error)]
pub enum ScriptFault {
    /// The reader failed; a read that was interrupted counts too.
    #[error("the script could not be read")]
    Read,
    /// The writer failed. Nothing is said of how much went out.
    #[error("the output could not be written")]
    Write,
}

impl From<WriteFault> for ScriptFault {
    ghost from_gives = { λ _ fault. fault ≡ Write };

    fn from(_fault: WriteFault) -> ScriptFault {
        ScriptFault::Write
    }
}
