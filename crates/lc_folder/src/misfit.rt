//! Why the files of a folder are not those of a store.
ghost use Rattle.std.specs.Prelude.{OnOk};
ghost use Rattle.std.specs.Io.KnownBytes.{Appends};
ghost use Rattle.lc_folder.specs.Found.{misfit_text};

use crate::file_name::FileName;
use std::io;
use std::io::Write;

/// Why the files of a folder are not those of a store of some size.
#[derive(Clone, Copy, PartialEq, Eq)]
pub enum Misfit {
    /// This file is not there, and it is the first of its kind, or one after it is there.
    Missing(FileName),
    /// This file, the first of its kind, is as long as no file of its kind.
    NoLen(FileName),
    /// This file is not as long as the first of its kind.
    OtherLen(FileName),
}

/// Writes the line of a misfit.
pub fn write_misfit<W: Write>(writer: &mut W, misfit: Misfit) -> io::Result<()>
    ensures { OnOk result (Appends (W.contents writer.old) (W.contents writer.new) (misfit_text misfit)) }
{
    match misfit {
        Misfit::Missing(name) => write!(writer, "{name} is missing\n"),
        Misfit::NoLen(name) => write!(writer, "{name} has a length of no store\n"),
        Misfit::OtherLen(name) => write!(writer, "{name} has another length than the first\n"),
    }
}
