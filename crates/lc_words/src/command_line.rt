//! The command line of the program.
ghost use Rattle.std.specs.Prelude.{IfOk, map};
ghost use Rattle.lc_words.specs.CommandLine.{IsAskedBy};

use crate::Asked;
use crate::options::asked_of;
use crate::program::program;
use clap::error::ErrorKind;
use std::alloc::{AllocError, Global};
use std::convert::AsStr;

/// What these words ask for. The first of them is the program's name, the second one names the subcommand.
///
/// A run, an init and a recovery take the five options of a store's size: nodes (1 to 8), threads (1 to 16), segments
/// (1 to 16), pages (1 to 1024) and words (64 to 4096). One that is left out is 1, and 64 for words. An option that is
/// there twice, a number outside its range, a folder or a file that is missing and any other word more are not
/// understood. An empty word is a word too: it is then the folder or the file that is asked for. Words that have a
/// fault come with the parser's reason.
///
/// The only error is want of memory.
pub fn read_command_line<'a, S: AsStr>(alloc: Global, words: &'a [S]) -> Result<Asked, AllocError>
    ensures { IfOk result (IsAskedBy (map S.text words.entry.now)) }
{
    let command = program(alloc)?;
    match command.try_get_matches_from(words) {
        Ok(matches) => asked_of(alloc, &matches),
        Err(error) => match error.kind() {
            ErrorKind::OutOfMemory => Err(AllocError),
            ErrorKind::DisplayHelp => Ok(Asked::Help(error.to_string(alloc)?)),
            ErrorKind::DisplayVersion => Ok(Asked::Version(error.to_string(alloc)?)),
            _ => Ok(Asked::Faulty(error.to_string(alloc)?)),
        },
    }
}
