//! The whole program.
ghost use Rattle.std.specs.Prelude.{◌≡◌, ◌⊎◌, ℕ, true, Err, IfOk, Ok};
ghost use Rattle.std.specs.Io.KnownBytes.{Keeps};
ghost use Rattle.lc_look.specs.Printed.{Adds, NoMemory};
ghost use Rattle.lc_words.specs.CommandLine.{is_faulty, IsAskedBySome};

use crate::ToolFault;
use crate::answering::answer;
use crate::noted::Noted;
use crate::scripts::no_memory;
use crate::telling::ErrorOutput;
use lc_files::SharedFile;
use lc_look::FAULTED;
use lc_words::{Asked, read_command_line};
use std::alloc::{AllocError, Global};
use std::env;
use std::io::{self, BufWriter, ErrorKind, Read, Write};
use std::rt::{Env, Files};

/// Reads the command line, does what it asks for over standard input and output, and answers the status to end with.
/// What failed, and why, is said on standard error, of which the caller says what it is.
pub fn run_program<R: AllocGlobal + Env + Files + Input + Print + Eprint>(
    rt: &R,
    errors: ErrorOutput,
) -> u8
where
    R::File: SharedFile,
{
    let alloc = rt.alloc();
    let mut input = Noted::new(rt.reader());
    let mut output = Noted::new(io::writer(rt));
    let status = match asked_for(alloc, rt) {
        Ok(asked) => status_of(
            buffered(alloc, rt, errors, &asked, &mut input, &mut output),
            &mut output,
        ),
        Err(AllocError) => status_of(Err(ToolFault::NoMemory), &mut output),
    };
    input.tell(rt, "standard input");
    output.tell(rt, "standard output");
    status
}

// What the command line asks for. Words that are no text are not understood.
fn asked_for<R: AllocGlobal + Env>(alloc: Global, rt: &R) -> Result<Asked, AllocError>
    ensures { IfOk result (λ asked. IsAskedBySome asked ⊎ (is_faulty asked ≡ true)) }
{
    match env::args(rt) {
        Ok(args) => {
            let words: Vec<String> = args.collect(alloc)?;
            read_command_line(alloc, words.as_slice())
        }
        Err(error) if error.kind() == ErrorKind::OutOfMemory => Err(AllocError),
        Err(_) => Ok(Asked::Faulty(String::from_str(alloc, "a word is no text\n")?)),
    }
}

// The answer, of which all that is printed has gone out.
fn buffered<R: Files + Eprint, I: Read, W: Write>(
    alloc: Global,
    rt: &R,
    errors: ErrorOutput,
    asked: &Asked,
    input: &mut I,
    output: &mut W,
) -> Result<u8, ToolFault>
where
    R::File: SharedFile,
{
    let Ok(mut writer) = BufWriter::new(alloc, output) else {
        return Err(ToolFault::NoMemory);
    };
    let status = answer(alloc, rt, errors, asked, input, &mut writer)?;
    match writer.flush() {
        Ok(()) => Ok(status),
        Err(_) => Err(ToolFault::Write),
    }
}

// The status to end with: the one that was answered; 1 after the line that tells of want of memory, where it could be
// written; and else 3.
fn status_of<W: Write>(answered: Result<u8, ToolFault>, output: &mut W) -> u8
    ensures answered { (status : ℕ) → answered ≡ Ok status
        → (result ≡ status) × Keeps (W.contents output.old) (W.contents output.new) }
    ensures memory { answered ≡ Err ToolFault.NoMemory
        → (result ≡ 3) ⊎ Adds NoMemory (W.contents output.old) (W.contents output.new) result }
    ensures read { answered ≡ Err ToolFault.Read
        → (result ≡ 3) × Keeps (W.contents output.old) (W.contents output.new) }
    ensures written { answered ≡ Err ToolFault.Write
        → (result ≡ 3) × Keeps (W.contents output.old) (W.contents output.new) }
{
    match answered {
        Ok(status) => status,
        Err(ToolFault::NoMemory) => no_memory(output).unwrap_or(FAULTED),
        Err(ToolFault::Read | ToolFault::Write) => FAULTED,
    }
}
