//! What the program answers.
ghost use Rattle.std.specs.Prelude.{◌≡◌, IfOk, IfSome};
ghost use Rattle.lc_tool.specs.Asked.{AnswersAsked, PrintsHelp, RunsNew};
ghost use Rattle.lc_tool.specs.Script.{given_as};

use crate::checking_json::check_asked;
use crate::copying::copy_store;
use crate::line_list::LINE_LIST;
use crate::log_file::inspect_file;
use crate::looking::{draw_store, dump_page};
use crate::manner::Manner;
use crate::scripts::{no_memory, run_told};
use crate::sizing::{recover_sized, run_sized};
use crate::stores::init_store;
use crate::telling::ErrorOutput;
use crate::{ScriptFault, WriteFault};
use lc_files::SharedFile;
use lc_look::{DONE, NOT_UNDERSTOOD, Silent};
use lc_record::Geometry;
use lc_recover::zero_areas;
use lc_words::{Asked, RunStore};
use std::alloc::{AllocError, Global};
use std::io::{Read, Write};
use std::rt::Files;

// Why a store in memory is of no size that is found.
const NO_FILES: &str = "--as-found: a store in memory has no files; --store DIR names one that has
";

/// Does what a command line asks for, and answers the status that the program ends with. It is 0 where the run came to
/// its end and nothing was refused, and 1 where something was refused or there was no memory. It is 2 where something
/// was not understood, and 3 where a device failed. A script comes from the reader. What failed over files, and why, is
/// said on standard error; on a terminal it also shows how far a recovery is that has more than a thousand pages to
/// write. An `Err` is a fault of the reader or of the writer.
pub fn answer<R: Files + Eprint, I: Read, W: Write>(
    alloc: Global,
    rt: &R,
    errors: ErrorOutput,
    asked: &Asked,
    reader: &mut I,
    writer: &mut W,
) -> Result<u8, ScriptFault>
where
    R::File: SharedFile,
    ensures answers { IfOk result (λ status.
        AnswersAsked asked.now (I.remaining reader.old) (W.contents writer.old) (W.contents writer.new) status) }
{
    match asked {
        Asked::Run {
            store,
            follow,
            number,
        } => {
            let manner = Manner {
                follow: *follow,
                number: *number,
            };
            match store {
                RunStore::New(geometry) => run_new(alloc, *geometry, manner, reader, writer),
                RunStore::InFolder { folder, size } => {
                    run_sized(alloc, rt, errors, folder, size, manner, reader, writer)
                }
            }
        }
        Asked::Init { folder, geometry } => Ok(init_store(alloc, rt, folder, *geometry, writer)?),
        Asked::Recover { folder, size } => Ok(recover_sized(
            alloc, rt, errors, folder, size, writer,
        )?),
        Asked::Check { folder, size, json } => {
            Ok(check_asked(alloc, rt, folder, size, *json, writer)?)
        }
        Asked::Dump {
            folder,
            segment,
            page,
        } => Ok(dump_page(alloc, rt, folder, *segment, *page, writer)?),
        Asked::Draw { folder } => Ok(draw_store(alloc, rt, folder, writer)?),
        Asked::Copy { folder, to, wanted } => Ok(copy_store(
            alloc, rt, folder, to, wanted, writer,
        )?),
        Asked::Inspect { file, reverse } => Ok(inspect_file(alloc, rt, file, *reverse, writer)?),
        Asked::Lines => Ok(help(LINE_LIST, writer)?),
        Asked::Help(text) | Asked::Version(text) => Ok(help(text, writer)?),
        Asked::Faulty(reason) => Ok(not_understood(rt, reason)),
        Asked::NotUnderstood => Ok(not_understood(rt, NO_FILES)),
    }
}

// Says on standard error that the command line is not understood, and why.
fn not_understood<R: Eprint>(rt: &R, reason: &str) -> u8
    ensures { result ≡ 2 }
{
    let _ = rt.eprintln("command line not understood");
    let _ = rt.eprint(reason);
    NOT_UNDERSTOOD
}

// Runs a script on a new store in memory, zeros.
fn run_new<I: Read, W: Write>(
    alloc: Global,
    geometry: Geometry,
    manner: Manner,
    reader: &mut I,
    writer: &mut W,
) -> Result<u8, ScriptFault>
    ensures runs { IfOk result (λ status. IfSome (I.remaining reader.old) (λ script.
        RunsNew geometry (given_as manner script) (W.contents writer.old) (W.contents writer.new) status)) }
{
    match zero_areas(alloc, &geometry) {
        Ok(areas) => run_told(alloc, geometry, manner, areas, &Silent, reader, writer),
        Err(AllocError) => Ok(no_memory(writer)?),
    }
}

// Prints a help text.
fn help<W: Write>(text: &str, writer: &mut W) -> Result<u8, WriteFault>
    ensures prints { IfOk result (λ status.
        PrintsHelp text.now (W.contents writer.old) (W.contents writer.new) status) }
{
    writer.write_all(text.as_bytes())?;
    Ok(DONE)
}
