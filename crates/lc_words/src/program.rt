//! The subcommands of the program, with their options and their help.
ghost use Rattle.std.specs.Prelude.{◌≡◌, IfOk, codes, false};
ghost use Rattle.clap.specs.Words.{App, app_of, new_app, rule_of, with_rule, with_subcommand};
ghost use Rattle.lc_words.specs.CommandLine.{IsLike, check_app, copy_app, draw_app, dump_app, flag_rule, folder_app};
ghost use Rattle.lc_words.specs.CommandLine.{init_app, inspect_app, lines_app, number_rule, option_rule, program_app};
ghost use Rattle.lc_words.specs.CommandLine.{recover_app, run_app, sized_app, store_rule, top_app, with_sizes};
ghost use Rattle.lc_words.specs.CommandLine.{word_rule};

use clap::builder::ValueParser;
use clap::{Arg, ArgAction, Command, value_parser};
use std::alloc::{AllocError, Global};

// What stands after the options in the help of each subcommand.
const RUN_HELP: &str = "Statuses:
  0  all lines were done
  1  a line or the recovery was refused, or there was no memory
  2  a line was not understood, or the script was too long
  3  a device failed, or the script could not be read, or a reply not written

Example:
  lcrvm run --pages 4 --store bank < transfers.txt
  lcrvm run --follow --number";

const INIT_HELP: &str = "Statuses:
  0  the files are made, and stable
  1  a file of the store is there already, or there was no memory
  2  the command line was not understood
  3  a file could not be made or synced

Example:
  lcrvm init bank --pages 4";

const RECOVER_HELP: &str = "Statuses:
  0  the store is recovered
  1  the logs or the pages are refused, or there was no memory
  2  the command line was not understood
  3  a device failed, or the store is in use

Example:
  lcrvm recover bank --as-found";

const CHECK_HELP: &str = "Statuses:
  0  the store would recover
  1  the files do not fit together, the logs or the pages are refused, or there was no memory
  2  the command line was not understood
  3  a device failed, or the store is in use

Example:
  lcrvm check bank
  lcrvm check bank --json";

const DUMP_HELP: &str = "Statuses:
  0  the page is printed
  1  the files do not fit together, the store has no such page, the logs or the pages are refused, or there was no memory
  2  the command line was not understood
  3  a device failed, or the store is in use

Example:
  lcrvm dump bank 1 0";

const DRAW_HELP: &str = "Statuses:
  0  the picture is printed
  1  the files do not fit together, the logs or the pages are refused, or there was no memory
  2  the command line was not understood
  3  a device failed, or the store is in use

Example:
  lcrvm draw bank > bank.svg";

const COPY_HELP: &str =
    "A number of the size that is not given is that of the store. The copy may have more pages in each segment,
or more segments, all zeros.

Statuses:
  0  the copy is made, and stable
  1  the files do not fit together, the copy would be too small, a file of a store is there already, or there was no memory
  2  the command line was not understood
  3  a device failed, or the store is in use

Example:
  lcrvm copy bank larger --pages 64";

const INSPECT_HELP: &str = "Statuses:
  0  the records are printed
  1  the file has not the length of a log, or there was no memory
  2  the command line was not understood
  3  the file could not be read

Example:
  lcrvm inspect bank/log0 --reverse";

const LINES_HELP: &str = "Statuses:
  0  the lines are printed
  2  the command line was not understood
  3  they could not be written

Example:
  lcrvm lines";

// The help of the folder of a store.
const STORE_FOLDER: &str = "Folder of the store, that init made";

// The version of the program.
const VERSION: &str = "0.1.0";

/// The command line that is understood.
pub fn program<'a>(alloc: Global) -> Result<Command<'a>, AllocError>
    ensures { IfOk result (λ command. app_of command ≡ program_app) }
{
    let command = with_subcommand(topmost(alloc)?, run(alloc))?;
    let command = with_subcommand(command, init(alloc))?;
    let command = with_subcommand(command, recover(alloc))?;
    let command = with_subcommand(command, inspect(alloc))?;
    let command = with_subcommand(command, lines(alloc))?;
    let command = with_subcommand(command, check(alloc))?;
    let command = with_subcommand(command, dump(alloc))?;
    let command = with_subcommand(command, draw(alloc))?;
    with_subcommand(command, copy(alloc))
}

// The program, without its subcommands.
fn topmost<'a>(alloc: Global) -> Result<Command<'a>, AllocError>
    ensures { IfOk result (λ command. IsLike command top_app) }
{
    let command = Command::new(alloc, "lcrvm").bin_name("lcrvm")?;
    Ok(
        command
            .version(VERSION)
            .about("A store of pages, with a log, that a script of commands reads and changes")
            .subcommand_required(true),
    )
}

// The command with one more subcommand, where that could be made.
fn with_subcommand<'a>(
    command: Command<'a>,
    made: Result<Command<'a>, AllocError>,
) -> Result<Command<'a>, AllocError>
    ensures { (app below : App) → IsLike command.entry app → IfOk made.entry (λ sub. IsLike sub below)
        → IfOk result (λ larger. IsLike larger (with_subcommand app below.top)) }
{
    command.subcommand(made?)
}

fn run<'a>(alloc: Global) -> Result<Command<'a>, AllocError>
    ensures { IfOk result (λ command. IsLike command run_app) }
{
    let command = with_size_options(alloc, run_command(alloc))?.arg(store(alloc))?;
    let command = with_flag(
        alloc,
        command,
        "follow",
        "Runs each line before the next is read, as a terminal or another program asks for it",
    )?;
    let command = with_flag(
        alloc,
        command,
        "number",
        "Puts the number of its line in front of each reply",
    )?;
    with_flag(
        alloc,
        command,
        "as-found",
        "Takes each number of the size that is not given from the store's files; with --store alone",
    )
}

// A run, without its options.
fn run_command<'a>(alloc: Global) -> Command<'a>
    ensures { IsLike result (new_app (codes "run")) }
{
    Command::new(alloc, "run")
        .about("Recovers a store, runs the script on standard input over it and prints the replies")
        .after_help(RUN_HELP)
}

// The folder of the store that is run on.
fn store<'a>(alloc: Global) -> Arg<'a>
    ensures rule { rule_of result ≡ store_rule }
    ensures local { result.global ≡ false }
{
    Arg::new(alloc, "store")
        .long("store")
        .value_name("DIR")
        .help("Folder of the store, that init made; without it the store is new and in memory")
}

fn init<'a>(alloc: Global) -> Result<Command<'a>, AllocError>
    ensures { IfOk result (λ command. IsLike command init_app) }
{
    let command = over_folder(
        alloc,
        "init",
        "Makes the files of a new store, all zeros",
        INIT_HELP,
        "Folder that the files are made in",
    )?;
    with_size_options(alloc, command)
}

fn recover<'a>(alloc: Global) -> Result<Command<'a>, AllocError>
    ensures { IfOk result (λ command. IsLike command recover_app) }
{
    over_sized(
        alloc,
        "recover",
        "Recovers a store from its logs and prints the number of each segment",
        RECOVER_HELP,
        "Takes each number of the size that is not given from the store's files",
    )
}

fn check<'a>(alloc: Global) -> Result<Command<'a>, AllocError>
    ensures { IfOk result (λ command. IsLike command check_app) }
{
    let command = over_sized(
        alloc,
        "check",
        "Prints what a recovery of a store would say, and changes nothing; of a size that is not given, the one that is found",
        CHECK_HELP,
        "Takes each number of the size that is not given from the store's files, also where another one is given",
    )?;
    with_flag(
        alloc,
        command,
        "json",
        "Prints it as one JSON object, whatever the status",
    )
}

fn dump<'a>(alloc: Global) -> Result<Command<'a>, AllocError>
    ensures { IfOk result (λ command. IsLike command dump_app) }
{
    over_folder(
        alloc,
        "dump",
        "Prints a page as it would be after a recovery, and its two slots, and changes nothing",
        DUMP_HELP,
        STORE_FOLDER,
    )?
    .arg(number(alloc, "segment", "SEGMENT", "Segment, from 1"))?
    .arg(number(alloc, "page", "PAGE", "Page of the segment, from 0"))
}

fn draw<'a>(alloc: Global) -> Result<Command<'a>, AllocError>
    ensures { IfOk result (λ command. IsLike command draw_app) }
{
    over_folder(
        alloc,
        "draw",
        "Prints a picture of a store, as SVG, and changes nothing",
        DRAW_HELP,
        STORE_FOLDER,
    )
}

fn copy<'a>(alloc: Global) -> Result<Command<'a>, AllocError>
    ensures { IfOk result (λ command. IsLike command copy_app) }
{
    let command = over_folder(
        alloc,
        "copy",
        "Copies a store that is at rest, also into a larger one, and changes nothing of it",
        COPY_HELP,
        STORE_FOLDER,
    )?;
    let command = command.arg(word(alloc, "to", "TO", "Folder that the copy is made in"))?;
    with_size_options(alloc, command)
}

fn inspect<'a>(alloc: Global) -> Result<Command<'a>, AllocError>
    ensures { IfOk result (λ command. IsLike command inspect_app) }
{
    Command::new(alloc, "inspect")
        .about("Prints the records of a log, one a line")
        .after_help(INSPECT_HELP)
        .arg(word(alloc, "file", "FILE", "File of the log"))?
        .arg(flag(
            alloc,
            "reverse",
            "Prints the last record first; without it the first one comes first",
        ))
}

fn lines<'a>(alloc: Global) -> Result<Command<'a>, AllocError>
    ensures { IfOk result (λ command. IsLike command lines_app) }
{
    Ok(
        Command::new(alloc, "lines")
            .about("Prints the lines that a script may have, with a sentence each")
            .after_help(LINES_HELP),
    )
}

// A subcommand over a folder, which has to be there.
fn over_folder<'a>(
    alloc: Global,
    name: &'a str,
    about: &'a str,
    after_help: &'a str,
    folder_help: &'a str,
) -> Result<Command<'a>, AllocError>
    ensures { IfOk result (λ command. IsLike command (folder_app name.entry.now)) }
{
    Command::new(alloc, name)
        .about(about)
        .after_help(after_help)
        .arg(word(alloc, "folder", "DIR", folder_help))
}

// A subcommand over a store whose size is given, or told by its files.
fn over_sized<'a>(
    alloc: Global,
    name: &'a str,
    about: &'a str,
    after_help: &'a str,
    as_found_help: &'a str,
) -> Result<Command<'a>, AllocError>
    ensures { IfOk result (λ command. IsLike command (sized_app name.entry.now)) }
{
    let command = over_folder(alloc, name, about, after_help, STORE_FOLDER)?;
    let command = with_size_options(alloc, command)?;
    with_flag(alloc, command, "as-found", as_found_help)
}

// The command with the five options of a store's size.
fn with_size_options<'a>(alloc: Global, command: Command<'a>) -> Result<Command<'a>, AllocError>
    ensures { (app : App) → IsLike command.entry app → IfOk result (λ larger. IsLike larger (with_sizes app)) }
{
    let command = with_option(
        alloc,
        command,
        "nodes",
        "Nodes that share the store, 1 to 8",
        "1",
        value_parser!(u32).range(1..=8),
    )?;
    let command = with_option(
        alloc,
        command,
        "threads",
        "Threads of each node, 1 to 16",
        "1",
        value_parser!(u32).range(1..=16),
    )?;
    let command = with_option(
        alloc,
        command,
        "segments",
        "Segments of the store, 1 to 16",
        "1",
        value_parser!(u32).range(1..=16),
    )?;
    let command = with_option(
        alloc,
        command,
        "pages",
        "Pages of 256 bytes in each segment, 1 to 1024",
        "1",
        value_parser!(u32).range(1..=1024),
    )?;
    with_option(
        alloc,
        command,
        "words",
        "Words of 8 bytes in each log, 64 to 4096",
        "64",
        value_parser!(u32).range(64..=4096),
    )
}

// The command with one more option, of one number.
fn with_option<'a>(
    alloc: Global,
    command: Command<'a>,
    name: &'a str,
    help: &'a str,
    default: &'a str,
    parser: ValueParser<'a>,
) -> Result<Command<'a>, AllocError>
    ensures { (app : App) → IsLike command.entry app
        → IfOk result (λ larger. IsLike larger
        (with_rule app (option_rule name.entry.now default.entry.now parser.entry))) }
{
    command.arg(option(alloc, name, help, default, parser))
}

// The command with one more flag.
fn with_flag<'a>(
    alloc: Global,
    command: Command<'a>,
    name: &'a str,
    help: &'a str,
) -> Result<Command<'a>, AllocError>
    ensures { (app : App) → IsLike command.entry app
        → IfOk result (λ larger. IsLike larger (with_rule app (flag_rule name.entry.now))) }
{
    command.arg(flag(alloc, name, help))
}

// An option of one number.
fn option<'a>(
    alloc: Global,
    name: &'a str,
    help: &'a str,
    default: &'a str,
    parser: ValueParser<'a>,
) -> Arg<'a>
    ensures rule { rule_of result ≡ option_rule name.entry.now default.entry.now parser.entry }
    ensures local { result.global ≡ false }
{
    Arg::new(alloc, name)
        .long(name)
        .value_name("COUNT")
        .help(help)
        .default_value(default)
        .value_parser(parser)
}

// A flag, which takes no value.
fn flag<'a>(alloc: Global, name: &'a str, help: &'a str) -> Arg<'a>
    ensures rule { rule_of result ≡ flag_rule name.entry.now }
    ensures local { result.global ≡ false }
{
    Arg::new(alloc, name)
        .long(name)
        .action(ArgAction::SetTrue)
        .help(help)
}

// A word that has to be there.
fn word<'a>(alloc: Global, name: &'a str, shown: &'a str, help: &'a str) -> Arg<'a>
    ensures rule { rule_of result ≡ word_rule name.entry.now }
    ensures local { result.global ≡ false }
{
    Arg::new(alloc, name)
        .value_name(shown)
        .help(help)
        .required(true)
}

// A number of 32 bits that has to be there.
fn number<'a>(alloc: Global, name: &'a str, shown: &'a str, help: &'a str) -> Arg<'a>
    ensures rule { rule_of result ≡ number_rule name.entry.now }
    ensures local { result.global ≡ false }
{
    word(alloc, name, shown, help).value_parser(value_parser!(u32).range(0..=4294967295))
}
