//! What the options of a subcommand ask for.
ghost use Rattle.std.specs.Prelude.{◌≡◌, IfOk, IfSome, IsNone, Some, None, if◌then◌else◌};
ghost use Rattle.clap.specs.Words.{found_of, rows_of, subcommand_rows_of};
ghost use Rattle.lc_words.specs.CommandLine.{HasCheckedSize, HasNumbersAt, HasSize, HasSizeAt, HasText, IsCheckOf};
ghost use Rattle.lc_words.specs.CommandLine.{IsCopyOf, IsDrawOf, IsDumpOf, IsInitOf, IsInspectOf, IsReadOf};
ghost use Rattle.lc_words.specs.CommandLine.{IsRecoverOf, IsRunOf, IsWantedAt, is_among_words, is_any_given, number_at};

use crate::{Asked, RunStore, Size, Wanted};
use clap::ArgMatches;
use clap::parser::ValueSource;
use lc_record::Geometry;
use std::alloc::{AllocError, Global};

/// What the subcommand that was found asks for. The only error is want of memory for its words.
pub fn asked_of(alloc: Global, matches: &ArgMatches<'_>) -> Result<Asked, AllocError>
    ensures { IfOk result (IsReadOf (subcommand_rows_of matches.now)) }
{
    let Some((name, options)) = matches.subcommand() else {
        return Ok(Asked::NotUnderstood);
    };
    match name {
        "run" => run_of(alloc, options),
        "init" => init_of(alloc, options),
        "recover" => recover_of(alloc, options),
        "inspect" => inspect_of(alloc, options),
        "lines" => Ok(Asked::Lines),
        "check" => check_of(alloc, options),
        "dump" => dump_of(alloc, options),
        "draw" => draw_of(alloc, options),
        "copy" => copy_of(alloc, options),
        _ => Ok(Asked::NotUnderstood),
    }
}

// A store in memory has no files that could tell its size.
fn run_of(alloc: Global, options: &ArgMatches<'_>) -> Result<Asked, AllocError>
    ensures { IfOk result (IsRunOf (rows_of (found_of options.now))) }
{
    let Some(size) = size_of(options) else {
        return Ok(Asked::NotUnderstood);
    };
    let follow = has_flag(options, "follow");
    let number = has_flag(options, "number");
    let store = match (text_of(alloc, options, "store")?, size) {
        (Some(folder), size) => RunStore::InFolder { folder, size },
        (None, Size::Given(geometry)) => RunStore::New(geometry),
        (None, Size::AsFound(_)) => return Ok(Asked::NotUnderstood),
    };
    Ok(Asked::Run {
        store,
        follow,
        number,
    })
}

fn init_of(alloc: Global, options: &ArgMatches<'_>) -> Result<Asked, AllocError>
    ensures { IfOk result (IsInitOf (rows_of (found_of options.now))) }
{
    let Some(geometry) = geometry_of(options) else {
        return Ok(Asked::NotUnderstood);
    };
    match text_of(alloc, options, "folder")? {
        Some(folder) => Ok(Asked::Init { folder, geometry }),
        None => Ok(Asked::NotUnderstood),
    }
}

fn recover_of(alloc: Global, options: &ArgMatches<'_>) -> Result<Asked, AllocError>
    ensures { IfOk result (IsRecoverOf (rows_of (found_of options.now))) }
{
    let Some(size) = size_of(options) else {
        return Ok(Asked::NotUnderstood);
    };
    match text_of(alloc, options, "folder")? {
        Some(folder) => Ok(Asked::Recover { folder, size }),
        None => Ok(Asked::NotUnderstood),
    }
}

fn check_of(alloc: Global, options: &ArgMatches<'_>) -> Result<Asked, AllocError>
    ensures { IfOk result (IsCheckOf (rows_of (found_of options.now))) }
{
    let Some(size) = checked_size(options) else {
        return Ok(Asked::NotUnderstood);
    };
    let json = has_flag(options, "json");
    match text_of(alloc, options, "folder")? {
        Some(folder) => Ok(Asked::Check { folder, size, json }),
        None => Ok(Asked::NotUnderstood),
    }
}

fn dump_of(alloc: Global, options: &ArgMatches<'_>) -> Result<Asked, AllocError>
    ensures { IfOk result (IsDumpOf (rows_of (found_of options.now))) }
{
    let Some(segment) = number_of(options, "segment") else {
        return Ok(Asked::NotUnderstood);
    };
    let Some(page) = number_of(options, "page") else {
        return Ok(Asked::NotUnderstood);
    };
    match text_of(alloc, options, "folder")? {
        Some(folder) => Ok(Asked::Dump {
            folder,
            segment,
            page,
        }),
        None => Ok(Asked::NotUnderstood),
    }
}

fn draw_of(alloc: Global, options: &ArgMatches<'_>) -> Result<Asked, AllocError>
    ensures { IfOk result (IsDrawOf (rows_of (found_of options.now))) }
{
    match text_of(alloc, options, "folder")? {
        Some(folder) => Ok(Asked::Draw { folder }),
        None => Ok(Asked::NotUnderstood),
    }
}

fn copy_of(alloc: Global, options: &ArgMatches<'_>) -> Result<Asked, AllocError>
    ensures { IfOk result (IsCopyOf (rows_of (found_of options.now))) }
{
    let Some(geometry) = geometry_of(options) else {
        return Ok(Asked::NotUnderstood);
    };
    let wanted = wanted_of(options, geometry);
    let Some(folder) = text_of(alloc, options, "folder")? else {
        return Ok(Asked::NotUnderstood);
    };
    match text_of(alloc, options, "to")? {
        Some(to) => Ok(Asked::Copy { folder, to, wanted }),
        None => Ok(Asked::NotUnderstood),
    }
}

fn inspect_of(alloc: Global, options: &ArgMatches<'_>) -> Result<Asked, AllocError>
    ensures { IfOk result (IsInspectOf (rows_of (found_of options.now))) }
{
    match text_of(alloc, options, "file")? {
        Some(file) => {
            let reverse = has_flag(options, "reverse");
            Ok(Asked::Inspect { file, reverse })
        }
        None => Ok(Asked::NotUnderstood),
    }
}

// The size that a store is to have.
fn size_of(options: &ArgMatches<'_>) -> Option<Size>
    ensures size { IfSome result (HasSize (rows_of (found_of options.now))) }
    ensures none { IsNone result → HasSizeAt (rows_of (found_of options.now)) → ⊥ }
{
    let geometry = geometry_of(options)?;
    if !has_flag(options, "as-found") {
        return Some(Size::Given(geometry));
    }
    Some(Size::AsFound(wanted_of(options, geometry)))
}

// The size that a store which is checked is to have: as it is found, where no number of it is given.
fn checked_size(options: &ArgMatches<'_>) -> Option<Size>
    ensures size { IfSome result (HasCheckedSize (rows_of (found_of options.now))) }
    ensures none { IsNone result → HasSizeAt (rows_of (found_of options.now)) → ⊥ }
{
    let geometry = geometry_of(options)?;
    if !has_flag(options, "as-found") && is_any_given(options) {
        return Some(Size::Given(geometry));
    }
    Some(Size::AsFound(wanted_of(options, geometry)))
}

// Whether a number is given that the files tell.
fn is_any_given(options: &ArgMatches<'_>) -> bool
    ensures { result ≡ is_any_given (rows_of (found_of options.now)) }
{
    has_flag(options, "nodes")
        || has_flag(options, "segments")
        || has_flag(options, "pages")
        || has_flag(options, "words")
}

// The numbers that are given, of the options that have these.
fn wanted_of(options: &ArgMatches<'_>, geometry: Geometry) -> Wanted
    requires { HasNumbersAt (rows_of (found_of options.now)) geometry }
    ensures { IsWantedAt (rows_of (found_of options.now)) result }
{
    Wanted {
        nodes: given(options, "nodes", u32::from(geometry.nodes)),
        threads: u32::from(geometry.threads),
        segments: given(options, "segments", geometry.segments),
        pages: given(options, "pages", geometry.pages),
        words: given(options, "words", geometry.words),
    }
}

// This number, where the option is among the words.
fn given(options: &ArgMatches<'_>, name: &str, number: u32) -> Option<u32>
    ensures { result ≡ (if is_among_words name.now (rows_of (found_of options.now)) then Some number else None) }
{
    if has_flag(options, name) {
        Some(number)
    } else {
        None
    }
}

// The store's size that the options give.
fn geometry_of(options: &ArgMatches<'_>) -> Option<Geometry>
    ensures numbers { IfSome result (HasNumbersAt (rows_of (found_of options.now))) }
    ensures none { IsNone result → HasSizeAt (rows_of (found_of options.now)) → ⊥ }
{
    let nodes = number_of(options, "nodes")?;
    let threads = number_of(options, "threads")?;
    let segments = number_of(options, "segments")?;
    let pages = number_of(options, "pages")?;
    let words = number_of(options, "words")?;
    Geometry::new(
        u16::try_from(nodes).ok()?,
        u16::try_from(threads).ok()?,
        segments,
        pages,
        words,
    )
}

// The number that the option has.
fn number_of(options: &ArgMatches<'_>, name: &str) -> Option<u32>
    ensures { result ≡ number_at name.now (rows_of (found_of options.now)) }
{
    options.get_one::<u32>(name)
}

// The word that stands there.
fn text_of(
    alloc: Global,
    options: &ArgMatches<'_>,
    name: &str,
) -> Result<Option<String>, AllocError>
    ensures { IfOk result (λ text. HasText name.now (rows_of (found_of options.now)) text) }
{
    match options.get_str(name) {
        Some(text) => Ok(Some(String::from_str(alloc, text)?)),
        None => Ok(None),
    }
}

// Whether the flag, or the option, is among the words.
fn has_flag(options: &ArgMatches<'_>, name: &str) -> bool
    ensures { result ≡ is_among_words name.now (rows_of (found_of options.now)) }
{
    match options.value_source(name) {
        Some(ValueSource::CommandLine) => true,
        Some(ValueSource::DefaultValue) => false,
        None => false,
    }
}
