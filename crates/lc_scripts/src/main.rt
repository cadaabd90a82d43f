//! Runs the scripts that the file `cases` of a folder names, and compares what they print with what is wanted.
#![tactic(auto)]

mod areas;
mod case;
mod comparison;

use anyhow::Context;
use areas::areas_with;
use case::Case;
use comparison::{first_difference, printed};
use lc_disk::MemArea;
use std::process::ExitCode;
use std::rt::Files;
use std::{env, fs};

// The areas of a case: those that its file says, or zeros.
fn areas_of<R: AllocGlobal + Files>(
    rt: &R,
    folder: &str,
    case: Case<'_>,
) -> anyhow::Result<Vec<MemArea>> {
    let alloc = rt.alloc();
    let Some(name) = case.areas else {
        return areas_with(alloc, &case.geometry, case.name, "");
    };
    let pieces = fs::read_to_string(rt, format!(in alloc; "{folder}/{name}.areas")?)?;
    areas_with(alloc, &case.geometry, name, &pieces)
}

// Runs the script of a case, and tells whether it went as wanted. Where it did not, a line says in what.
fn goes<R: AllocGlobal + Files + Print>(
    rt: &R,
    folder: &str,
    case: Case<'_>,
) -> anyhow::Result<bool> {
    let alloc = rt.alloc();
    let name = case.name;
    let script = fs::read(rt, format!(in alloc; "{folder}/{name}.script")?)?;
    let wanted = fs::read(rt, format!(in alloc; "{folder}/{name}.wanted")?)?;
    let areas = areas_of(rt, folder, case)?;
    let (text, status) = printed(alloc, case, areas, &script)?;
    let line = first_difference(&text, &wanted);
    if let Some(line) = line {
        println!(rt; "{name}: line {line} is not as wanted")?;
    }
    if status != case.status {
        println!(rt; "{name}: the status is {status}")?;
    }
    Ok(line.is_none() && status == case.status)
}

// Runs them all, and gives the number of those that did not go as wanted.
fn missed<R: AllocGlobal + Files + Print>(
    rt: &R,
    folder: &str,
    cases: &str,
) -> anyhow::Result<u32> {
    let mut went: u32 = 0;
    let mut missed: u32 = 0;
    for line in cases.lines() {
        let case = Case::of_line(line).context("a line of `cases` is no case")?;
        if goes(rt, folder, case)? {
            went = went.saturating_add(1);
        } else {
            missed = missed.saturating_add(1);
        }
    }
    println!(rt; "{went} scripts ran as wanted")?;
    Ok(missed)
}

fn main(rt: HostRuntime) -> anyhow::Result<ExitCode> {
    let folder = env::args(&rt)?.nth(1).context("no folder is named")?;
    let cases = fs::read_to_string(&rt, format!(in rt.alloc(); "{folder}/cases")?)?;
    let missed = missed(&rt, &folder, &cases)?;
    Ok(ExitCode::from(u8::from(missed > 0)))
}
