//! What a script prints, beside what is wanted.
ghost use Rattle.lc_disk.specs.When.{IsCountable};

use crate::case::{Case, Failure};
use lc_disk::{Fuse, MemArea, When};
use lc_tool::{Manner, ToolFault, run_script};
use std::alloc::{AllocError, Global};

// As a whole, without numbers.
const WHOLE: Manner = Manner {
    follow: false,
    number: false,
};

/// What a script prints on these areas, of which a call may fail, and its status.
pub(crate) fn printed(
    alloc: Global,
    case: Case<'_>,
    areas: Vec<MemArea>,
    script: &[u8],
) -> Result<(Vec<u8>, u8), ToolFault> {
    let Ok(areas) = fused(alloc, case.failure, areas) else {
        return Err(ToolFault::NoMemory);
    };
    let mut reader = script;
    let mut text = Vec::new(alloc);
    let status = run_script(alloc, case.geometry, WHOLE, areas, &mut reader, &mut text)?;
    Ok((text, status))
}

// The areas, one of which may fail.
fn fused(
    alloc: Global,
    failure: Option<Failure>,
    areas: Vec<MemArea>,
) -> Result<Vec<Fuse>, AllocError> {
    let mut fused = Vec::new(alloc);
    for area in areas {
        let when = when(failure, fused.len());
        fused.push(Fuse::new(area, when))?;
    }
    Ok(fused)
}

// When the area at this place fails: at no call, unless it is the one that is named.
fn when(failure: Option<Failure>, place: usize) -> When
    ensures { IsCountable result }
{
    match failure {
        Some(Failure { area, call }) if area == place => When::At(u64::from(call)),
        _ => When::At(0),
    }
}

/// The number of the first line in which two texts differ, from 1.
pub(crate) fn first_difference(text: &[u8], wanted: &[u8]) -> Option<usize> {
    if text == wanted {
        return None;
    }
    let mut line: usize = 1;
    for (byte, wanted) in text.iter().zip(wanted) {
        if byte != wanted {
            break;
        }
        line = line.saturating_add(usize::from(*byte == b'\n'));
    }
    Some(line)
}
