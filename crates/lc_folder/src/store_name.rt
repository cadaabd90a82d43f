//! The names that a store gives in its folder.
ghost use Rattle.std.specs.Prelude.{◌≡◌, ◌≤◌, ◌<◌, IfNone, IfSome, Some};
ghost use Rattle.lc_folder.specs.Files.{some_file_at};

use crate::file_name::FileName;
use lc_record::{MAX_NODE, MAX_SEGMENT};
use std::fmt;

// How many files a store has at most.
const FILES: usize = MAX_NODE as usize + 1 + MAX_SEGMENT as usize;

// The names in front of those of files: of the size, and of the mark.
const FRONT: usize = 2;

/// A name that a store gives in its folder. It prints as the name.
#[derive(Clone, Copy, PartialEq, Eq)]
pub enum StoreName {
    /// `lcrvm.store`, the file that says the store's size.
    Size,
    /// `fault`, the mark that a write or a sync has failed. It is an empty file.
    Mark,
    /// A file of the store.
    File(FileName),
    /// The name of a file with `.new` at its end: the copy that takes its place after a fault.
    Copy(FileName),
}

impl StoreName {
    ghost use Rattle.lc_folder.specs.Files.{store_name_at};

    /// All names that some store gives, in a fixed order, from place 0 on.
    pub fn at(place: usize) -> Option<StoreName>
        ensures name { IfSome result (λ name. (place < 50) × (name ≡ store_name_at place)) }
        ensures none { IfNone result (50 ≤ place) }
    {
        match place {
            0 => Some(StoreName::Size),
            1 => Some(StoreName::Mark),
            _ if place < FRONT + FILES => Some(StoreName::File(some_file(place - FRONT))),
            _ if place < FRONT + 2 * FILES => {
                Some(StoreName::Copy(some_file(place - FRONT - FILES)))
            }
            _ => None,
        }
    }
}

// The files that some store has: the logs, and then the segments.
fn some_file(place: usize) -> FileName
    requires { place < 24 }
    ensures { result ≡ some_file_at place }
{
    let logs = MAX_NODE as usize + 1;
    if place < logs {
        FileName::Log(place as u16)
    } else {
        FileName::Segment((place - logs) as u32 + 1)
    }
}

impl fmt::Display for StoreName {
    ghost use Rattle.lc_folder.specs.Files.{store_name_text};

    ghost output = { λ name. Some (store_name_text name) };

    fn fmt<W: fmt::Write>(&self, f: &mut fmt::Formatter<W>) -> fmt::Result {
        match self {
            StoreName::Size => write!(f, "lcrvm.store"),
            StoreName::Mark => write!(f, "fault"),
            StoreName::File(name) => write!(f, "{name}"),
            StoreName::Copy(name) => write!(f, "{name}.new"),
        }
    }
}
