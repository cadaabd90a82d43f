//! What a command line asks for.

use crate::{RunStore, Size, Wanted};
use lc_record::Geometry;

/// What a command line asks for. Each word is kept as it was written, an empty one too.
#[derive(Drop)]
pub enum Asked {
    /// A run of the script on standard input.
    Run {
        /// The store that it runs on.
        store: RunStore,
        /// Whether `--follow` is there: each line is run before the next is read.
        follow: bool,
        /// Whether `--number` is there: the number of its line stands in front of each reply.
        number: bool,
    },
    /// A new store of this size in this folder.
    Init {
        /// The word after `init`.
        folder: String,
        /// The numbers of the options, each in its range.
        geometry: Geometry,
    },
    /// The recovery of the store in this folder.
    Recover {
        /// The word after `recover`.
        folder: String,
        /// The size that it is to have.
        size: Size,
    },
    /// What a recovery of the store in this folder would say.
    Check {
        /// The word after `check`.
        folder: String,
        /// The size that it is to have.
        size: Size,
        /// Whether `--json` is there: it is printed as one JSON object.
        json: bool,
    },
    /// A page of the store in this folder, as it would be after a recovery.
    Dump {
        /// The word after `dump`.
        folder: String,
        /// The segment, from 1.
        segment: u32,
        /// The page of the segment, from 0.
        page: u32,
    },
    /// The picture of the store in this folder.
    Draw {
        /// The word after `draw`.
        folder: String,
    },
    /// A copy of the store in this folder, of the size that is found or of another.
    Copy {
        /// The word after `copy`.
        folder: String,
        /// The folder of the copy.
        to: String,
        /// The numbers of the size that the copy is to have.
        wanted: Wanted,
    },
    /// The records of this log file, the last one first where `reverse` is set.
    Inspect {
        /// The word after `inspect`.
        file: String,
        /// Whether `--reverse` is there.
        reverse: bool,
    },
    /// The lines that a script may have.
    Lines,
    /// This help.
    Help(String),
    /// This line, the version.
    Version(String),
    /// Words with a fault, and what it is, as the parser says it, with line feeds.
    Faulty(String),
    /// Words without a fault that ask for nothing: a run in memory, of the size that is found.
    NotUnderstood,
}
