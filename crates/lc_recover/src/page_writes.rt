//! The pages that records are newer than, being written.
ghost use Rattle.std.specs.Prelude.{◌≡◌, ◌≤◌, ◌^◌, None};

use crate::merged::Merged;
use crate::read_areas::ReadAreas;
use crate::redo_range::RedoRange;
use crate::store_contents::StoreContents;
use lc_page::Writing;

/// How many device calls the write of a page takes.
pub(crate) const PAGE_CALLS: u64 = 6;

/// The pages that records are newer than, being written one after another.
#[derive(Drop)]
pub(crate) struct PageWrites {
    pub(crate) kept: StoreContents,
    pub(crate) merged: Merged,
    /// How many of the changes are of pages that are written.
    pub(crate) next: usize,
    /// How many pages are written.
    pub(crate) written: u64,
    /// The write of the page of the next change, where it has begun.
    pub(crate) current: Option<Writing>,
}

impl PageWrites {
    ghost use Rattle.lc_recover.specs.Steps.{writes_done};

    /// No page is written yet of areas that were read so, with these changes.
    pub(crate) fn new(read: ReadAreas, changes: Vec<RedoRange>) -> PageWrites
        ensures { result ≡ record {
          kept = read.kept;
          merged = record { numbers = read.numbers; changes = changes };
          next = 0;
          written = 0;
          current = None;
        } }
    {
        PageWrites {
            kept: read.kept,
            merged: Merged {
                numbers: read.numbers,
                changes,
            },
            next: 0,
            written: 0,
            current: None,
        }
    }

    /// How many calls of the writes are done.
    pub(crate) fn calls(&self) -> u64
        requires { self.now.written ≤ 2 ^ 32 }
        ensures { result ≡ writes_done self.now }
    {
        let done = match &self.current {
            Some(write) => write.calls(),
            None => 0,
        };
        PAGE_CALLS * self.written + done as u64
    }
}
