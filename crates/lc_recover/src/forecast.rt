//! What a recovery of a store would make of it.
ghost use Rattle.std.specs.Prelude.{◌≡◌, ◌^◌, ◌<◌, ◌≤◌, ◌↔◌, ℕ, IsTrue, length};
ghost use Rattle.lc_model.specs.Merge.{MergesTo};
ghost use Rattle.lc_model.specs.Stored.{page_bytes};
ghost use Rattle.lc_record.specs.Content.{Content};

use crate::page::{changes_of, put_changes};
use crate::page_writes::PageWrites;
use lc_page::PAGE_BYTES;
use lc_record::Geometry;
use std::marker::Model;

/// What a recovery of a store would make of it, from the merge of what was read: the number of each segment, the pages
/// that it would write, and the bytes of every page after it. Nothing is written.
#[derive(Drop)]
pub struct Forecast {
    geometry: Geometry,
    // The page writes that the recovery would begin with.
    writes: PageWrites,
}

impl Model for Forecast {
    ghost use Rattle.lc_recover.specs.Forecast.{Foretold, IsForetold, foretold};

    ghost Value = { Foretold };

    ghost view = { λ f. foretold f.geometry f.writes };

    ghost invariant = { λ f. IsForetold f.geometry f.writes };
}

impl Forecast {
    ghost use Rattle.lc_recover.specs.Forecast.{IsForecast, IsForetold, IsPageBehind, foretold, sequence_of};

    pub(crate) fn new(geometry: Geometry, writes: PageWrites) -> Forecast
        requires { IsForetold geometry writes }
        ensures { result ≡ foretold geometry writes }
    {
        Forecast { geometry, writes }
    }

    /// How many there are of each thing in the store. What was read of it merges.
    pub fn geometry(&self) -> Geometry
        ensures geometry { result ≡ self.now.geometry }
        ensures merged { IsForecast self.now }
    {
        self.geometry
    }

    /// The number of a segment, from 1, after the recovery: at most 2^60.
    pub fn sequence(&self, segment: u32) -> u64
        requires first { 1 ≤ segment }
        requires last { segment ≤ self.now.geometry.segments }
        ensures number { result ≡ sequence_of self.now segment }
        ensures small { result ≤ 2 ^ 60 }
    {
        self.writes.merged.numbers[segment as usize - 1]
    }

    /// The 256 bytes of a page of a segment, from 1, after the recovery.
    pub fn page(&self, segment: u32, page: u32) -> [u8; PAGE_BYTES]
        requires first { 1 ≤ segment }
        requires last { segment ≤ self.now.geometry.segments }
        requires page { page < self.now.geometry.pages }
        ensures bytes { (content : Content) (numbers : ℕ → ℕ) → MergesTo self.now.store content numbers
            → result ≡ page_bytes segment page content }
    {
        let pages = &self.writes.kept.segments[segment as usize - 1];
        let mut bytes = [0; PAGE_BYTES];
        bytes.copy_from_slice(pages.page(page));
        let changes = changes_of(&self.writes.merged.changes, segment, page);
        put_changes(&self.writes.kept.logs, changes, &mut bytes);
        bytes
    }

    /// Whether some record is newer than a page of a segment, from 1: the recovery would write it.
    pub fn is_behind(&self, segment: u32, page: u32) -> bool
        ensures { IsTrue result ↔ IsPageBehind self.now.store segment page }
    {
        !changes_of(&self.writes.merged.changes, segment, page).is_empty()
    }
}
