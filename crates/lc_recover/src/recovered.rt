//! What a recovery has made of a store.
ghost use Rattle.std.specs.Prelude.{◌≡◌, ◌^◌, ◌<◌, ◌≤◌, length, map};

use crate::finished::Finished;
use crate::segment_pages::SegmentPages;
use lc_disk::Area;
use lc_page::PageText;
use lc_record::Geometry;
use std::marker::Model;

/// What a recovery has made of a store: its areas with empty logs, the pages, and the number of each segment.
#[derive(Drop)]
pub struct Recovered<D: Area> {
    geometry: Geometry,
    areas: Vec<D>,
    segments: Vec<SegmentPages>,
    numbers: Vec<u64>,
}

impl<D: Area> Model for Recovered<D> {
    ghost use Rattle.std.specs.Prelude.{map};
    ghost use Rattle.lc_recover.specs.Recovered.{RecoveredStore, recovered_pages, HasPages};

    ghost Value = { RecoveredStore D };

    ghost view = { λ r. record {
      geometry = r.geometry;
      areas = r.areas.items;
      sequences = r.numbers.items;
      pages = map recovered_pages r.segments.items;
    } };

    ghost invariant = { λ r. HasPages r.geometry r.segments.items r.numbers.items };
}

impl<D: Area> Recovered<D> {
    ghost use Rattle.lc_recover.specs.Recovered.{HasPages, page_of, recovered_pages, sequence_of};

    pub(crate) fn new(geometry: Geometry, areas: Vec<D>, finished: Finished) -> Recovered<D>
        requires { HasPages geometry finished.segments.items finished.numbers.items }
        ensures { result ≡ record {
          geometry = geometry;
          areas = areas.items;
          sequences = finished.numbers.items;
          pages = map recovered_pages finished.segments.items;
        } }
    {
        Recovered {
            geometry,
            areas,
            segments: finished.segments,
            numbers: finished.numbers,
        }
    }

    /// How many there are of each thing in the store.
    pub fn geometry(&self) -> Geometry
        ensures { result ≡ self.now.geometry }
    {
        self.geometry
    }

    /// The number of a segment, from 1: at most 2^60.
    pub fn sequence(&self, segment: u32) -> u64
        requires first { 1 ≤ segment }
        requires last { segment ≤ self.now.geometry.segments }
        ensures number { result ≡ sequence_of self.now segment }
        ensures small { result ≤ 2 ^ 60 }
    {
        self.numbers[segment as usize - 1]
    }

    /// The 256 bytes of a page of a segment, from 1.
    pub fn page(&self, segment: u32, page: u32) -> &[u8]
        requires first { 1 ≤ segment }
        requires last { segment ≤ self.now.geometry.segments }
        requires page { page < self.now.geometry.pages }
        ensures bytes { result.now ≡ (page_of self.now segment page).bytes }
        ensures len { length result.now ≡ 256 }
    {
        self.segments[segment as usize - 1].page(page)
    }

    /// What its area says of a page of a segment, from 1. Its sequence is at most the segment's number.
    pub fn text(&self, segment: u32, page: u32) -> PageText
        requires first { 1 ≤ segment }
        requires last { segment ≤ self.now.geometry.segments }
        requires page { page < self.now.geometry.pages }
        ensures text { result ≡ (page_of self.now segment page).text }
        ensures within { result.seq ≤ sequence_of self.now segment }
    {
        self.segments[segment as usize - 1].text(page)
    }

    /// The areas in their order.
    pub fn areas(self) -> Vec<D>
        ensures { result.items ≡ self.areas }
    {
        let Recovered {
            geometry: _geometry,
            areas,
            segments: _segments,
            numbers: _numbers,
        } = self;
        areas
    }
}
