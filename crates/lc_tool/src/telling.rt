//! How far a long recovery is, which line is not understood, and what a run leaves.
use crate::line_telling::{LineTeller, tell_line};
use lc_disk::Area;
use lc_look::Teller;
use lc_record::Geometry;
use lc_recover::{Forecast, survey_areas};
use std::alloc::Global;

// A recovery that writes more pages than this shows how far it is.
const MANY_PAGES: u64 = 1000;

// The line is renewed after so many pages.
const PAGES_BETWEEN: u64 = 64;

// The steps in which a recovery writes a page.
const PAGE_STEPS: u64 = 6;

/// What standard error is.
#[derive(Clone, Copy, PartialEq, Eq)]
pub enum ErrorOutput {
    /// A terminal, on which a line can be renewed.
    Terminal,
    /// Anything else.
    Other,
}

/// Shows on a terminal how many of the pages that a recovery writes are written, where they are more than a thousand;
/// and says on standard error what a run leaves that is lost.
#[derive(Drop)]
pub(crate) struct PageTeller<'a, R> {
    rt: &'a R,
    // The steps in front of the first page.
    first: u64,
    // How many pages are written, 0 where nothing is shown.
    pages: u64,
}

impl<'a, R: Eprint> PageTeller<'a, R> {
    /// That of the recovery of these areas. On a terminal each area is read, to know how many pages are to be written.
    pub(crate) fn new<D: Area>(
        alloc: Global,
        rt: &'a R,
        errors: ErrorOutput,
        geometry: &Geometry,
        areas: &mut [D],
    ) -> PageTeller<'a, R> {
        let first = (areas.len() as u64).saturating_mul(2).saturating_add(1);
        let pages = match errors {
            ErrorOutput::Terminal => pages_behind(alloc, geometry, areas),
            ErrorOutput::Other => 0,
        };
        let pages = if pages > MANY_PAGES { pages } else { 0 };
        PageTeller { rt, first, pages }
    }
}

impl<R: Eprint> Teller for PageTeller<'_, R> {
    fn stepped(&self, steps: u64) {
        let Some(calls) = steps.checked_sub(self.first) else {
            return;
        };
        if self.pages > 0 && calls % (PAGE_STEPS * PAGES_BETWEEN) == 0 {
            let written = (calls / PAGE_STEPS).min(self.pages);
            let pages = self.pages;
            let _ = eprint!(self.rt; "\rrecovering: {written} of {pages} pages");
        }
    }

    fn finished(&self) {
        if self.pages > 0 {
            let _ = self.rt.eprintln("");
        }
    }

    fn left(&self, commits: u64, transactions: u64) {
        if commits > 0 || transactions > 0 {
            let _ = eprintln!(self.rt;
                "lcrvm: {commits} commits not flushed, {transactions} transactions open"
            );
        }
    }
}

impl<R: Eprint> LineTeller for PageTeller<'_, R> {
    fn not_understood(&self, number: u64, line: &[u8]) {
        tell_line(self.rt, number, line);
    }
}

// How many pages a recovery of these areas writes; none where it is refused.
fn pages_behind<D: Area>(alloc: Global, geometry: &Geometry, areas: &mut [D]) -> u64 {
    match survey_areas(alloc, geometry, areas) {
        Ok(forecast) => count_behind(&forecast),
        Err(_) => 0,
    }
}

fn count_behind(forecast: &Forecast) -> u64 {
    let geometry = forecast.geometry();
    let mut count: u64 = 0;
    for segment in 1..geometry.segments + 1 {
        for page in 0..geometry.pages {
            if forecast.is_behind(segment, page) {
                count = count.saturating_add(1);
            }
        }
    }
    count
}
