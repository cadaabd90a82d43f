//! A script that is run, and what is wanted of it.
use lc_record::Geometry;
use std::str::{FromStr, SplitAsciiWhitespace};

/// The call of an area that fails, from 1.
#[derive(Clone, Copy)]
pub(crate) struct Failure {
    pub(crate) area: usize,
    pub(crate) call: u32,
}

/// A script by the name of its files, the store that it runs on, the status that is wanted, which call of an area
/// fails, and the name of the file of what the areas have.
#[derive(Clone, Copy, Drop)]
pub(crate) struct Case<'a> {
    pub(crate) name: &'a str,
    pub(crate) status: u8,
    pub(crate) geometry: Geometry,
    pub(crate) failure: Option<Failure>,
    pub(crate) areas: Option<&'a str>,
}

impl<'a> Case<'a> {
    /// The case of a line: name, status, nodes, threads, segments, pages and words; after them may stand `fails AREA
    /// CALL` and `areas NAME`.
    pub(crate) fn of_line(line: &'a str) -> Option<Case<'a>> {
        let mut words = line.split_ascii_whitespace();
        let name = words.next()?;
        let status = number(&mut words)?;
        let geometry = geometry(&mut words)?;
        let mut failure = None;
        let mut areas = None;
        for _ in 0..2 {
            match words.next() {
                None => {}
                Some("fails") => failure = Some(failing(&mut words)?),
                Some("areas") => areas = Some(words.next()?),
                Some(_) => return None,
            }
        }
        if words.next().is_some() {
            return None;
        }
        Some(Case {
            name,
            status,
            geometry,
            failure,
            areas,
        })
    }
}

// The failure of the words that are left.
fn failing(words: &mut SplitAsciiWhitespace<'_>) -> Option<Failure> {
    let area = number(words)?;
    let call = number(words)?;
    Some(Failure { area, call })
}

// The store of the next words.
fn geometry(words: &mut SplitAsciiWhitespace<'_>) -> Option<Geometry> {
    let nodes = number(words)?;
    let threads = number(words)?;
    let segments = number(words)?;
    let pages = number(words)?;
    Geometry::new(nodes, threads, segments, pages, number(words)?)
}

/// The number of the next word.
pub(crate) fn number<N: FromStr>(words: &mut SplitAsciiWhitespace<'_>) -> Option<N>
where
    N::Err: Drop,
{
    words.next()?.parse().ok()
}
