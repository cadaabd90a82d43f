//! A range that is newer than a page.

/// A range of a record, with a byte on a page and a number above the page's sequence: it is to be put on the page. The
/// record stands at a place of a log, and the words of the range's bytes at a place of the record, both in words from
/// the front.
#[derive(Clone, Copy, PartialEq, Eq, PartialOrd, Ord)]
pub(crate) struct RedoRange {
    pub(crate) segment: u32,
    pub(crate) page: u32,
    pub(crate) seq: u64,
    pub(crate) log: usize,
    pub(crate) place: usize,
    pub(crate) words: usize,
    pub(crate) offset: u32,
    pub(crate) len: u64,
}
