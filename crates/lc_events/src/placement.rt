//! What becomes of a transaction that ends.
/// What becomes of a transaction that gets its place in the log.
#[derive(Clone, Copy, PartialEq, Eq)]
pub enum Placement {
    /// Its record stands at this word of the log, and has this many.
    Record { place: u32, words: u32 },
    /// It set nothing, so it is over and has no record.
    Empty,
}
