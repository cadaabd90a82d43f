//! What a walk finds.
use lc_record::Record;

/// What a walk over a log finds.
#[derive(Drop)]
pub struct Walk {
    /// Each record with its place, in words from the log's front.
    pub records: Vec<(usize, Record)>,
    /// The place after the last record, where no record begins.
    pub end_place: usize,
}
