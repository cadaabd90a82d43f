//! Where the words of a record end.
/// The end of a record's words among those of all, and whether the record is closed.
#[derive(Clone, Copy, Drop)]
pub struct RecordEnd {
    pub end: usize,
    pub(crate) closed: bool,
}
