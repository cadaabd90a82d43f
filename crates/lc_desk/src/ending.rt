//! What becomes of a transaction that is to get its place in the log.
use lc_model::Refusal;
use lc_record::Items;

/// What becomes of a transaction that is to get its place in the log.
#[derive(Drop)]
pub enum Ending {
    /// It is refused, and nothing has changed.
    Refused(Refusal),
    /// It set nothing, so it is over.
    Empty,
    /// These are the words of its record, for which there is room.
    Record(Items<u64>),
}
