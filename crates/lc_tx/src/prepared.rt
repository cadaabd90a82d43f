//! What a transaction is about to log.
use lc_record::Items;

/// What the end of a transaction logs.
#[derive(Drop)]
pub enum Prepared {
    /// Nothing was set, so there is no record.
    Empty,
    /// The words of its record.
    Record(Items<u64>),
}
