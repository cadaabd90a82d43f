//! What becomes of a record that a node receives.
/// What becomes of a record that a node receives for one segment.
#[derive(Clone, Copy, PartialEq, Eq)]
pub enum DeliveryOutcome {
    /// The segment is applied at the receiver up to this number.
    Applied(u64),
    /// The record waits for one before it.
    HeldBack,
    /// The record was applied, is waiting or was dropped before.
    Ignored,
}
