//! What an area says of a page.

use crate::Slot;

/// What an area says of a page: its sequence, the slot of its bytes, if one is open, and which of the two gates read
/// as open.
#[derive(Clone, Copy, PartialEq, Eq)]
pub struct PageText {
    /// The page's sequence, 0 where no slot is open.
    pub seq: u64,
    /// The slot of its bytes, if one is open.
    pub slot: Option<Slot>,
    /// Whether the gate of each slot reads as open.
    pub gates: [bool; 2],
}
