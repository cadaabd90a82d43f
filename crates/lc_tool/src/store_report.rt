//! What of a store is looked at.

use lc_words::Size;

/// What is shown of a store, with nothing changed.
#[derive(Clone, Copy, Drop)]
pub(crate) enum StoreReport {
    /// What a recovery would say, of a store that has this size.
    Check(Size),
    /// A page, and its two slots.
    Dump {
        /// Its segment, from 1.
        segment: u32,
        /// Its number in the segment, from 0.
        page: u32,
    },
    /// The picture.
    Draw,
}
