//! The store that a script runs on.

use crate::Size;
use lc_record::Geometry;

/// The store that a script runs on.
#[derive(Drop)]
pub enum RunStore {
    /// A new one in memory, of this size.
    New(Geometry),
    /// The one in this folder.
    InFolder {
        /// The word after `--store`.
        folder: String,
        /// The size that it is to have.
        size: Size,
    },
}
