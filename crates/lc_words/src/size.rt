//! The size that a store in a folder is to have.

use crate::Wanted;
use lc_record::Geometry;

/// The size that a store in a folder is to have.
#[derive(Clone, Copy, Drop)]
pub enum Size {
    /// The numbers of the options, each given or by default.
    Given(Geometry),
    /// The numbers of the options that are given, and for the others those that the store's files tell.
    AsFound(Wanted),
}
