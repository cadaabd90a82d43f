//! A log whose device failed.
use lc_disk::Area;

/// A log whose device failed in a call. Only a recovery opens its area again.
#[derive(Drop)]
pub struct Failed<D: Area> {
    /// The log's area, given back.
    pub area: D,
}
