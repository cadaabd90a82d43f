//! Whether a store is down or up.
use crate::up::Up;
use lc_disk::Area;
use lc_recover::Recovery;

/// A store that is down has its areas and a recovery begun on them, and nothing else.
#[derive(Drop)]
pub(crate) enum WorldPhase<D: Area> {
    Down(Recovery<D>),
    Up(Up<D>),
    /// It is taken out, while a recovery ends.
    Taken,
}
