//! Which part of a recovery is under way.
use crate::finished::Finished;
use crate::log_resets::LogResets;
use crate::page_writes::PageWrites;
use crate::read_areas::ReadAreas;

/// Which part of a recovery is under way, and how far it is.
#[derive(Drop)]
pub(crate) enum RecoveryPhase {
    /// This many areas are synced.
    Syncing(usize),
    /// All areas are synced, and this was read of the first ones.
    Reading(ReadAreas),
    /// All is merged.
    Writing(PageWrites),
    /// All pages are written.
    Resetting(LogResets),
    /// All logs are empty.
    Done(Finished),
}
