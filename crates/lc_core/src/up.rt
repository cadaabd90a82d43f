//! A store that is up.
ghost use Rattle.std.specs.Prelude.{[], ◌≡◌, ◌+◌, ◌*◌, ◌≤◌, vec_capacity, vec_len};
ghost use Rattle.lc_core.specs.Devices.{HaveLogs, HavePages, HaveSegments};

use lc_desk::Pages;
use lc_disk::Area;
use lc_events::Running;

/// The nodes, each with the area of its log, and the areas of the segments with their page writes, from segment 1 on;
/// and room for all areas beside each other, for when the store goes down.
#[derive(Drop)]
pub(crate) struct Up<D: Area> {
    pub(crate) running: Running<D>,
    pub(crate) segments: Vec<Pages<D>>,
    pub(crate) spare: Vec<D>,
    ghost all_segments: { vec_len segments ≡ running.geometry.segments },
    ghost logs: { HaveLogs D.Area (8 * (running.geometry.words + 1)) running.nodes.items },
    ghost lengths: { HaveSegments D.Area (2 * 272 * running.geometry.pages) segments.items },
    ghost pages: { HavePages D.Area running.geometry.pages segments.items },
    ghost none: { spare.items ≡ [] },
    ghost room: { running.geometry.nodes + running.geometry.segments ≤ vec_capacity spare },
}
