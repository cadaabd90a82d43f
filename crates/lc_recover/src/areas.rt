//! How long the areas of a store are.
ghost use Rattle.std.specs.Prelude.{◌≡◌, ◌≢◌, ◌≤◌, length, map, slice_get, IfSome, IfNone, ℕ};
ghost use Rattle.lc_model.specs.Merge.{IsLeast};
ghost use Rattle.lc_recover.specs.Reads.{area_count, area_len, HaveLengths, AreOfBytes};

use lc_disk::Area;
use lc_page::SLOT_BYTES;
use lc_record::Geometry;

const SLOTS: usize = 2;

/// How many areas a store has: the logs of its nodes, then its segments.
pub(crate) fn area_count(geometry: &Geometry) -> usize
    ensures { result ≡ area_count geometry.now }
{
    geometry.nodes as usize + geometry.segments as usize
}

/// The length of the area at this index, in bytes, where there is one.
pub fn area_len(geometry: &Geometry, area: usize) -> Option<usize>
    ensures { result ≡ area_len geometry.now area }
{
    if area < geometry.nodes as usize {
        return Some(geometry.log_len());
    }
    if area < area_count(geometry) {
        return Some(SLOTS * SLOT_BYTES * geometry.pages as usize);
    }
    None
}

/// The least index at which there is no area of the right length, or one where there should be none.
pub(crate) fn first_wrong<D: Area>(geometry: &Geometry, areas: &[D]) -> Option<usize>
    ensures wrong { IfSome result (IsLeast (λ area. slice_get (map (λ d. length (D.now d)) areas.now) area
        ≢ area_len geometry.now area)) }
    ensures few { IfSome result (λ area. area ≤ area_count geometry.now) }
    ensures right { IfNone result (HaveLengths D.Area geometry.now areas.now) }
    ensures bytes { IfNone result (AreOfBytes D.Area areas.now) }
{
    for (place, area) in areas.iter().enumerate() {
        if area_len(geometry, place) != Some(area.len()) {
            return Some(place);
        }
    }
    if areas.len() < area_count(geometry) {
        return Some(areas.len());
    }
    None
}
