//! Stores that were recovered.
ghost use Rattle.std.specs.Prelude.{◌≡◌, IfOk};
ghost use Rattle.lc_recover.specs.Reads.{HaveLengths};
ghost use Rattle.lc_recover.specs.Recovered.{AreFinished};

use lc_disk::Area;
use lc_record::Geometry;
use lc_recover::Recovered;
use lc_store::recovered_on;
use std::alloc::Global;

/// The bytes of a log's area.
pub const LOG_BYTES: usize = 8 * (WORDS as usize + 1);

/// The bytes of the area of a segment of two pages.
pub const SEGMENT_BYTES: usize = 2 * 544;

/// The words of a log.
pub const WORDS: u32 = 4096;

/// The store of these areas, recovered.
pub fn recovered<D: Area + Drop>(
    alloc: Global,
    geometry: Geometry,
    areas: Vec<D>,
) -> Result<Recovered<D>, &'static str>
    ensures geometry { IfOk result (λ r. r.geometry ≡ geometry) }
    ensures lengths { IfOk result (λ r. HaveLengths D.Area r.geometry r.areas) }
    ensures finished { IfOk result (AreFinished D.Area) }
{
    match recovered_on(alloc, geometry, areas) {
        Ok(recovered) => Ok(recovered),
        Err(_) => Err("the recovery ends"),
    }
}
