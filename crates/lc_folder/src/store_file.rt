//! A file of a store.
ghost use Rattle.std.specs.Prelude.{◌≡◌, ◌<◌, ◌≤◌, IfNone, IfSome};
ghost use Rattle.lc_recover.specs.Reads.{area_count};

use crate::file_name::FileName;
use lc_record::Geometry;
use lc_recover::area_len;

/// A file of a store, with its length in bytes.
#[derive(Clone, Copy)]
pub struct StoreFile {
    pub name: FileName,
    pub len: usize,
}

impl StoreFile {
    ghost use Rattle.lc_folder.specs.Files.{file_at};

    /// The file of the area at this index in the order of the store, where there is one.
    pub fn of_area(geometry: &Geometry, area: usize) -> Option<StoreFile>
        ensures file { IfSome result (λ file. (area < area_count geometry.now) × (file ≡ file_at geometry.now area)) }
        ensures none { IfNone result (area_count geometry.now ≤ area) }
    {
        let len = area_len(geometry, area)?;
        let name = FileName::of_area(geometry, area);
        Some(StoreFile { name, len })
    }
}
