//! The files that a new store begins with.
ghost use Rattle.std.specs.Prelude.{◌≡◌, ◌<◌, ◌≤◌, IfNone, IfSome};

use crate::store_file::StoreFile;
use crate::store_name::StoreName;
use lc_record::Geometry;

/// A file that a new store begins with.
#[derive(Clone, Copy)]
pub enum NewFile {
    /// That of a store of this size: the lines of the size.
    Size(Geometry),
    /// That of an area: so many zeros.
    Area(StoreFile),
}

impl NewFile {
    ghost use Rattle.lc_folder.specs.Making.{new_at, new_count, new_name};

    /// The files of a new store, in the order in which they are made: that of its size, and then that of each area.
    pub fn at(geometry: &Geometry, place: usize) -> Option<NewFile>
        ensures file { IfSome result (λ file. (place < new_count geometry.now) × (file ≡ new_at geometry.now place)) }
        ensures none { IfNone result (new_count geometry.now ≤ place) }
    {
        match place.checked_sub(1) {
            None => Some(NewFile::Size(*geometry)),
            Some(area) => Some(NewFile::Area(StoreFile::of_area(geometry, area)?)),
        }
    }

    /// Its name.
    pub fn name(&self) -> StoreName
        ensures { result ≡ new_name self.now }
    {
        match self {
            NewFile::Size(_) => StoreName::Size,
            NewFile::Area(file) => StoreName::File(file.name),
        }
    }
}
