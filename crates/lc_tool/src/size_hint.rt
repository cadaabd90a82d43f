//! The size of a store that was opened as one of another.

use lc_disk::Area;
use lc_files::{SharedFile, StoreFile, StoreFolder, size_found};
use lc_record::Geometry;
use std::alloc::Global;
use std::rt::Files;

/// Whether these are as many areas as a store of this size has, each as long as it says.
pub(crate) fn are_of_size<A: Area>(geometry: &Geometry, areas: &[A]) -> bool {
    for (place, area) in areas.iter().enumerate() {
        let len = area.len();
        match StoreFile::of_area(geometry, place) {
            Some(file) if file.len == len => {}
            _ => return false,
        }
    }
    true
}

/// Says on standard error which size the store in this folder has, and the option that takes it.
pub(crate) fn tell_size_found<R: Files + Eprint>(
    alloc: Global,
    rt: &R,
    path: &str,
    folder: &StoreFolder<&R, &str>,
)
where
    R::File: SharedFile,
{
    let Ok(found) = size_found(alloc, folder) else {
        return;
    };
    let nodes = found.nodes;
    let segments = found.segments;
    let pages = found.pages;
    let words = found.words;
    let _ = eprintln!(rt;
        "lcrvm: {path}: --as-found takes nodes {nodes} segments {segments} pages {pages} words {words}"
    );
}
