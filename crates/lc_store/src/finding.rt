//! The size that a folder tells.
ghost use Rattle.std.specs.Prelude.{◌≡◌, ◌↔◌, true, IfOk};
ghost use Rattle.lc_record.specs.declared.geometry.Geometry.{Geometry as Sizes};
ghost use Rattle.lc_folder.specs.SizeText.{IsSameSize};
ghost use Rattle.lc_folder.specs.Sizes.{IsSizeOf};
ghost use Rattle.lc_store.specs.Opening.{IsNoThreadCount};

use crate::StoreOpenFault;
use lc_files::{SizeSource, size_found};
use lc_record::Geometry;
use std::alloc::Global;

// The most threads that a node has.
const MOST_THREADS: u16 = 16;

/// The size of the store in a folder, as the file of the size says or the lengths of the other files tell, with so many
/// threads a node.
pub(crate) fn found<F: SizeSource>(
    alloc: Global,
    folder: &F,
    threads: u16,
) -> Result<Geometry, StoreOpenFault>
    ensures threads { IfOk result (λ geometry. geometry.threads ≡ threads) }
    ensures size { IfOk result (λ geometry. F.honest folder.now ≡ true
        → (its : Sizes) × IsSizeOf (F.stated folder.now) (F.logs folder.now) (F.segments folder.now) its
        × IsSameSize its geometry) }
    ensures bad_threads { (result ≡ Err StoreOpenFault.BadThreads) ↔ IsNoThreadCount threads }
{
    if threads == 0 || MOST_THREADS < threads {
        return Err(StoreOpenFault::BadThreads);
    }
    let found = size_found(alloc, folder)?;
    Ok(Geometry {
        nodes: found.nodes,
        threads,
        segments: found.segments,
        pages: found.pages,
        words: found.words,
    })
}
