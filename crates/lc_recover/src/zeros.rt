//! Areas of zeros, and what they merge to.
ghost use Rattle.std.specs.Prelude.{ℕ, IfOk, List};
ghost use Rattle.lc_disk.specs.contracts.mem_area.MemAreaArea.TheImpl.{ghosts};
ghost use Rattle.lc_record.specs.declared.geometry.Geometry.{Geometry as TheGeometry};
ghost use Rattle.lc_model.specs.Recovered.{zero_content};
ghost use Rattle.lc_recover.specs.Reads.{AllMergeTo, AreZeros, HaveLengths};

use crate::area_len;
use lc_disk::{Area, MemArea};
use lc_record::Geometry;
use std::alloc::{AllocError, Global};

/// Areas of zeros, none of it dirty, merge to zeros under no numbers.
pub fn zeros_merge<D: Area>()
    ensures { (g : TheGeometry) (areas : List D) → HaveLengths D.Area g areas → AreZeros D.Area areas
        → AllMergeTo D.Area g areas (zero_content g) (λ segment. 0) }
{}

/// The areas of a store in memory, in the order of the store, each of zeros: what a new store is made of. It takes the
/// memory of all of them.
pub fn zero_areas(alloc: Global, geometry: &Geometry) -> Result<Vec<MemArea>, AllocError>
    ensures lengths { IfOk result (λ areas. HaveLengths ghosts geometry.now areas.items) }
    ensures zeros { IfOk result (λ areas. AreZeros ghosts areas.items) }
{
    let mut areas = Vec::new(alloc);
    while let Some(len) = area_len(geometry, areas.len()) {
        areas.push(MemArea::new(alloc, len)?)?;
    }
    Ok(areas)
}
