//! The areas of a cluster at rest, each read once and whole.
ghost use Rattle.std.specs.Prelude.{◌≡◌, ◌+◌, Err, IfOk, OnErr, OnOk, length, vec_len};
ghost use Rattle.lc_reading.specs.AsRead.{AreAsRead, FailsAt, IsAsRead};
ghost use Rattle.lc_reading.specs.ReadAreas.{AreAreas, AreStarts};
ghost use Rattle.lc_rest.specs.declared.adopt_fault.AdoptFault.TheVariants.{DeviceFault as Failed, Mismatch};
ghost use Rattle.lc_rest.specs.declared.cluster_part.ClusterPart.{ClusterPart as ThePart};

use lc_disk::{Area, DeviceFault};
use lc_record::Geometry;
use lc_rest::{AdoptFault, read_bytes};
use std::alloc::{AllocError, Global};

/// What the areas hold, each read by one call. It takes the memory for an area before it calls it.
pub fn read_areas<D: Area>(alloc: Global, areas: &mut [D]) -> Result<Vec<Vec<u8>>, AdoptFault>
    ensures count { IfOk result (λ read. vec_len read ≡ length areas.old) }
    ensures read { IfOk result (λ read. AreAsRead D.Area areas.old areas.new read.items) }
    ensures device { result ≡ Err Failed → FailsAt D.Area areas.old }
    ensures agree { (part : ThePart) → result ≡ Err (Mismatch part) → ⊥ }
{
    let mut read = Vec::with_capacity(alloc, areas.len())?;
    for area in areas.iter_mut() {
        read.push_reserved(read_area(alloc, area)?);
    }
    Ok(read)
}

// What the area holds.
fn read_area<D: Area>(alloc: Global, area: &mut D) -> Result<Vec<u8>, AdoptFault>
    ensures read { IfOk result (λ bytes. IsAsRead D.Area area.old area.new bytes.items) }
    ensures device { result ≡ Err Failed → D.failures area.new ≡ D.failures area.old + 1 }
    ensures agree { (part : ThePart) → result ≡ Err (Mismatch part) → ⊥ }
{
    let mut bytes = Vec::from_elem(alloc, 0, area.len())?;
    fill(area, bytes.as_mut_slice())?;
    Ok(bytes)
}

// Fills these bytes, as many as the area has, with what it holds.
fn fill<D: Area>(area: &mut D, bytes: &mut [u8]) -> Result<(), DeviceFault>
    requires { length bytes.old ≡ length (D.now area.old) }
    ensures read { OnOk result (IsAsRead D.Area area.old area.new bytes.new) }
    ensures device { OnErr result (D.failures area.new ≡ D.failures area.old + 1) }
{
    area.read(0, bytes)
}

/// The bytes of the pages of these areas. It takes memory for them.
pub fn read_pages(
    alloc: Global,
    geometry: &Geometry,
    areas: &[Vec<u8>],
) -> Result<Vec<Vec<u8>>, AllocError>
    requires { AreAreas geometry.now areas.now }
    ensures count { IfOk result (λ pages. vec_len pages ≡ length areas.now) }
    ensures pages { IfOk result (λ pages. AreStarts geometry.now areas.now pages.items) }
{
    let mut pages = Vec::with_capacity(alloc, areas.len())?;
    for area in areas {
        pages.push(read_bytes(alloc, area.as_slice(), geometry.pages)?)?;
    }
    Ok(pages)
}
