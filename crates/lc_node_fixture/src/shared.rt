//! Areas whose bytes outlive them.
ghost use Rattle.std.specs.Prelude.{◌<◌, ◌^◌, length, replicate, false};
ghost use Rattle.std.proofs.Common.{rules};
ghost use Rattle.std.proofs.lemmas.List.{length-replicate};
ghost use Rattle.lc_disk.specs.Tally.{tallied};

use lc_disk::{Area, DeviceFault, Tally};
use lc_record::Geometry;
use lc_recover::area_len;
use std::alloc::{AllocError, Global};
use std::sync::atomic::{AtomicU8, Ordering};

/// The bytes of the areas of a store, in its order.
#[derive(Drop)]
pub struct Shelf {
    areas: Vec<Vec<AtomicU8>>,
}

impl Shelf {
    /// All zeros.
    pub fn new(alloc: Global, geometry: &Geometry) -> Result<Shelf, AllocError> {
        let mut areas = Vec::new(alloc);
        for place in 0..usize::from(geometry.nodes) + geometry.segments as usize {
            if let Some(len) = area_len(geometry, place) {
                areas.push(zeros(alloc, len)?)?;
            }
        }
        Ok(Shelf { areas })
    }

    /// The areas of these bytes.
    pub fn areas(&self, alloc: Global) -> Result<Vec<SharedArea<'_>>, AllocError> {
        let mut areas = Vec::with_capacity(alloc, self.areas.len())?;
        for bytes in &self.areas {
            areas.push(SharedArea {
                bytes: bytes.as_slice(),
                calls: Tally::new(),
            })?;
        }
        Ok(areas)
    }

    /// Changes a byte of an area, if there is one.
    pub fn change(&self, area: usize, at: usize, byte: u8) {
        if let Some(bytes) = self.areas.get(area) {
            if let Some(place) = bytes.get(at) {
                place.store(byte, Ordering::SeqCst);
            }
        }
    }
}

// So many bytes, all zeros.
fn zeros(alloc: Global, len: usize) -> Result<Vec<AtomicU8>, AllocError> {
    let mut bytes = Vec::with_capacity(alloc, len)?;
    for _ in 0..len {
        bytes.push(AtomicU8::new(0))?;
    }
    Ok(bytes)
}

/// An area of bytes that others may look at, of which no clause says anything.
#[derive(Drop)]
pub struct SharedArea<'a> {
    bytes: &'a [AtomicU8],
    calls: Tally,
    ghost fits: { length bytes.now < 2 ^ 64 },
}

impl Area for SharedArea<'_> {
    ghost now = { λ a. replicate (length a.bytes.now) 0 };

    ghost dirty = { λ a k. false };

    ghost calls = { λ a. tallied a.calls };

    ghost failures = { λ a. 0 };

    ghost honest = { λ a. false };

    ghost reads_bytes = { Prim.search rules };

    ghost len_fits = { λ a. Prim.search (rules, length-replicate) };

    fn len(&self) -> usize {
        self.bytes.len()
    }

    fn read(&mut self, at: usize, buffer: &mut [u8]) -> Result<(), DeviceFault> {
        self.calls.count();
        for place in 0..buffer.len() {
            if let Some(byte) = self.bytes.get(at.wrapping_add(place)) {
                buffer[place] = byte.load(Ordering::SeqCst);
            }
        }
        Ok(())
    }

    fn write_at(&mut self, at: usize, bytes: &[u8]) -> Result<(), DeviceFault> {
        self.calls.count();
        for place in 0..bytes.len() {
            if let Some(byte) = self.bytes.get(at.wrapping_add(place)) {
                byte.store(bytes[place], Ordering::SeqCst);
            }
        }
        Ok(())
    }

    fn sync(&mut self) -> Result<(), DeviceFault> {
        self.calls.count();
        Ok(())
    }

    fn faults(&self) -> u64 {
        0
    }
}
