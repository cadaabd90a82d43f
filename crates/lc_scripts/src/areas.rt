//! The areas that a script runs on.
use crate::case::number;
use anyhow::{Context, bail};
use lc_disk::MemArea;
use lc_record::Geometry;
use lc_recover::zero_areas;
use std::alloc::Global;

/// The areas of a store of this size. They have the bytes that each line of a text says, `AREA POSITION HEX`, and zeros
/// elsewhere. A line that begins with `#` is a comment.
pub(crate) fn areas_with(
    alloc: Global,
    geometry: &Geometry,
    name: &str,
    pieces: &str,
) -> anyhow::Result<Vec<MemArea>> {
    let zeros = zero_areas(alloc, geometry)?;
    let mut bytes = Vec::new(alloc);
    for area in &zeros {
        bytes.push(area.bytes().to_vec(alloc)?)?;
    }
    for (place, line) in pieces.lines().enumerate() {
        if !line.starts_with('#') && put(&mut bytes, line).is_none() {
            let number = place.saturating_add(1);
            bail!("{name}.areas: line {number} is not AREA POSITION HEX within an area");
        }
    }
    let mut areas = Vec::new(alloc);
    for bytes in &bytes {
        areas.push(MemArea::from_bytes(alloc, bytes)?)?;
    }
    Ok(areas)
}

// Puts the bytes of a line where it says, if it says so of an area that reaches as far.
fn put(areas: &mut [Vec<u8>], line: &str) -> Option<()> {
    let mut words = line.split_ascii_whitespace();
    let area: usize = number(&mut words)?;
    let position: usize = number(&mut words)?;
    let digits = words.next()?;
    let bytes = areas.get_mut(area)?;
    let end = position.checked_add(digits.len() / 2)?;
    if bytes.len() < end || words.next().is_some() {
        return None;
    }
    hex::decode_to_slice(digits, &mut bytes[position..end]).ok()
}
