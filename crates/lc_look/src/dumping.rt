//! A page of a store as it would be after a recovery.
ghost use Rattle.std.specs.Prelude.{◌≡◌, ◌↔◌, ◌+◌, ◌-◌, ◌*◌, ◌<◌, ◌≤◌, ◌^◌, ◌++◌, [], IfErr, IfOk, OnOk, IsTrue, is_ok};
ghost use Rattle.std.specs.Prelude.{true, length, take, drop, flat_map, map, slice_get, slice_index_or, Some};
ghost use Rattle.std.specs.Io.KnownBytes.{Appends};
ghost use Rattle.lc_recover.specs.Reads.{AreHonest, AreLeftAs};
ghost use Rattle.lc_look.specs.Dumps.{DumpsAreas, FindsPage, HasThePage, LacksPage, StopsAt, TellsDump, both_slots};
ghost use Rattle.lc_look.specs.Dumps.{dump_line, dump_text, no_page_text, shown, slot_text, slots_text, spaced};
ghost use Rattle.lc_look.specs.Printed.{Adds};
ghost use Rattle.lc_look.specs.Refused.{RefusesLengths};

use crate::recovery::{ended, status_of, write_stop};
use crate::status::{DONE, REFUSED};
use lc_disk::{Area, DeviceFault};
use lc_page::{PAGE_BYTES, SLOT_BYTES};
use lc_record::Geometry;
use lc_recover::{RecoverFault, survey_areas};
use lc_text::{WriteFault, write_hex};
use std::alloc::Global;
use std::io::{self, Write};

// How many slots a page has.
const SLOTS: usize = 2;

// How many bytes stand in a line.
const LINE: usize = 16;

/// Writes a page of a segment, from 1, as it would be after a recovery of these areas, and its two slots as they read.
/// Each area is read, none is synced or written to. It answers the status: 0 where the page is written, 1 where there
/// is none, the recovery would be refused or there was no memory, 3 where a device failed. An `Err` is a fault of the
/// writer, and says nothing of what was written.
pub fn dump_areas<D: Area, W: Write>(
    alloc: Global,
    geometry: &Geometry,
    areas: &mut [D],
    segment: u32,
    page: u32,
    writer: &mut W,
) -> Result<u8, WriteFault>
    ensures dumps { IfOk result (λ status.
        DumpsAreas D.Area geometry.now areas.old segment page (W.contents writer.old) (W.contents writer.new) status) }
    ensures wrong { IfOk result (λ status. HasThePage geometry.now segment page
        → RefusesLengths D.Area geometry.now areas.old (W.contents writer.old) (W.contents writer.new) status) }
    ensures lacks { IfOk result (λ status. (HasThePage geometry.now segment page → ⊥)
        → Adds (LacksPage segment page) (W.contents writer.old) (W.contents writer.new) status) }
    ensures tells { IfOk result (λ status.
        Adds (TellsDump segment page) (W.contents writer.old) (W.contents writer.new) status) }
    ensures left { AreLeftAs D.Area areas.old areas.new }
{
    if has_page(geometry, segment, page) {
        return dump_found(alloc, geometry, areas, segment, page, writer);
    }
    ended(write_no_page(writer, segment, page), REFUSED)
}

// The page of these areas, which have it, or why it is not shown.
fn dump_found<D: Area, W: Write>(
    alloc: Global,
    geometry: &Geometry,
    areas: &mut [D],
    segment: u32,
    page: u32,
    writer: &mut W,
) -> Result<u8, WriteFault>
    requires { HasThePage geometry.now segment page }
    ensures dumps { IfOk result (λ status.
        DumpsAreas D.Area geometry.now areas.old segment page (W.contents writer.old) (W.contents writer.new) status) }
    ensures wrong { IfOk result (λ status.
        RefusesLengths D.Area geometry.now areas.old (W.contents writer.old) (W.contents writer.new) status) }
    ensures tells { IfOk result (λ status.
        Adds (TellsDump segment page) (W.contents writer.old) (W.contents writer.new) status) }
    ensures left { AreLeftAs D.Area areas.old areas.new }
{
    match page_of(alloc, geometry, areas, segment, page) {
        Ok(found) => ended(write_dump(writer, page, &found), DONE),
        Err(fault) => ended(write_stop(writer, fault), status_of(fault)),
    }
}

// A page as it would be, and its slots as they read.
#[derive(Clone, Copy)]
struct FoundPage {
    bytes: [u8; PAGE_BYTES],
    slots: [u8; SLOTS * SLOT_BYTES],
}

// The page of these areas, which have it.
fn page_of<D: Area>(
    alloc: Global,
    geometry: &Geometry,
    areas: &mut [D],
    segment: u32,
    page: u32,
) -> Result<FoundPage, RecoverFault>
    requires { HasThePage geometry.now segment page }
    ensures found { IfOk result (FindsPage D.Area geometry.now areas.old segment page) }
    ensures stops { IfErr result (StopsAt D.Area geometry.now areas.old) }
    ensures left { AreLeftAs D.Area areas.old areas.new }
{
    let forecast = survey_areas(alloc, geometry, areas)?;
    let place = geometry.nodes as usize + segment as usize - 1;
    let slots = read_slots(areas, place, page)?;
    Ok(FoundPage {
        bytes: forecast.page(segment, page),
        slots,
    })
}

// The two slots of a page of the area at this place, as they read.
fn read_slots<D: Area>(
    areas: &mut [D],
    place: usize,
    page: u32,
) -> Result<[u8; SLOTS * SLOT_BYTES], DeviceFault>
    requires within { place < length areas.old }
    requires room { (d : D) → slice_get areas.old place ≡ Some d → page * 544 + 544 ≤ length (D.now d) }
    ensures slots { IfOk result (λ slots. AreHonest D.Area areas.old
        → slots ≡ both_slots (slice_index_or (map D.now areas.old) place []) page) }
    ensures left { AreLeftAs D.Area areas.old areas.new }
{
    let mut slots = [0; SLOTS * SLOT_BYTES];
    areas[place].read(page as usize * slots.len(), &mut slots)?;
    Ok(slots)
}

// Whether a store of this size has the page of the segment.
fn has_page(geometry: &Geometry, segment: u32, page: u32) -> bool
    ensures { IsTrue result ↔ HasThePage geometry.now segment page }
{
    1 <= segment && segment <= geometry.segments && page < geometry.pages
}

// Writes that there is no such page.
fn write_no_page<W: Write>(writer: &mut W, segment: u32, page: u32) -> io::Result<()>
    ensures { OnOk result (Appends (W.contents writer.old) (W.contents writer.new) (no_page_text segment page)) }
{
    write!(writer, "no page {page} of segment {segment}\n")
}

// Writes the bytes of a page, and its slots.
fn write_dump<W: Write>(writer: &mut W, page: u32, found: &FoundPage) -> io::Result<()>
    requires { page < 1024 }
    ensures { OnOk result (Appends (W.contents writer.old) (W.contents writer.new)
        (dump_text page found.now.bytes ++ slots_text found.now.slots)) }
{
    write_page(writer, page, &found.bytes)?;
    let (first, second) = found.slots.split_at(SLOT_BYTES);
    write_slot(writer, 0, first)?;
    write_slot(writer, 1, second)
}

// Writes the bytes of a page, sixteen a line.
fn write_page<W: Write>(writer: &mut W, page: u32, bytes: &[u8; PAGE_BYTES]) -> io::Result<()>
    requires { page < 1024 }
    ensures { OnOk result (Appends (W.contents writer.old) (W.contents writer.new) (dump_text page bytes.now)) }
{
    for line in 0..PAGE_BYTES / LINE {
        let from = line * LINE;
        write_line(
            writer,
            page as usize * PAGE_BYTES + from,
            &bytes[from..from + LINE],
        )?;
    }
    Ok(())
}

// Writes some bytes, with the address in their segment where they stand.
fn write_line<W: Write>(writer: &mut W, address: usize, bytes: &[u8]) -> io::Result<()>
    requires { address < 2 ^ 32 }
    ensures { OnOk result (Appends (W.contents writer.old) (W.contents writer.new) (dump_line address bytes.now)) }
{
    write_hex(writer, &(address as u32).to_be_bytes())?;
    writer.write_all(b" ")?;
    write_spaced(writer, bytes)?;
    writer.write_all(b"  |")?;
    write_characters(writer, bytes)?;
    writer.write_all(b"|\n")
}

// Writes bytes, each after a space.
fn write_spaced<W: Write>(writer: &mut W, bytes: &[u8]) -> io::Result<()>
    ensures { OnOk result (Appends (W.contents writer.old) (W.contents writer.new) (flat_map spaced bytes.now)) }
{
    for byte in bytes {
        writer.write_all(b" ")?;
        write_hex(writer, &[*byte])?;
    }
    Ok(())
}

// Writes bytes as characters.
fn write_characters<W: Write>(writer: &mut W, bytes: &[u8]) -> io::Result<()>
    ensures { OnOk result (Appends (W.contents writer.old) (W.contents writer.new) (map shown bytes.now)) }
{
    for byte in bytes {
        writer.write_all(&[character(*byte)])?;
    }
    Ok(())
}

// A byte as it is shown: one that is no printed character of ASCII as a full stop.
fn character(byte: u8) -> u8
    ensures { result ≡ shown byte }
{
    if 32 <= byte && byte < 127 { byte } else { b'.' }
}

// Writes the gate and the number of a slot.
fn write_slot<W: Write>(writer: &mut W, slot: usize, bytes: &[u8]) -> io::Result<()>
    requires { length bytes.now ≡ 272 }
    ensures { OnOk result (Appends (W.contents writer.old) (W.contents writer.new) (slot_text slot bytes.now)) }
{
    write!(writer, "slot {slot} gate ")?;
    write_hex(writer, &bytes[..1])?;
    let mut word = [0; 8];
    word.copy_from_slice(&bytes[8..16]);
    let number = u64::from_le_bytes(word);
    write!(writer, " number {number}\n")
}
