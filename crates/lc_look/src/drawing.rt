//! The picture of a store.
ghost use Rattle.std.specs.Prelude.{◌≡◌, ◌⊎◌, ◌+◌, ◌*◌, ◌<◌, ◌≤◌, [], IfErr, IfOk, length, map, slice_index_or, true};
ghost use Rattle.lc_record.specs.Lists.{items_of};
ghost use Rattle.lc_recover.specs.Forecast.{sequence_of};
ghost use Rattle.lc_recover.specs.Reads.{AreHonest, AreLeftAs, IsLeftAs};
ghost use Rattle.lc_recover.specs.declared.fault.RecoverFault.TheVariants.{DeviceFault as Failed, NoMemory};
ghost use Rattle.lc_look.specs.Draws.{AreBarsOf, AreEach, AreFieldsOf, AreTrailing, DrawsAreas, FindsPicture};
ghost use Rattle.lc_look.specs.Draws.{HaveBytes, IsBarOf, IsCellOf, IsFieldOf, IsPictureOf, TellsDraw};
ghost use Rattle.lc_look.specs.Dumps.{StopsAt};
ghost use Rattle.lc_look.specs.Printed.{Adds};
ghost use Rattle.lc_look.specs.Refused.{RefusesLengths};

use crate::recovery::{ended, status_of, write_stop};
use crate::status::DONE;
use crate::{LogBar, PageCell, SegmentField, StorePicture, write_picture};
use lc_disk::Area;
use lc_log::{Walk, walk, words_in};
use lc_page::read_page;
use lc_record::Geometry;
use lc_recover::{Forecast, RecoverFault, survey_areas};
use lc_text::WriteFault;
use std::alloc::{AllocError, Global};
use std::io::Write;

/// Writes the picture of the store of these areas, as SVG. It shows the records of each log, and after them the words
/// that were written and are in no record. Of each segment it shows the number that it has after a recovery, and of
/// each page the slot that counts, its number, and whether a recovery would write it. Each area is read, none is synced
/// or written to. It answers the status: 0 where the picture is written, 1 where the recovery would be refused or there
/// was no memory, 3 where a device failed. An `Err` is a fault of the writer, and says nothing of what was written.
pub fn draw_areas<D: Area, W: Write>(
    alloc: Global,
    geometry: &Geometry,
    areas: &mut [D],
    writer: &mut W,
) -> Result<u8, WriteFault>
    // The picture of what they read as, or the line of the refusal of its merge.
    ensures draws { IfOk result (λ status.
        DrawsAreas D.Area geometry.now areas.old (W.contents writer.old) (W.contents writer.new) status) }
    ensures wrong { IfOk result (λ status.
        RefusesLengths D.Area geometry.now areas.old (W.contents writer.old) (W.contents writer.new) status) }

    // Any areas.
    ensures tells { IfOk result (λ status.
        Adds (TellsDraw geometry.now) (W.contents writer.old) (W.contents writer.new) status) }
    ensures left { AreLeftAs D.Area areas.old areas.new }
{
    match picture_of(alloc, geometry, areas) {
        Ok(picture) => ended(write_picture(writer, &picture), DONE),
        Err(fault) => ended(write_stop(writer, fault), status_of(fault)),
    }
}

// The picture of these areas.
fn picture_of<D: Area>(
    alloc: Global,
    geometry: &Geometry,
    areas: &mut [D],
) -> Result<StorePicture, RecoverFault>
    ensures found { IfOk result (FindsPicture D.Area geometry.now areas.old) }
    ensures stops { IfErr result (StopsAt D.Area geometry.now areas.old) }
    ensures left { AreLeftAs D.Area areas.old areas.new }
{
    let forecast = survey_areas(alloc, geometry, areas)?;
    let bytes = read_all(alloc, areas)?;
    Ok(draw(alloc, &forecast, bytes.as_slice())?)
}

// The bytes of each of these areas.
fn read_all<D: Area>(alloc: Global, areas: &mut [D]) -> Result<Vec<Vec<u8>>, RecoverFault>
    ensures lengths { IfOk result (λ all. map (λ bytes. length bytes) (items_of all.items)
        ≡ map (λ d. length (D.now d)) areas.old) }
    ensures bytes { IfOk result (λ all. AreHonest D.Area areas.old → items_of all.items ≡ map D.now areas.old) }
    ensures fault { IfErr result (λ fault. (fault ≡ NoMemory) ⊎ (fault ≡ Failed)) }
    ensures left { AreLeftAs D.Area areas.old areas.new }
{
    let mut all = Vec::with_capacity(alloc, areas.len())?;
    for place in 0..areas.len() {
        let bytes = read_area(alloc, &mut areas[place])?;
        all.push_reserved(bytes);
    }
    Ok(all)
}

// The bytes of an area.
fn read_area<D: Area>(alloc: Global, area: &mut D) -> Result<Vec<u8>, RecoverFault>
    ensures len { IfOk result (λ bytes. length bytes.items ≡ length (D.now area.old)) }
    ensures bytes { IfOk result (λ bytes. D.honest area.old ≡ true → bytes.items ≡ D.now area.old) }
    ensures fault { IfErr result (λ fault. (fault ≡ NoMemory) ⊎ (fault ≡ Failed)) }
    ensures left { IsLeftAs D.Area area.old area.new }
{
    let mut bytes = vec![in alloc; 0; area.len()]?;
    area.read(0, &mut bytes)?;
    Ok(bytes)
}

// The picture of a store whose areas have these bytes.
fn draw(alloc: Global, forecast: &Forecast, areas: &[Vec<u8>]) -> Result<StorePicture, AllocError>
    requires { HaveBytes forecast.now.geometry (items_of areas.now) }
    ensures { IfOk result (IsPictureOf forecast.now.geometry forecast.now.store (items_of areas.now)) }
{
    let geometry = forecast.geometry();
    let bars = bars_of(alloc, geometry.nodes, areas)?;
    let fields = fields_of(alloc, forecast, areas)?;
    Ok(StorePicture {
        geometry,
        bars,
        fields,
    })
}

// The bars of so many logs.
fn bars_of(alloc: Global, nodes: u16, areas: &[Vec<u8>]) -> Result<Vec<LogBar>, AllocError>
    requires { nodes ≤ length areas.now }
    ensures { IfOk result (λ bars. AreBarsOf nodes (items_of areas.now) bars.items) }
{
    let mut bars = Vec::with_capacity(alloc, nodes as usize)?;
    for node in 0..nodes {
        bars.push(bar_of(alloc, node, areas[node as usize].as_slice())?)?;
    }
    Ok(bars)
}

// The bar of the log that these bytes are.
fn bar_of(alloc: Global, node: u16, area: &[u8]) -> Result<LogBar, AllocError>
    ensures { IfOk result (IsBarOf node area.now) }
{
    let Walk { records, end_place } = walk(alloc, area)?;
    let words = words_in(alloc, area)?;
    Ok(LogBar {
        node,
        records,
        end: end_place,
        trailing: trailing_words(&words[end_place..]),
    })
}

// How many of these words there are up to the last that is not zero.
fn trailing_words(words: &[u64]) -> usize
    ensures { AreTrailing words.now result }
{
    let mut trailing = 0;
    for (place, word) in words.iter().enumerate() {
        if *word != 0 {
            trailing = place + 1;
        }
    }
    trailing
}

// The fields of all segments.
fn fields_of(
    alloc: Global,
    forecast: &Forecast,
    areas: &[Vec<u8>],
) -> Result<Vec<SegmentField>, AllocError>
    requires { HaveBytes forecast.now.geometry (items_of areas.now) }
    ensures { IfOk result (λ fields. AreFieldsOf forecast.now.geometry forecast.now.store (items_of areas.now)
        (sequence_of forecast.now) fields.items) }
{
    let geometry = forecast.geometry();
    let mut fields = Vec::with_capacity(alloc, geometry.segments as usize)?;
    for place in 0..geometry.segments {
        let area = areas[geometry.nodes as usize + place as usize].as_slice();
        fields.push(field_of(alloc, forecast, place + 1, area)?)?;
    }
    Ok(fields)
}

// The field of a segment, from 1, whose area has these bytes.
fn field_of(
    alloc: Global,
    forecast: &Forecast,
    segment: u32,
    area: &[u8],
) -> Result<SegmentField, AllocError>
    requires first { 1 ≤ segment }
    requires last { segment ≤ forecast.now.geometry.segments }
    requires len { length area.now ≡ 2 * 272 * forecast.now.geometry.pages }
    ensures { IfOk result (IsFieldOf forecast.now.store forecast.now.geometry.pages segment area.now
        (sequence_of forecast.now segment)) }
{
    let pages = forecast.geometry().pages;
    let mut cells = Vec::with_capacity(alloc, pages as usize)?;
    for page in 0..pages {
        cells.push(cell_of(forecast, segment, page, area))?;
    }
    Ok(SegmentField {
        segment,
        sequence: forecast.sequence(segment),
        cells,
    })
}

// The cell of a page.
fn cell_of(forecast: &Forecast, segment: u32, page: u32, area: &[u8]) -> PageCell
    requires { (2 * page + 2) * 272 ≤ length area.now }
    ensures { IsCellOf forecast.now.store segment area.now page result }
{
    let text = read_page(area, page);
    PageCell {
        page,
        slot: text.slot,
        sequence: text.seq,
        is_behind: forecast.is_behind(segment, page),
    }
}
