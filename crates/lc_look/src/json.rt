//! What a recovery of a store would say, as JSON.
ghost use Rattle.std.specs.Prelude.{◌≡◌, ◌≤◌, ◌++◌, ℕ, List, IfOk, OnOk};
ghost use Rattle.std.specs.Io.KnownBytes.{Appends};
ghost use Rattle.lc_recover.specs.Forecast.{sequence_of};
ghost use Rattle.lc_recover.specs.Reads.{AreLeftAs};
ghost use Rattle.lc_look.specs.Checks.{AreBehindIn};
ghost use Rattle.lc_look.specs.Json.{ChecksJson, EndsJson, IsSegmentJson, RefusesJson, SegmentsJson, ShowsJson};
ghost use Rattle.lc_look.specs.Json.{TellsUnread, comma_text, extent_item, extent_json, fault_json, logs_front};
ghost use Rattle.lc_look.specs.Json.{logs_json, pages_json, record_json, recovered_json, segment_front, segment_item};
ghost use Rattle.lc_look.specs.Json.{stop_json, unread_json};
ghost use Rattle.lc_look.specs.Printed.{Adds};

use crate::recovery::{ended, status_of};
use crate::status::DONE;
use lc_disk::Area;
use lc_record::Geometry;
use lc_recover::{Forecast, LogExtent, RecoverFault, Survey};
use lc_text::WriteFault;
use std::alloc::Global;
use std::io::{self, Write};

/// Writes what `check_areas` finds as the rest of a JSON object: `logs`, `segments`, `refused` and `ok`, with the brace
/// that ends it and a line feed. The keys are the same, and in this order, whatever is found. The status is that of
/// `check_areas`, and `ok` says whether it is 0. Each area is read once; none is synced or written to. An `Err` is a
/// fault of the writer, and says nothing of what was written.
pub fn check_areas_json<D: Area, W: Write>(
    alloc: Global,
    geometry: &Geometry,
    areas: &mut [D],
    writer: &mut W,
) -> Result<u8, WriteFault>
    // The merge of what they read as.
    ensures checks { IfOk result (λ status.
        ChecksJson D.Area geometry.now areas.old (W.contents writer.old) (W.contents writer.new) status) }
    ensures wrong { IfOk result (λ status.
        RefusesJson D.Area geometry.now areas.old (W.contents writer.old) (W.contents writer.new) status) }

    // Any areas.
    ensures tells { IfOk result (λ status.
        Adds (EndsJson geometry.now) (W.contents writer.old) (W.contents writer.new) status) }
    ensures left { AreLeftAs D.Area areas.old areas.new }
{
    match Survey::read(alloc, geometry, areas) {
        Ok(survey) => show(alloc, geometry, survey, writer),
        Err(fault) => refuse_json(writer, fault),
    }
}

/// Writes the same rest of an object where the areas were not read for this reason, and answers the status of a check
/// that ends so. An `Err` is a fault of the writer.
pub fn refuse_json<W: Write>(writer: &mut W, fault: RecoverFault) -> Result<u8, WriteFault>
    ensures tells { IfOk result (λ status.
        Adds (TellsUnread fault) (W.contents writer.old) (W.contents writer.new) status) }
{
    ended(write_unread(writer, fault), status_of(fault))
}

fn write_unread<W: Write>(writer: &mut W, fault: RecoverFault) -> io::Result<()>
    ensures { OnOk result (Appends (W.contents writer.old) (W.contents writer.new) (unread_json fault)) }
{
    write_logs_front(writer)?;
    write_stop(writer, fault)
}

// What was read, and what a recovery of it would say.
fn show<W: Write>(
    alloc: Global,
    geometry: &Geometry,
    survey: Survey,
    writer: &mut W,
) -> Result<u8, WriteFault>
    requires { survey.geometry ≡ geometry.now }
    ensures shows { IfOk result (λ status.
        Adds (ShowsJson geometry.now survey.store) (W.contents writer.old) (W.contents writer.new) status) }
{
    write_all_logs(writer, geometry, &survey)?;
    match survey.forecast(alloc) {
        Ok(forecast) => ended(write_recovered(writer, &forecast), DONE),
        Err(fault) => ended(write_stop(writer, fault), status_of(fault)),
    }
}

// What stands in front of an item of a list.
fn comma(is_first: bool) -> &'static str
    ensures { result.now ≡ comma_text is_first }
{
    if is_first { "" } else { "," }
}

fn write_logs_front<W: Write>(writer: &mut W) -> io::Result<()>
    ensures { OnOk result (Appends (W.contents writer.old) (W.contents writer.new) logs_front) }
{
    writer.write_all(b"\"logs\":[")
}

fn write_all_logs<W: Write>(writer: &mut W, geometry: &Geometry, survey: &Survey) -> io::Result<()>
    requires { survey.now.geometry ≡ geometry.now }
    ensures { OnOk result (Appends (W.contents writer.old) (W.contents writer.new)
        (logs_front ++ logs_json geometry.now survey.now.store)) }
{
    write_logs_front(writer)?;
    write_logs(writer, geometry, survey)
}

// Writes how much is in the log of each node.
fn write_logs<W: Write>(writer: &mut W, geometry: &Geometry, survey: &Survey) -> io::Result<()>
    requires { survey.now.geometry ≡ geometry.now }
    ensures { OnOk result (Appends (W.contents writer.old) (W.contents writer.new)
        (logs_json geometry.now survey.now.store)) }
{
    for node in 0..geometry.nodes {
        write_log(writer, node, survey.log(node))?;
    }
    Ok(())
}

// Writes how much is in one log.
fn write_log<W: Write>(writer: &mut W, node: u16, extent: LogExtent) -> io::Result<()>
    ensures { OnOk result (Appends (W.contents writer.old) (W.contents writer.new)
        (extent_json node extent.records extent.words)) }
{
    write_comma(writer, node == 0)?;
    let LogExtent { records, words } = extent;
    write_extent(writer, node, records, words)
}

fn write_comma<W: Write>(writer: &mut W, is_first: bool) -> io::Result<()>
    ensures { OnOk result (Appends (W.contents writer.old) (W.contents writer.new) (comma_text is_first)) }
{
    writer.write_all(comma(is_first).as_bytes())
}

fn write_extent<W: Write>(writer: &mut W, node: u16, records: usize, words: usize) -> io::Result<()>
    ensures { OnOk result (Appends (W.contents writer.old) (W.contents writer.new) (extent_item node records words)) }
{
    write!(
        writer,
        "{{\"node\":{node},\"records\":{records},\"words\":{words}}}"
    )
}

// Writes the segments of a store that would be recovered.
fn write_recovered<W: Write>(writer: &mut W, forecast: &Forecast) -> io::Result<()>
    ensures { OnOk result ((segments : List ℕ)
        × SegmentsJson forecast.now.geometry forecast.now.store
        (sequence_of forecast.now) 1 forecast.now.geometry.segments segments
        × Appends (W.contents writer.old) (W.contents writer.new) (recovered_json segments)) }
{
    writer.write_all(b"],\"segments\":[")?;
    write_segments(writer, forecast)?;
    writer.write_all(b"],\"refused\":null,\"ok\":true}\n")
}

// Writes each segment.
fn write_segments<W: Write>(writer: &mut W, forecast: &Forecast) -> io::Result<()>
    ensures { OnOk result ((segments : List ℕ)
        × SegmentsJson forecast.now.geometry forecast.now.store
        (sequence_of forecast.now) 1 forecast.now.geometry.segments segments
        × Appends (W.contents writer.old) (W.contents writer.new) segments) }
{
    let geometry = forecast.geometry();
    for segment in 1..geometry.segments + 1 {
        write_segment(writer, forecast, segment, geometry.pages)?;
    }
    Ok(())
}

// Writes the number of a segment of so many pages, and which of them are behind.
fn write_segment<W: Write>(
    writer: &mut W,
    forecast: &Forecast,
    segment: u32,
    pages: u32,
) -> io::Result<()>
    requires first { 1 ≤ segment }
    requires last { segment ≤ forecast.now.geometry.segments }
    ensures { OnOk result ((text : List ℕ)
        × IsSegmentJson pages forecast.now.store (sequence_of forecast.now) segment text
        × Appends (W.contents writer.old) (W.contents writer.new) text) }
{
    write_segment_front(writer, segment, forecast.sequence(segment))?;
    write_pages(writer, forecast, segment, pages)?;
    writer.write_all(b"]}")
}

fn write_segment_front<W: Write>(writer: &mut W, segment: u32, sequence: u64) -> io::Result<()>
    ensures { OnOk result (Appends (W.contents writer.old) (W.contents writer.new) (segment_front segment sequence)) }
{
    write_comma(writer, segment == 1)?;
    write_segment_item(writer, segment, sequence)
}

fn write_segment_item<W: Write>(writer: &mut W, segment: u32, sequence: u64) -> io::Result<()>
    ensures { OnOk result (Appends (W.contents writer.old) (W.contents writer.new) (segment_item segment sequence)) }
{
    write!(
        writer,
        "{{\"segment\":{segment},\"sequence\":{sequence},\"behind\":["
    )
}

// Writes which of so many pages of a segment are behind.
fn write_pages<W: Write>(
    writer: &mut W,
    forecast: &Forecast,
    segment: u32,
    pages: u32,
) -> io::Result<()>
    ensures { OnOk result ((behind : List ℕ) × AreBehindIn pages forecast.now.store segment behind
        × Appends (W.contents writer.old) (W.contents writer.new) (pages_json behind)) }
{
    let mut is_first = true;
    for page in 0..pages {
        if forecast.is_behind(segment, page) {
            let comma = comma(is_first);
            write!(writer, "{comma}{page}")?;
            is_first = false;
        }
    }
    Ok(())
}

// Writes why the store is not recovered, after the logs.
fn write_stop<W: Write>(writer: &mut W, fault: RecoverFault) -> io::Result<()>
    ensures { OnOk result (Appends (W.contents writer.old) (W.contents writer.new) (stop_json fault)) }
{
    writer.write_all(b"],\"segments\":[],\"refused\":")?;
    write_fault(writer, fault)?;
    writer.write_all(b",\"ok\":false}\n")
}

fn write_fault<W: Write>(writer: &mut W, fault: RecoverFault) -> io::Result<()>
    ensures { OnOk result (Appends (W.contents writer.old) (W.contents writer.new) (fault_json fault)) }
{
    match fault {
        RecoverFault::BadGeometry { area } => {
            write!(writer, "{{\"why\":\"BadGeometry\",\"area\":{area}}}")
        }
        RecoverFault::OutOfSegment { area } => {
            write!(writer, "{{\"why\":\"OutOfSegment\",\"area\":{area}}}")
        }
        RecoverFault::Twice { segment, seq } => write_record(writer, "Twice", segment, seq),
        RecoverFault::Gap { segment, seq } => write_record(writer, "Gap", segment, seq),
        RecoverFault::DeviceFault => write!(writer, "{{\"why\":\"DeviceFault\"}}"),
        RecoverFault::NoMemory => write!(writer, "{{\"why\":\"NoMemory\"}}"),
    }
}

fn write_record<W: Write>(writer: &mut W, why: &str, segment: u32, seq: u64) -> io::Result<()>
    ensures { OnOk result (Appends (W.contents writer.old) (W.contents writer.new) (record_json why.now segment seq)) }
{
    write!(
        writer,
        "{{\"why\":\"{why}\",\"segment\":{segment},\"sequence\":{seq}}}"
    )
}
