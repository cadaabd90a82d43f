//! What a recovery of a store would say.
ghost use Rattle.std.specs.Prelude.{◌≡◌, ◌++◌, ℕ, List, IfOk, OnOk};
ghost use Rattle.std.specs.Io.KnownBytes.{Appends};
ghost use Rattle.lc_recover.specs.Forecast.{sequence_of};
ghost use Rattle.lc_recover.specs.Reads.{AreLeftAs};
ghost use Rattle.lc_text.specs.Text.{recovered_text};
ghost use Rattle.lc_look.specs.Checks.{BehindTexts, ChecksAreas, EndsWithRecovery, IsBehindText, Shows, extent_text};
ghost use Rattle.lc_look.specs.Checks.{logs_text};
ghost use Rattle.lc_look.specs.Printed.{Adds};
ghost use Rattle.lc_look.specs.Refused.{RefusesLengths};

use crate::recovery::{ended, status_of, write_segment, write_stop};
use crate::status::DONE;
use lc_disk::Area;
use lc_model::Reply;
use lc_record::Geometry;
use lc_recover::{Forecast, LogExtent, Survey};
use lc_text::{WriteFault, write_reply};
use std::alloc::Global;
use std::io::{self, Write};

/// Writes how much is in the log of each node, which pages of each segment are behind, and then the lines that a
/// recovery of these areas would write. Each area is read once; none is synced or written to. It answers the status: 0
/// where the store would be recovered, 1 where that would be refused or there was no memory, 3 where a device failed.
/// An `Err` is a fault of the writer, and says nothing of what was written.
pub fn check_areas<D: Area, W: Write>(
    alloc: Global,
    geometry: &Geometry,
    areas: &mut [D],
    writer: &mut W,
) -> Result<u8, WriteFault>
    // The merge of what they read as, and the lines of its recovery.
    ensures checks { IfOk result (λ status.
        ChecksAreas D.Area geometry.now areas.old (W.contents writer.old) (W.contents writer.new) status) }
    ensures wrong { IfOk result (λ status.
        RefusesLengths D.Area geometry.now areas.old (W.contents writer.old) (W.contents writer.new) status) }

    // Any areas.
    ensures tells { IfOk result (λ status.
        Adds (EndsWithRecovery geometry.now) (W.contents writer.old) (W.contents writer.new) status) }
    ensures left { AreLeftAs D.Area areas.old areas.new }
{
    match Survey::read(alloc, geometry, areas) {
        Ok(survey) => show(alloc, geometry, survey, writer),
        Err(fault) => ended(write_stop(writer, fault), status_of(fault)),
    }
}

// What was read, and what a recovery of it would say.
fn show<W: Write>(
    alloc: Global,
    geometry: &Geometry,
    survey: Survey,
    writer: &mut W,
) -> Result<u8, WriteFault>
    requires { survey.geometry ≡ geometry.now }
    ensures shows { IfOk result (λ status.
        Adds (Shows geometry.now survey.store) (W.contents writer.old) (W.contents writer.new) status) }
{
    write_logs(writer, geometry, &survey)?;
    match survey.forecast(alloc) {
        Ok(forecast) => ended(write_forecast(writer, &forecast), DONE),
        Err(fault) => ended(write_stop(writer, fault), status_of(fault)),
    }
}

// Writes how much is in the log of each node.
fn write_logs<W: Write>(writer: &mut W, geometry: &Geometry, survey: &Survey) -> io::Result<()>
    requires { survey.now.geometry ≡ geometry.now }
    ensures { OnOk result (Appends (W.contents writer.old) (W.contents writer.new)
        (logs_text geometry.now survey.now.store)) }
{
    for node in 0..geometry.nodes {
        write_log(writer, node, survey.log(node))?;
    }
    Ok(())
}

// Writes how much is in one log.
fn write_log<W: Write>(writer: &mut W, node: u16, extent: LogExtent) -> io::Result<()>
    ensures { OnOk result (Appends (W.contents writer.old) (W.contents writer.new)
        (extent_text node extent.records extent.words)) }
{
    let LogExtent { records, words } = extent;
    write!(writer, "log {node} records {records} words {words}\n")
}

// Writes which pages are behind, and the lines of the recovery.
fn write_forecast<W: Write>(writer: &mut W, forecast: &Forecast) -> io::Result<()>
    ensures { OnOk result ((text : List ℕ)
        × BehindTexts forecast.now.geometry forecast.now.store 1 forecast.now.geometry.segments text
        × Appends (W.contents writer.old) (W.contents writer.new)
        (text ++ recovered_text forecast.now.geometry (sequence_of forecast.now))) }
{
    write_all_behind(writer, forecast)?;
    write_recovered(writer, forecast)
}

// Writes which pages of each segment are behind.
fn write_all_behind<W: Write>(writer: &mut W, forecast: &Forecast) -> io::Result<()>
    ensures { OnOk result ((text : List ℕ)
        × BehindTexts forecast.now.geometry forecast.now.store 1 forecast.now.geometry.segments text
        × Appends (W.contents writer.old) (W.contents writer.new) text) }
{
    let geometry = forecast.geometry();
    for segment in 1..geometry.segments + 1 {
        write_behind(writer, forecast, segment, geometry.pages)?;
    }
    Ok(())
}

// Writes which of so many pages of a segment are behind.
fn write_behind<W: Write>(
    writer: &mut W,
    forecast: &Forecast,
    segment: u32,
    pages: u32,
) -> io::Result<()>
    ensures { OnOk result ((text : List ℕ) × IsBehindText pages forecast.now.store segment text
        × Appends (W.contents writer.old) (W.contents writer.new) text) }
{
    write!(writer, "segment {segment} behind")?;
    let mut is_none = true;
    for page in 0..pages {
        if forecast.is_behind(segment, page) {
            write!(writer, " {page}")?;
            is_none = false;
        }
    }
    if is_none {
        return writer.write_all(b" none\n");
    }
    writer.write_all(b"\n")
}

// Writes the number of each segment, and that the store is recovered.
fn write_recovered<W: Write>(writer: &mut W, forecast: &Forecast) -> io::Result<()>
    ensures { OnOk result (Appends (W.contents writer.old) (W.contents writer.new)
        (recovered_text forecast.now.geometry (sequence_of forecast.now))) }
{
    for segment in 1..forecast.geometry().segments + 1 {
        write_segment(writer, segment, forecast.sequence(segment))?;
    }
    write_reply(writer, &Reply::Recovered)
}
