//! The recovery of a store on its own.
ghost use Rattle.std.specs.Prelude.{◌≡◌, IfErr, IfOk, IsErr, MatchResult, OnOk};
ghost use Rattle.std.specs.Io.KnownBytes.{Appends};
ghost use Rattle.lc_recover.specs.Recovered.{sequence_of};
ghost use Rattle.lc_look.specs.Recovers.{Explains, Recovers, RecoversAreas, TellsRecovery, stop_status, stop_text};
ghost use Rattle.lc_look.specs.Printed.{Adds};
ghost use Rattle.lc_look.specs.Refused.{RefusesLengths, RefusesMerge};
ghost use Rattle.lc_text.specs.Text.{recovered_text, segment_text};

use crate::status::{DONE, FAULTED, REFUSED};
use crate::teller::{Silent, Teller};
use lc_disk::Area;
use lc_model::Reply;
use lc_record::Geometry;
use lc_recover::{Progress, RecoverFault, Recovered, Recovery};
use lc_text::{WriteFault, write_no_memory, write_reply};
use std::alloc::Global;
use std::io::{self, Write};

/// Recovers the store of these areas and writes the number of each segment, 0 where it has none, in ascending order, a
/// line each, and then that it is recovered. Where it is not recovered the one line says why. It answers the status: 0
/// where the store is recovered, 1 where it is refused or there was no memory, 3 where a device failed. An `Err` is a
/// fault of the writer, and says nothing of what was written.
pub fn recover_areas<D: Area + Drop, W: Write>(
    alloc: Global,
    geometry: Geometry,
    areas: Vec<D>,
    writer: &mut W,
) -> Result<u8, WriteFault>
    // Areas that merge to one result, whatever a stop leaves of them.
    ensures recovers { IfOk result (λ status.
        RecoversAreas D.Area geometry areas.items (W.contents writer.old) (W.contents writer.new) status) }

    // Areas whose merge is refused, and areas that are not those of the geometry.
    ensures refused { IfOk result (λ status.
        RefusesMerge D.Area geometry areas.items (W.contents writer.old) (W.contents writer.new) status) }
    ensures wrong { IfOk result (λ status.
        RefusesLengths D.Area geometry areas.items (W.contents writer.old) (W.contents writer.new) status) }

    // Any areas.
    ensures tells { IfOk result (λ status.
        Adds (TellsRecovery geometry) (W.contents writer.old) (W.contents writer.new) status) }
{
    recover_told(alloc, geometry, areas, &Silent, writer)
}

/// As `recover_areas`, and how far it is is told.
pub fn recover_told<D: Area + Drop, T: Teller, W: Write>(
    alloc: Global,
    geometry: Geometry,
    areas: Vec<D>,
    teller: &T,
    writer: &mut W,
) -> Result<u8, WriteFault>
    ensures recovers { IfOk result (λ status.
        RecoversAreas D.Area geometry areas.items (W.contents writer.old) (W.contents writer.new) status) }
    ensures refused { IfOk result (λ status.
        RefusesMerge D.Area geometry areas.items (W.contents writer.old) (W.contents writer.new) status) }
    ensures wrong { IfOk result (λ status.
        RefusesLengths D.Area geometry areas.items (W.contents writer.old) (W.contents writer.new) status) }
    ensures tells { IfOk result (λ status.
        Adds (TellsRecovery geometry) (W.contents writer.old) (W.contents writer.new) status) }
{
    let recovered = recovered(alloc, geometry, areas, teller);
    teller.finished();
    match recovered {
        Ok(store) => ended(write_recovered(writer, &store), DONE),
        Err(fault) => ended(write_stop(writer, fault), status_of(fault)),
    }
}

// The store that the recovery of these areas makes.
fn recovered<D: Area + Drop, T: Teller>(
    alloc: Global,
    geometry: Geometry,
    areas: Vec<D>,
    teller: &T,
) -> Result<Recovered<D>, RecoverFault>
    ensures recovers { IfOk result (λ store. Recovers D.Area geometry areas.items store) }
    ensures stops { IfErr result (λ fault. Explains D.Area geometry areas.items fault) }
{
    let mut recovery = match Recovery::new(geometry, areas) {
        Ok(recovery) => recovery,
        Err((_, fault)) => return Err(fault),
    };
    while let Progress::Stepped(steps) = recovery.step(alloc)? {
        teller.stepped(steps);
    }
    Ok(recovery.finish())
}

/// The status, where the lines were written.
pub fn ended(written: io::Result<()>, status: u8) -> Result<u8, WriteFault>
    ensures { MatchResult written (λ _. result ≡ Ok status) (λ _. IsErr result) }
{
    written?;
    Ok(status)
}

// Writes the number of each segment, and that the store is recovered.
fn write_recovered<D: Area, W: Write>(writer: &mut W, store: &Recovered<D>) -> io::Result<()>
    ensures { OnOk result (Appends (W.contents writer.old) (W.contents writer.new)
        (recovered_text store.now.geometry (sequence_of store.now))) }
{
    for segment in 1..store.geometry().segments + 1 {
        write_segment(writer, segment, store.sequence(segment))?;
    }
    write_reply(writer, &Reply::Recovered)
}

// Writes a segment and its number.
pub(crate) fn write_segment<W: Write>(writer: &mut W, segment: u32, number: u64) -> io::Result<()>
    ensures { OnOk result (Appends (W.contents writer.old) (W.contents writer.new) (segment_text segment number)) }
{
    write!(writer, "segment {segment} sequence {number}\n")
}

// Writes why the store is not recovered.
pub(crate) fn write_stop<W: Write>(writer: &mut W, fault: RecoverFault) -> io::Result<()>
    ensures { OnOk result (Appends (W.contents writer.old) (W.contents writer.new) (stop_text fault)) }
{
    match fault.refusal() {
        Some(refusal) => write_reply(writer, &Reply::Refused(refusal)),
        None => write_no_memory(writer),
    }
}

// The status of a recovery that has stopped.
pub(crate) fn status_of(fault: RecoverFault) -> u8
    ensures { result ≡ stop_status fault }
{
    match fault {
        RecoverFault::DeviceFault => FAULTED,
        _ => REFUSED,
    }
}
