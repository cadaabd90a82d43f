//! A server of names: it serves up to eight clients at once, each by a thread of its own on one running node, and
//! prints each reply as soon as it is durable.
#![tactic(auto)]

mod clients;
mod fault;
mod help;
mod input;
mod request;

use fault::Fault;
use lc_files::StoreFolder;
use lc_record::Geometry;
use lc_store::Serving;
use std::alloc::AllocError;
use std::process::ExitCode;
use std::{env, io, thread};

// The status where the arguments or a line is not understood.
const NOT_UNDERSTOOD: u8 = 2;

// The status where the device failed or has no such store.
const DEVICE_FAULT: u8 = 3;

fn main(rt: HostRuntime) -> io::Result<ExitCode> {
    let alloc = rt.alloc();
    let mut words = env::args(&rt)?.skip(1);
    let (Some(path), None) = (words.next(), words.next()) else {
        rt.eprintln("names: one FOLDER is wanted; names --help says more")?;
        return Ok(ExitCode::from(NOT_UNDERSTOOD));
    };
    if matches!(path.as_str(), "--help" | "-h") {
        rt.print(help::HELP)?;
        return Ok(ExitCode::SUCCESS);
    }
    let (queues, receivers) = input::Queues::open(alloc)?;
    let filled = queues.clone()?;
    // It is joined only after its end: a thread that waits for input cannot be stopped.
    let reader = thread::spawn(&rt, move || filled.fill(&rt)).map_err(AllocError::from)?;
    let folder = StoreFolder::shared(alloc, rt, &path)?;
    // One node with 8 threads, one segment of 16 pages, and a log of 4096 words.
    let geometry = Geometry::new(1, 8, 1, 16, 4096).unwrap();
    let served = match Serving::open(alloc, &folder, geometry) {
        Ok((serving, seat)) => clients::serve(&rt, &serving.node, seat, &queues, receivers, reader),
        Err(fault) => {
            if folder.fault().is_none() {
                eprintln!(rt; "names: {path}: {fault}")?;
            }
            Err(Fault::Device)
        }
    };
    folder.tell();
    let is_well = folder.fault().is_none();
    match served {
        Ok(true) if is_well => Ok(ExitCode::SUCCESS),
        Ok(false) if is_well => Ok(ExitCode::from(NOT_UNDERSTOOD)),
        Ok(_) | Err(Fault::Device) => {
            rt.println(Fault::Device)?;
            Ok(ExitCode::from(DEVICE_FAULT))
        }
        Err(fault) => {
            eprintln!(rt; "names: {fault}")?;
            Ok(ExitCode::FAILURE)
        }
    }
}
