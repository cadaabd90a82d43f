//! Events by the lines of scripts, and their replies by the texts.
use crate::expect::equal;
use lc_core::{Event, Reply, World};
use lc_disk::Stoppable;
use lc_record::Geometry;
use lc_text::{Command, Line, parse, write_reply};
use std::alloc::{AllocError, Global};
use std::process::Abort;
use std::test::*;

/// A store of one node, one segment and one page.
pub(crate) const ONE_NODE: Geometry = Geometry {
    nodes: 1,
    threads: 2,
    segments: 1,
    pages: 1,
    words: 64,
};

/// The token of segment 1 is at node 1, and that of segment 2 at node 0.
pub(crate) const TWO_NODES: Geometry = Geometry {
    nodes: 2,
    threads: 1,
    segments: 2,
    pages: 1,
    words: 64,
};

/// What a stop may do to what is not stable.
pub(crate) const STOPS: [&str; 5] = ["stop keep", "stop stable", "stop 00", "stop 7f", "stop a5"];

/// The event of a line.
pub(crate) fn event_of(alloc: Global, line: &str) -> Result<Event, Fail> {
    match parse(alloc, line.as_bytes())? {
        Line::Command(Command::Step(event)) => Ok(event),
        _ => Err(Fail::from("the line is one event")),
    }
}

/// The events of these lines, each of which is one.
pub(crate) fn events_of(alloc: Global, script: &[(&str, &str)]) -> Result<Vec<Event>, AllocError> {
    let mut events = Vec::new(alloc);
    for (line, _) in script {
        if let Line::Command(Command::Step(event)) = parse(alloc, line.as_bytes())? {
            events.push(event)?;
        }
    }
    Ok(events)
}

/// The text of a reply, where its line has room in these bytes.
pub(crate) fn text_of<'a>(reply: &Reply, line: &'a mut [u8; 64]) -> Option<&'a str> {
    let mut rest = line.as_mut_slice();
    let is_written = write_reply(&mut rest, reply).is_ok();
    let left = rest.len();
    if !is_written {
        return None;
    }
    let written = line.get(..line.len().saturating_sub(left))?;
    str::from_utf8(written).ok()?.strip_suffix("\n")
}

/// A store replies so to these lines.
pub(crate) fn play<D: Stoppable + Drop>(
    rt: &impl Abort,
    alloc: Global,
    world: &mut World<D>,
    script: &[(&str, &str)],
) -> Result<(), Fail> {
    for (place, (line, wanted)) in script.iter().enumerate() {
        let reply = world.step(alloc, &event_of(alloc, line)?)?;
        equal(
            rt,
            &format_args!("{line}, at {place}"),
            &text_of(&reply, &mut [0; 64]),
            &Some(*wanted),
        );
    }
    Ok(())
}

/// A store that is down comes up.
pub(crate) fn comes_up<D: Stoppable + Drop>(
    alloc: Global,
    world: &mut World<D>,
) -> Result<(), Fail> {
    match world.recover(alloc) {
        Ok(()) => Ok(()),
        Err(_) => Err(Fail::from("a recovery ends")),
    }
}
