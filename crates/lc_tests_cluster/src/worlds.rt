//! What threads put last, in the store that their cluster becomes.
use crate::stores::{SEGMENTS, come_up};
use lc_cluster::Cluster;
use lc_core::{Event, Reply, World};
use lc_disk::MemArea;
use lc_record::Items;
use std::alloc::Global;
use std::sync::Wait;
use std::test::Fail;

/// What a thread put last into each segment, from segment 1 on, at its own offset.
pub(crate) type Marks = [u8; SEGMENTS as usize];

/// At least as many as the threads of a cluster.
pub(crate) const MOST_THREADS: usize = 12;

/// Whether these are the bytes with which the segment at this place, from 0, begins: of each thread its mark.
pub(crate) fn are_marks(bytes: &[u8], marks: &[Marks], place: usize) -> bool {
    for (index, mark) in marks.iter().enumerate() {
        if bytes.get(index) != mark.get(place) {
            return false;
        }
    }
    true
}

// Begins a transaction of a segment where its token is, or where it then arrives; at which node.
fn begin_where_it_is(
    alloc: Global,
    world: &mut World<MemArea>,
    nodes: u16,
    segment: u32,
) -> Result<u16, Fail> {
    for node in 0..nodes {
        if world.begin(node, 0, &[segment], &[]).is_ok() {
            return Ok(node);
        }
    }
    if world.arrive(alloc, 0, segment).is_ok() && world.begin(0, 0, &[segment], &[]).is_ok() {
        return Ok(0);
    }
    Err(Fail::from("the token of each segment is somewhere"))
}

// Whether each segment has what each thread put into it last.
fn have_marks(
    alloc: Global,
    world: &mut World<MemArea>,
    nodes: u16,
    marks: &[Marks],
) -> Result<bool, Fail> {
    for place in 0..SEGMENTS {
        let node = begin_where_it_is(alloc, world, nodes, place + 1)?;
        let mut bytes = [0; MOST_THREADS];
        let is_read = world.read(node, 0, place + 1, 0, &mut bytes).is_ok();
        let is_ended = world.abort(alloc, node, 0).is_ok();
        if !is_read || !is_ended || !are_marks(&bytes, marks, place as usize) {
            return Ok(false);
        }
    }
    Ok(true)
}

/// Stops all nodes, and lets them come up.
pub(crate) fn stop_and_recover(alloc: Global, world: &mut World<MemArea>) -> Result<(), Fail> {
    let stop = Event::Stop {
        choices: Items::new(Vec::new(alloc)),
    };
    if !matches!(world.step(alloc, &stop)?, Reply::Down) {
        return Err(Fail::from("a stop is not refused"));
    }
    match world.recover(alloc) {
        Ok(()) => Ok(()),
        Err(_) => Err(Fail::from("a recovery ends")),
    }
}

/// Whether a cluster becomes a store with what each thread put last; once that is stable, also after a stop.
pub(crate) fn comes_up<R: Wait>(
    rt: &R,
    alloc: Global,
    cluster: Cluster<MemArea>,
    marks: &[Marks],
) -> Result<bool, Fail> {
    let nodes = cluster.nodes();
    let Ok(mut world) = come_up(rt, alloc, cluster) else {
        return Ok(false);
    };
    let has_all = have_marks(alloc, &mut world, nodes, marks)?;
    for node in 0..nodes {
        if world.flush(alloc, node).is_err() {
            return Err(Fail::from("a flush ends"));
        }
    }
    stop_and_recover(alloc, &mut world)?;
    Ok(has_all && have_marks(alloc, &mut world, nodes, marks)?)
}
