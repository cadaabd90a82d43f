//! Which part of a cluster at rest is named where it does not fit.
ghost use Rattle.lc_disk.specs.When.{IsCountable};

use crate::expect::equal;
use crate::stores::{SEGMENTS, come_up, geometry, opened_two};
use lc_core::ClusterPart;
use lc_disk::{Fuse, MemArea, When};
use lc_node::{Commit, Mode, NodeFault, Put};
use lc_node_fixture::{SEGMENT_BYTES, Shelf, put};
use lc_record::Geometry;
use std::alloc::Global;
use std::sync::Wait;
use std::test::*;

const WORDS: u32 = 512;

const HELLO: Put<'static> = Put {
    segment: 2,
    offset: 3,
    bytes: b"hello",
};

const NEVER: When = When::At(0);

// The areas of two nodes, of which the log of the first fails so.
fn fused(alloc: Global, geometry: &Geometry, log: When) -> Result<Vec<Fuse>, Fail>
    requires { IsCountable log }
{
    let mut areas = Vec::new(alloc);
    areas.push(Fuse::new(MemArea::new(alloc, geometry.log_len())?, log))?;
    areas.push(Fuse::new(MemArea::new(alloc, geometry.log_len())?, NEVER))?;
    for _ in 0..SEGMENTS {
        areas.push(Fuse::new(MemArea::new(alloc, SEGMENT_BYTES)?, NEVER))?;
    }
    Ok(areas)
}

#[test]
fn a_log_that_failed_is_named(rt: HostRuntime) -> Result<(), Fail> {
    let alloc = rt.alloc();
    let geometry = geometry(2, WORDS)?;
    let areas = fused(alloc, &geometry, When::From(5))?;
    let (cluster, first, _second) = opened_two(alloc, geometry, areas)?;
    let node = cluster.node(0);
    let (_first, failed) = put(&rt, alloc, node, first, &[2], HELLO, Mode::Flush);
    assert!(rt; matches!(failed, Err(NodeFault::DeviceFault)));
    assert!(rt; node.flush(&rt) == Err(NodeFault::Halted));
    let named = NodeFault::Mismatch {
        part: ClusterPart::Log(0),
    };
    assert!(rt; come_up(&rt, alloc, cluster).err() == Some(named));
    Ok(())
}

// The place of segment 2 among the areas of two nodes.
const SECOND_SEGMENT: usize = 3;

// The bytes of a slot of a page: a head of 16 bytes, whose second half is the number, and the page.
const SLOT_BYTES: usize = 272;

const NUMBER: usize = 8;

const CONTENT: usize = 16;

// What is named where a byte of the first page of segment 2, in both slots, is another than the nodes wrote.
fn named_where_changed<R: Wait>(
    rt: &R,
    alloc: Global,
    at: usize,
) -> Result<Option<NodeFault>, Fail> {
    let geometry = geometry(2, WORDS)?;
    let shelf = Shelf::new(alloc, &geometry)?;
    let (cluster, first, _second) = opened_two(alloc, geometry, shelf.areas(alloc)?)?;
    let node = cluster.node(0);
    let (_first, done) = put(rt, alloc, node, first, &[2], HELLO, Mode::Flush);
    if !matches!(done, Ok(Commit::Flushed(_))) || node.truncate(rt, alloc) != Ok(1) {
        return Err(Fail::from("the page is written"));
    }
    for slot in [0, SLOT_BYTES] {
        shelf.change(SECOND_SEGMENT, slot.wrapping_add(at), 9);
    }
    Ok(come_up(rt, alloc, cluster).err())
}

#[test]
fn a_page_that_was_changed_is_named(rt: HostRuntime) -> Result<(), Fail> {
    for (row, at, part) in [
        ("its number", NUMBER, ClusterPart::Token(2)),
        ("its content", CONTENT + 100, ClusterPart::Image(2)),
    ] {
        equal(
            &rt,
            &row,
            &named_where_changed(&rt, rt.alloc(), at)?,
            &Some(NodeFault::Mismatch { part }),
        );
    }
    Ok(())
}
