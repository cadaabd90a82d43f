//! What a caller does with its seat.
ghost use Rattle.std.specs.Prelude.{◌≡◌, ◌<◌};
ghost use Rattle.lc_stage.specs.Seats.{commit_view, IsSeatOf, IsIdle};
ghost use Rattle.lc_log_side.specs.Receipts.{HasReceipt};

use lc_disk::Area;
use lc_node::{Commit, Confirmed, Gate, Get, Mode, Node, NodeFault, Put};
use lc_stage::{CommitSeat, Receipt};
use std::alloc::Global;
use std::sync::Wait;

/// Nothing happens between a reservation and its closing.
pub struct Open;

impl Gate for Open {
    fn between(&self) {}
}

/// Tries enough for any test.
pub const TRIES: u32 = 1000;

/// Puts bytes into a segment in a transaction on these segments.
pub fn put<D: Area + Drop, R: Wait>(
    rt: &R,
    alloc: Global,
    node: &Node<D>,
    seat: CommitSeat,
    segments: &[u32],
    put: Put,
    mode: Mode,
) -> (CommitSeat, Result<Commit, NodeFault>)
    requires own { IsSeatOf node.now.stage seat }
    requires idle { IsIdle (commit_view seat) }
    ensures own { IsSeatOf node.now.stage result.0 }
    ensures idle { IsIdle (commit_view result.0) }
{
    let mut put = put;
    node.transact(rt, alloc, seat, segments, &mut put, mode, TRIES, &Open)
}

/// The bytes of a segment from an offset on, read in a transaction.
pub fn get<D: Area + Drop, R: Wait>(
    rt: &R,
    alloc: Global,
    node: &Node<D>,
    seat: CommitSeat,
    segment: u32,
    offset: u32,
    len: u32,
) -> (CommitSeat, Option<Vec<u8>>)
    requires own { IsSeatOf node.now.stage seat }
    requires idle { IsIdle (commit_view seat) }
    ensures own { IsSeatOf node.now.stage result.0 }
    ensures idle { IsIdle (commit_view result.0) }
{
    let mut get = Get {
        segment,
        offset,
        len,
        found: Vec::new(alloc),
    };
    let (seat, read) = node.transact(
        rt,
        alloc,
        seat,
        &[segment],
        &mut get,
        Mode::Lazy,
        TRIES,
        &Open,
    );
    match read {
        Ok(Commit::Empty) => (seat, Some(get.found)),
        _ => (seat, None),
    }
}

/// Where the record of a receipt is that the seat has.
pub fn confirm<D: Area + Drop, R: Wait>(
    rt: &R,
    node: &Node<D>,
    seat: CommitSeat,
    receipt: Receipt,
) -> (CommitSeat, Confirmed)
    requires own { IsSeatOf node.now.stage seat }
    requires idle { IsIdle (commit_view seat) }
    requires received { HasReceipt (commit_view seat) receipt }
    ensures own { IsSeatOf node.now.stage result.0 }
    ensures seat { commit_view result.0 ≡ commit_view seat }
{
    let lock = node.log_lock();
    let (mut log, loan) = lock.lock(rt);
    let (seat, confirmed) = node.confirm(seat, &mut log, receipt);
    lock.unlock(log, loan);
    (seat, confirmed)
}

/// Puts bytes into a segment, waits until they are stable, and asks where their record is.
pub fn put_and_confirm<D: Area + Drop, R: Wait>(
    rt: &R,
    alloc: Global,
    node: &Node<D>,
    seat: CommitSeat,
    segments: &[u32],
    put: Put,
) -> (CommitSeat, Option<(Receipt, Confirmed)>)
    requires own { IsSeatOf node.now.stage seat }
    requires idle { IsIdle (commit_view seat) }
    ensures own { IsSeatOf node.now.stage result.0 }
    ensures idle { IsIdle (commit_view result.0) }
{
    let mut put = put;
    match node.transact(
        rt,
        alloc,
        seat,
        segments,
        &mut put,
        Mode::Flush,
        TRIES,
        &Open,
    ) {
        (seat, Ok(Commit::Flushed(receipt))) => {
            let (seat, confirmed) = confirm(rt, node, seat, receipt);
            (seat, Some((receipt, confirmed)))
        }
        (seat, _) => (seat, None),
    }
}
