//! Copies of the records that peers lack.
ghost use Rattle.std.specs.Prelude.{◌<◌, ◌≤◌, length, IfOk, OnErr};
ghost use Rattle.lc_cluster.specs.Copies.{FitBehind, AreBehind, AreMost, CanBeSent, AreNext, AreAllNext};
ghost use Rattle.lc_segments.specs.Each.{Each};
ghost use Rattle.lc_log_side.specs.Published.{published};

use crate::peer_end::PeerEnd;
use lc_disk::Area;
use lc_line::ROOM;
use lc_log_side::LogSide;
use std::alloc::{AllocError, Global};
use std::collections::VecDeque;

// For each peer copies of the records that it is to be sent next.
pub(crate) fn copies_for<P: Drop, D: Area + Drop>(
    alloc: Global,
    log: &LogSide<D>,
    peers: &[PeerEnd<P>],
) -> Result<Vec<VecDeque<Vec<u64>>>, AllocError>
    ensures fit { IfOk result (λ copies. Each (λ peer lacks. CanBeSent peer lacks.items) peers.now copies.items) }
    ensures next { IfOk result (λ copies.
        Each (λ peer lacks. AreNext (published log.now) peer lacks.items) peers.now copies.items) }
    ensures most { IfOk result (λ copies.
        Each (λ peer lacks. AreAllNext log.now.gone (published log.now) peer lacks.items) peers.now copies.items) }
    ensures memory { OnErr result (0 < length peers.now) }
{
    let mut copies = Vec::with_capacity(alloc, peers.len())?;
    for peer in peers {
        let lacks = copies_from(alloc, log, peer.place)?;
        copies.push_reserved(lacks);
    }
    Ok(copies)
}

// Copies of the records from a place on, as many as a line has room for.
fn copies_from<D: Area + Drop>(
    alloc: Global,
    log: &LogSide<D>,
    place: usize,
) -> Result<VecDeque<Vec<u64>>, AllocError>
    ensures few { IfOk result (λ copies. length copies.items ≤ 64) }
    ensures fit { IfOk result (λ copies. FitBehind place copies.items) }
    ensures behind { IfOk result (λ copies. AreBehind (published log.now) place copies.items) }
    ensures most { IfOk result (λ copies. log.now.gone ≤ place → AreMost (published log.now) place copies.items) }
{
    let mut copies = VecDeque::with_capacity(alloc, ROOM)?;
    let mut at = place;
    for _ in 0..ROOM {
        let Some(words) = log.record_at(at) else {
            return Ok(copies);
        };
        let copy = Vec::from_slice(alloc, words)?;
        at += copy.len();
        copies.push_back_reserved(copy);
    }
    Ok(copies)
}
