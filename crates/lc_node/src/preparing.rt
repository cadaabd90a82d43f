//! The work of a commit, up to its record in the stage.
ghost use Rattle.std.specs.Prelude.{◌≡◌, ◌≤◌, ◌<◌, [], List, Option, map, length, true, false, Ok, IfOk, IfErr, OnErr};
ghost use Rattle.lc_record.specs.declared.part.Part.{Part};
ghost use Rattle.lc_stage.specs.Seats.{commit_view, IsSeatOf, IsIdle};
ghost use Rattle.lc_tx.specs.Images.{bytes_of};
ghost use Rattle.lc_tx.specs.Prepared.{AreSmall};
ghost use Rattle.lc_tx.specs.Tx.{IsIdle as HoldsNothing};
ghost use Rattle.lc_segments.specs.HeldImages.{the_images};
ghost use Rattle.lc_node.specs.Attempts.{IsUnbegun, IsUndone};
ghost use Rattle.lc_node.specs.Commits.{IsUnstaged, StagesWork};
ghost use Rattle.lc_segments.specs.Each.{Each};
ghost use Rattle.lc_node.specs.Each.{EachThree};
ghost use Rattle.lc_segments.specs.Ran.{Ran};
ghost use Rattle.lc_node.specs.Sides.{AreOut, HasMoreRoom, IsCounted};
ghost use Rattle.lc_node.specs.Stages.{Sees};
ghost use Rattle.lc_segments.specs.declared.held.HeldSide.{HeldSide as HeldSides};

use crate::attempting::attempt;
use crate::gate::Gate;
use crate::staging::stage_record;
use crate::taking_out::{count_runs, make_room_in};
use lc_disk::Area;
use lc_segments::{HeldImages, HeldSide, NodeFault, Work};
use lc_stage::{CommitSeat, Stage};
use lc_tx::Tx;
use smallvec::SmallVec;
use std::alloc::{AllocError, Global};

// The segments of the sides, in order. It takes memory for more than 16 alone.
pub(crate) fn segments_in<D: Area + Drop>(
    alloc: Global,
    sides: &[HeldSide<D>],
) -> Result<SmallVec<u32, 16>, AllocError>
    ensures segments { IfOk result (λ segments. segments.items ≡ map (λ h. h.side.segment) sides.now) }
    ensures no_memory { OnErr result (16 < length sides.now) }
{
    let mut segments = SmallVec::new(alloc);
    for held in sides {
        segments.push(held.side.inner.segment())?;
    }
    Ok(segments)
}

// Runs the work in this transaction, which is idle, on these segments, whose images are out, stages the record of
// what it did, in the memory of these words, and counts it at each; false where nothing was set. All memory is taken
// before the record is reserved. Where it is refused, the work is undone. The transaction is idle then.
pub(crate) fn stage_work<D: Area + Drop, W: Work, G: Gate>(
    alloc: Global,
    sides: &mut [HeldSide<D>],
    lent: &mut HeldImages,
    tx: &mut Tx,
    words: &mut Vec<u64>,
    segments: &[u32],
    work: &mut W,
    node: u16,
    stage: &Stage,
    seat: &mut CommitSeat,
    tries: u32,
    gate: &G,
) -> Result<bool, NodeFault>
    requires own { IsSeatOf stage.now seat.old }
    requires idle { IsIdle (commit_view seat.old) }
    requires tries { 0 < tries }
    requires node { node ≤ 7 }
    requires holds_nothing { HoldsNothing tx.old }
    requires small { AreSmall the_images lent.old segments.now }
    requires out { AreOut segments.now sides.old lent.old.slots.items }
    ensures own { IsSeatOf stage.now seat.new }
    ensures idle { IsIdle (commit_view seat.new) }
    ensures holds_nothing { HoldsNothing tx.new }
    ensures staged { result ≡ Ok true → (parts : List (Option Part)) × (mid : List (HeldSides D))
        × Each HasMoreRoom sides.old mid × EachThree IsCounted mid parts sides.new
        × StagesWork (W.ran work.old work.new) node segments.now lent.old parts lent.new (commit_view seat.old)
        (commit_view seat.new) }
    ensures nothing { result ≡ Ok false → (commit_view seat.new ≡ commit_view seat.old)
        × IsUndone the_images segments.now lent.old lent.new
        × Ran (W.ran work.old work.new) segments.now (bytes_of the_images lent.old) (Ok tt)
        (bytes_of the_images lent.new) [] }
    ensures why { IfErr result (λ fault.
        IsUnstaged (W.ran work.old work.new) (IsUnbegun the_images lent.old segments.now) segments.now
        (bytes_of the_images lent.old) stage.now.room tries (commit_view seat.new).seen fault) }
    ensures refused { IfErr result (λ _. Sees (commit_view seat.old) (commit_view seat.new)
        × IsUndone the_images segments.now lent.old lent.new) }
    ensures unchanged { result ≡ Ok false → Each HasMoreRoom sides.old sides.new }
    ensures undone { IfErr result (λ _. Each HasMoreRoom sides.old sides.new) }
{
    match attempt(alloc, tx, words, lent, segments, work, node) {
        Ok(true) => {}
        Ok(false) => {
            tx.release_in_place(lent);
            return Ok(false);
        }
        Err(fault) => return Err(fault.into()),
    }
    if make_room_in(sides, tx.ranges()).is_err() {
        tx.abort_in_place(lent);
        return Err(NodeFault::NoMemory);
    }
    match stage_record(stage, seat, words.as_slice(), tries, gate) {
        Ok(()) => {
            count_runs(sides, lent.slots.as_slice(), tx.ranges());
            tx.release_in_place(lent);
            Ok(true)
        }
        Err(fault) => {
            tx.abort_in_place(lent);
            Err(fault)
        }
    }
}
