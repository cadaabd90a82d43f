//! A record that a peer published comes to the segments of a node.
ghost use Rattle.std.specs.Prelude.{◌≡◌, ◌≤◌, ◌<◌, ◌↔◌, ℕ, List, [], All, Some, IsSome, IsTrue, IfOk, IfErr, OnOk};
ghost use Rattle.std.specs.Prelude.{OnErr, length, slice_get, vec_capacity, true, false};
ghost use Rattle.lc_record.specs.declared.record.Record.{Record as Spelled};
ghost use Rattle.lc_node.specs.Delivering.{Answers, HasArrived, IsDelivered, IsReadiedSide};
ghost use Rattle.lc_segments.specs.Each.{Each};
ghost use Rattle.lc_node.specs.Each.{EachThree};
ghost use Rattle.lc_node.specs.Held.{IsHeldOf};
ghost use Rattle.lc_segments.specs.Receptions.{CanFinish, IsReceived};
ghost use Rattle.lc_node.specs.Receptions.{IsFinished, IsPrepared};
ghost use Rattle.lc_segments.specs.declared.held.HeldSide.{HeldSide as Side};
ghost use Rattle.lc_node.specs.declared.node.Node.{Node as TheNode};
ghost use Rattle.lc_segments.specs.declared.node_fault.NodeFault.TheVariants.{NoMemory};

use crate::delivered::Delivered;
use crate::held::Held;
use lc_disk::Area;
use lc_record::View;
use lc_segments::{HeldSide, NodeFault, Reception};
use lc_token::Received;
use std::alloc::Global;

impl<D: Area + Drop> Held<D> {
    /// Takes a record that a peer published in at each of these segments, and then lets the tokens arrive that wait
    /// there and may. All memory is taken before the record changes anything: a refusal, for want of it alone, leaves
    /// all as it was, but that applied parts may be folded. Log-based coherency: Feeley et al., OSDI 1994.
    pub(crate) fn deliver(&mut self, alloc: Global, record: &View) -> Result<Delivered, NodeFault>
        requires here { All (λ h. IsSome h.side.image) self.old.sides.items }
        ensures delivered { OnOk result (Each (IsDelivered «record».now) self.old.sides.items self.new.sides.items) }
        ensures first { IfOk result (λ done. (h g : Side D) → slice_get self.old.sides.items 0 ≡ Some h
            → slice_get self.new.sides.items 0 ≡ Some g → Answers «record».now h done.first g) }
        ensures arrived { IfOk result (λ done. IsTrue done.arrived ↔ ((place : ℕ) × (h : Side D) × (g : Side D)
            × (slice_get self.old.sides.items place ≡ Some h) × (slice_get self.new.sides.items place ≡ Some g)
            × HasArrived h g)) }
        ensures held { (node : TheNode D) → All (IsHeldOf node) self.old.sides.items
            → All (IsHeldOf node) self.new.sides.items }
        ensures err { OnErr result (Each IsReadiedSide self.old.sides.items self.new.sides.items) }
        ensures which { IfErr result (λ fault. fault ≡ NoMemory) }
        ensures memory { OnErr result (0 < length self.old.sides.items) }
    {
        let Ok(mut receptions) = Vec::with_capacity(alloc, self.sides.len()) else {
            return Err(NodeFault::NoMemory);
        };
        if !prepare_all(alloc, &mut self.sides, record, &mut receptions) {
            forgo_all(&mut self.sides, receptions);
            return Err(NodeFault::NoMemory);
        }
        Ok(finish_all(&mut self.sides, receptions))
    }
}

// Makes each segment ready for its part of a record; whether there was memory at each.
fn prepare_all<D: Area + Drop>(
    alloc: Global,
    sides: &mut Vec<HeldSide<D>>,
    record: &View,
    receptions: &mut Vec<Reception>,
) -> bool
    requires none { receptions.old.items ≡ [] }
    requires room { length sides.old.items ≤ vec_capacity receptions.old }
    ensures prepared { EachThree (IsPrepared «record».now) sides.old.items receptions.new.items sides.new.items }
    ensures whole { result ≡ true → All IsReceived receptions.new.items }
    ensures lacking { result ≡ false → 0 < length sides.old.items }
{
    let mut whole = true;
    for place in 0..sides.len() {
        let held = &mut sides[place];
        let reception = held.side.inner.prepare(alloc, record);
        whole = whole && reception.is_received();
        receptions.push_reserved(reception);
    }
    whole
}

// Takes back what was made ready at each.
fn forgo_all<D: Area + Drop>(sides: &mut Vec<HeldSide<D>>, receptions: Vec<Reception>)
    requires { length receptions.items ≡ length sides.old.items }
    ensures { (r : Spelled) (before : List (Side D)) → EachThree (IsPrepared r) before receptions.items sides.old.items
        → Each IsReadiedSide before sides.new.items }
{
    let mut receptions = receptions;
    while let Some(reception) = receptions.pop() {
        let held = &mut sides[receptions.len()];
        held.side.inner.forgo(reception);
    }
}

// Goes on with what was made ready at each, and lets waiting tokens arrive.
fn finish_all<D: Area + Drop>(sides: &mut Vec<HeldSide<D>>, receptions: Vec<Reception>) -> Delivered
    requires here { All (λ h. IsSome h.side.image) sides.old.items }
    requires ready { Each (λ h reception. CanFinish h.side reception) sides.old.items receptions.items }
    ensures delivered { (r : Spelled) (before : List (Side D))
        → EachThree (IsPrepared r) before receptions.items sides.old.items
        → Each (IsDelivered r) before sides.new.items }
    ensures first { (r : Spelled) (before : List (Side D))
        → EachThree (IsPrepared r) before receptions.items sides.old.items
        → (h g : Side D) → slice_get before 0 ≡ Some h → slice_get sides.new.items 0 ≡ Some g
        → Answers r h result.first g }
    ensures arrived { (IsTrue result.arrived) ↔ ((place : ℕ) × (h : Side D) × (g : Side D)
        × (slice_get sides.old.items place ≡ Some h) × (slice_get sides.new.items place ≡ Some g) × HasArrived h g) }
    ensures here { All (λ h. IsSome h.side.image) sides.new.items }
{
    let mut receptions = receptions;
    let mut done = Delivered {
        first: Received::Ignored,
        arrived: false,
    };
    while let Some(reception) = receptions.pop() {
        let held = &mut sides[receptions.len()];
        let here = finish_side(held, reception);
        done.first = here.first;
        done.arrived = here.arrived || done.arrived;
    }
    done
}

// Goes on with what was made ready at a segment, and lets the token arrive that waits there.
fn finish_side<D: Area + Drop>(held: &mut HeldSide<D>, reception: Reception) -> Delivered
    requires here { IsSome held.old.side.image }
    requires ready { CanFinish held.old.side reception }
    ensures finished { IsFinished held.old reception result.first held.new }
    ensures arrived { IsTrue result.arrived ↔ HasArrived held.old held.new }
    ensures here { IsSome held.new.side.image }
{
    let side = &mut *held.side.inner;
    let first = side.finish(reception);
    let arrived = side.admit_waiting();
    Delivered { first, arrived }
}
