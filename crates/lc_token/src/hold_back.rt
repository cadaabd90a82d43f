//! What a peer has of a segment's records that are not handed out yet.
ghost use Rattle.std.specs.Prelude.{◌≡◌, ◌+◌, ◌⊎◌, ◌<◌, ◌≤◌, ◌^◌, ◌↔◌, [], ◌∷◌, ◌++◌, false, true, length, IfOk, IfErr};
ghost use Rattle.std.specs.Prelude.{IsSome, IsTrue, OnOk, OnErr};
ghost use Rattle.std.specs.Option.{ForSome};
ghost use Rattle.lc_record.specs.Part.{part_of};
ghost use Rattle.lc_record.specs.Record.{Writes};
ghost use Rattle.lc_token.specs.Backlog.{Ascends, HandsOut, HandsOutKept, IsNext, PassesOn, Receives, advanced};
ghost use Rattle.lc_token.specs.Backlog.{counted, due_behind, forgetting, fresh, is_known, keeping};

use crate::due::Due;
use crate::held_parts::HeldParts;
use crate::{Received, TokenFault};
use lc_record::{Part, Record};
use std::alloc::{AllocError, Global};
use std::marker::Model;

/// What a peer has of a segment's records: it may get them in any order, again, or late, and applies their parts in the
/// order of their numbers (log-based coherency: Feeley et al., OSDI 1994). A part whose number is the next is due at
/// once; a greater one is kept until the numbers before it have come.
#[derive(Drop)]
pub struct HoldBack {
    segment: u32,
    applied: u64,
    due: Due,
    kept: HeldParts,
}

impl Model for HoldBack {
    ghost use Rattle.lc_token.specs.Backlog.{Backlog};

    ghost Value = { Backlog };

    ghost use Rattle.lc_token.specs.HoldBack.{backlog_of, IsBacklog};

    ghost view = { backlog_of };

    ghost invariant = { IsBacklog };
}

impl HoldBack {
    /// One of a segment whose records up to a number are applied. It takes no memory.
    pub fn new(alloc: Global, segment: u32, applied: u64) -> HoldBack
        ensures { result ≡ fresh segment applied }
    {
        HoldBack {
            segment,
            applied,
            due: Due::new(alloc),
            kept: HeldParts::new(alloc),
        }
    }

    /// The segment, from 1.
    pub fn segment(&self) -> u32
        ensures { result ≡ self.now.segment }
    {
        self.segment
    }

    /// The number up to which all are applied. What is kept is above it.
    pub fn applied(&self) -> u64
        ensures applied { result ≡ self.now.applied }
        ensures kept { Ascends self.now.applied self.now.kept }
    {
        self.applied
    }

    /// Whether a number was applied, or is kept. It takes no memory.
    pub fn knows(&self, seq: u64) -> bool
        ensures { result ≡ is_known self.now seq }
    {
        seq <= self.applied || self.kept.contains(seq)
    }

    /// Whether a record with this number can be put in place with no copy of its part: it is the next, and no part is
    /// due or kept. It takes no memory.
    pub fn is_next(&self, seq: u64) -> bool
        ensures { IsTrue result ↔ IsNext self.now seq }
    {
        seq.checked_sub(1) == Some(self.applied) && self.due.is_empty() && self.kept.len() == 0
    }

    /// Whether a part is due, which `next` hands out.
    pub fn has_due(&self) -> bool
        ensures some { IsTrue result ↔ (0 < length self.now.due) }
        ensures none { (result ≡ false) ↔ (self.now.due ≡ []) }
    {
        !self.due.is_empty()
    }

    /// Receives a record that has a lock on the segment: `Part::number_in` tells. Its number is compared with that up
    /// to which all are applied. One that was applied or is kept is `Ignored`, and takes no memory. The next is
    /// `Applied`, with all kept ones that follow on without a hole, up to the number in the answer. A greater one is
    /// `HeldBack`. Fails for want of memory alone, and then changes nothing.
    pub fn receive(&mut self, alloc: Global, record: &Record) -> Result<Received, TokenFault>
        requires { IsSome (part_of self.old.segment «record».now) }

        // The whole of the answer and of what it leaves.
        ensures receives { IfOk result (λ answer. ForSome (part_of self.old.segment «record».now) (λ part.
            Receives part self.old answer self.new)) }

        // When each answer comes.
        ensures ignored { ForSome (part_of self.old.segment «record».now) (λ part.
            (result ≡ Ok Received.Ignored) ↔ (is_known self.old part.seq ≡ true)) }
        ensures applied { IfOk result (λ answer. ForSome (part_of self.old.segment «record».now) (λ part.
            (answer ≡ Received.Applied self.new.applied)
            ↔ ((is_known self.old part.seq ≡ false) × (part.seq ≡ self.old.applied + 1)))) }
        ensures held_back { IfOk result (λ answer. ForSome (part_of self.old.segment «record».now) (λ part.
            (answer ≡ Received.HeldBack)
            ↔ ((is_known self.old part.seq ≡ false) × (self.old.applied + 1 < part.seq)))) }

        ensures segment { self.new.segment ≡ self.old.segment }
        ensures no_memory { IfErr result (λ fault. fault ≡ TokenFault.NoMemory) }
        ensures err { OnErr result (self.new ≡ self.old) }

        // Memory is asked for only for a part that is not known: for a copy of its ranges, or for its place beside
        // another part.
        ensures unknown { OnErr result (ForSome (part_of self.old.segment «record».now) (λ part.
            is_known self.old part.seq ≡ false)) }
        ensures memory { OnErr result (Writes self.old.segment «record».now.ranges
            ⊎ (0 < length self.old.due + length self.old.kept)) }
    {
        let seq = Part::number_in(record, self.segment).unwrap();
        if self.knows(seq) {
            return Ok(Received::Ignored);
        }
        let part = Part::of(alloc, record, self.segment)?.unwrap();
        if seq - self.applied > 1 {
            self.keep(part)?;
            return Ok(Received::HeldBack);
        }
        let applied = self.apply(part)?;
        Ok(Received::Applied(applied))
    }

    /// Hands out the next due part, in the order of the numbers; None exactly where none is due. It takes no memory.
    pub fn next(&mut self) -> Option<Part>
        ensures handed { HandsOut self.old result self.new }
        ensures segment { self.new.segment ≡ self.old.segment }
    {
        self.due.pop()
    }

    /// How many parts are kept.
    pub fn kept_len(&self) -> usize
        ensures len { result ≡ length self.now.kept }
        ensures small { result < 2 ^ 63 }
    {
        self.kept.len()
    }

    /// Keeps a part that is not known, until the numbers before it have come. Fails for want of memory alone, which it
    /// takes only where a part is kept already, and then changes nothing.
    pub fn keep(&mut self, part: Part) -> Result<(), AllocError>
        requires { is_known self.old part.seq ≡ false }
        ensures kept { OnOk result (self.new ≡ keeping self.old part) }
        ensures err { OnErr result (self.new ≡ self.old) }
        ensures memory { OnErr result (0 < length self.old.kept) }
    {
        self.kept.put(part)
    }

    /// Forgets the kept part with this number, if there is one. Where a `keep` has just put it there all is then as it
    /// was before, as `forgets_what_it_kept` says. It takes no memory.
    pub fn forget(&mut self, seq: u64)
        ensures { self.new ≡ forgetting self.old seq }
    {
        self.kept.remove(seq);
    }

    /// Hands out the kept part with the next number, and counts it as applied; None exactly where no part with that
    /// number is kept. What is due stays. It takes no memory.
    pub fn take_next(&mut self) -> Option<Part>
        ensures handed { HandsOutKept self.old result self.new }
        ensures segment { self.new.segment ≡ self.old.segment }
    {
        let part = self.kept.take_next(self.applied)?;
        self.applied = part.seq;
        Some(part)
    }

    /// Counts a record of the node's own, with the next number, as applied. What is due and what is kept stay, but for
    /// a kept part of that very number. It takes no memory.
    pub fn own(&mut self, seq: u64)
        requires { seq ≡ self.old.applied + 1 }
        ensures { self.new ≡ counted self.old seq }
    {
        let _ = self.kept.take_next(self.applied);
        self.applied = seq;
    }

    /// Counts a record as applied whose part the node puts in place itself: it has the next number, and no part is due
    /// or kept, as `is_next` tells. What it answers and leaves is as if the part had been received, and handed out at
    /// once. It takes no memory.
    pub fn pass_on(&mut self, seq: u64) -> Received
        requires { IsNext self.old seq }
        ensures answer { result ≡ Received.Applied seq }
        ensures counted { self.new ≡ counted self.old seq }
        ensures passes { PassesOn seq self.old result self.new }
    {
        self.own(seq);
        Received::Applied(seq)
    }

    // Applies a part with the next number, and the kept ones that follow on. All room is made first. It takes memory
    // only where another part is due or kept.
    fn apply(&mut self, part: Part) -> Result<u64, AllocError>
        requires next { part.seq ≡ self.old.applied + 1 }
        requires unknown { is_known self.old part.seq ≡ false }
        ensures advanced { OnOk result (self.new
            ≡ advanced self.old (due_behind self.old.applied (part ∷ self.old.kept))) }
        ensures number { IfOk result (λ number. number ≡ self.new.applied) }
        ensures err { OnErr result (self.new ≡ self.old) }
        ensures memory { OnErr result (0 < length self.old.due + length self.old.kept) }
    {
        self.due.reserve(1 + self.kept.len())?;
        let seq = part.seq;
        self.due.push_reserved(part);
        self.applied = self.kept.move_next(seq, &mut self.due);
        Ok(self.applied)
    }
}
