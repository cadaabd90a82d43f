//! A record that a peer published comes to a segment.
ghost use Rattle.std.specs.Prelude.{◌≡◌, ◌↔◌, IsTrue, IsSome, IfOk, OnErr, Option};
ghost use Rattle.lc_record.specs.Part.{part_of};
ghost use Rattle.lc_record.specs.declared.part.Part.{Part as ThePart};
ghost use Rattle.lc_segments.specs.Delivering.{IsAwaited, IsReadied, TakesIn};
ghost use Rattle.lc_segments.specs.Receptions.{Prepares, CanFinish};
ghost use Rattle.lc_segments.specs.SegView.{SegView};

use crate::reception::Reception;
use crate::seg_side::SegSide;
use lc_disk::Area;
use lc_record::View;
use lc_token::Received;
use std::alloc::{AllocError, Global};

impl<D: Area + Drop> SegSide<D> {
    // Whether a part with this number would be applied at once.
    fn awaits(&self, seq: u64) -> bool
        ensures { IsTrue result ↔ IsAwaited self.now seq }
    {
        self.token.is_empty() && seq.checked_sub(1) == Some(self.applied_number())
    }

    /// Makes ready for its part of a record, which is copied where it is not known here: all memory is taken, and a
    /// part that is not the next is held back at once.
    pub fn prepare(&mut self, alloc: Global, record: &View) -> Reception
        ensures { Prepares (part_of self.old.segment «record».now) self.old result self.new }
    {
        match self.make_ready(alloc, record) {
            Ok(reception) => reception,
            Err(_) => Reception::NoMemory,
        }
    }

    fn make_ready(&mut self, alloc: Global, record: &View) -> Result<Reception, AllocError>
        ensures ready { IfOk result (λ reception.
            Prepares (part_of self.old.segment «record».now) self.old reception self.new) }
        ensures err { OnErr result (Prepares
            (part_of self.old.segment «record».now) self.old Reception.NoMemory self.new) }
    {
        let Some(seq) = record.number_in(self.segment) else {
            return Ok(Reception::Ignored);
        };
        if self.knows(seq) {
            return Ok(Reception::Ignored);
        }
        let Some(part) = record.part(alloc, self.segment)? else {
            unreachable!();
        };
        if !self.awaits(seq) {
            self.keep(part)?;
            return Ok(Reception::HeldBack(seq));
        }
        self.fold_grown();
        self.make_room_for()?;
        Ok(Reception::Next(part))
    }

    /// Takes back what was made ready: but that parts may be folded and that there may be more room for them, all is as
    /// it was.
    pub fn forgo(&mut self, reception: Reception)
        ensures { (part : Option ThePart) (before : SegView D) → Prepares part before reception self.old
            → IsReadied before self.new }
    {
        if let Reception::HeldBack(seq) = reception {
            self.forget(seq);
        }
    }

    /// Applies the part that was made ready, if it is the next, and answers what became of it. It takes no memory.
    pub fn finish(&mut self, reception: Reception) -> Received
        requires here { IsSome self.old.image }
        requires ready { CanFinish self.old reception }
        ensures takes { (part : Option ThePart) (before : SegView D) → Prepares part before reception self.old
            → TakesIn part before result self.new }
        ensures same { self.new.standing ≡ self.old.standing }
        ensures here { IsSome self.new.image }
    {
        match reception {
            Reception::Next(part) => {
                self.apply(part);
                Received::Applied(self.applied_number())
            }
            Reception::HeldBack(_) => Received::HeldBack,
            Reception::Ignored | Reception::NoMemory => Received::Ignored,
        }
    }
}
