//! The parts after a hole.
ghost use Rattle.std.specs.Prelude.{◌≡◌, ◌+◌, ◌^◌, ◌<◌, ◌≤◌, [], ◌∷◌, ◌++◌, false, is_some, length, IfOk, OnOk, OnErr};
ghost use Rattle.lc_token.specs.Backlog.{TakesNext, numbered, put, rest_of, run_of, without};
ghost use Rattle.lc_token.specs.Keeping.{IsBeforeFirst, IsBehindFirst};
ghost use Rattle.lc_token.specs.Queue.{TakesFirst};

use crate::due::Due;
use lc_record::Part;
use std::alloc::{AllocError, Global};
use std::collections::BTreeMap;
use std::marker::Model;
use std::mem::replace;

// A map of more has no room in memory: with the first part, there are fewer than 2^63.
const MOST_BEHIND: usize = isize::MAX as usize - 1;

/// The parts that are kept, each found by its number. Contracts see them as a list, ascending by number. The first of
/// them takes no memory.
#[derive(Drop)]
pub struct HeldParts {
    first: Option<Part>,
    behind: BTreeMap<u64, Part>,
}

impl Model for HeldParts {
    ghost use Rattle.std.specs.Prelude.{List};
    ghost use Rattle.lc_record.specs.declared.part.Part.{Part};

    ghost Value = { List Part };

    ghost use Rattle.std.specs.BTreeMap.{values};
    ghost use Rattle.lc_token.specs.Backlog.{led_by};
    ghost use Rattle.lc_token.specs.Keeping.{AreLed};

    ghost view = { λ kept. led_by kept.first (values kept.behind) };

    ghost invariant = { λ kept. AreLed kept.first kept.behind.entries };
}

impl HeldParts {
    /// One without parts. It takes no memory.
    pub fn new(alloc: Global) -> HeldParts
        ensures { result ≡ [] }
    {
        HeldParts {
            first: None,
            behind: BTreeMap::new(alloc),
        }
    }

    /// How many parts there are.
    pub fn len(&self) -> usize
        ensures len { result ≡ length self.now }
        ensures small { result < 2 ^ 63 }
    {
        match &self.first {
            Some(_) => 1 + self.behind.len(),
            None => 0,
        }
    }

    /// Whether a part has this number.
    pub fn contains(&self, seq: u64) -> bool
        ensures { result ≡ is_some (numbered seq self.now) }
    {
        match &self.first {
            Some(first) => first.seq == seq || self.behind.contains_key(&seq),
            None => false,
        }
    }

    /// Puts a part in its place. No part has its number. It takes memory only where there is a part already.
    pub fn put(&mut self, part: Part) -> Result<(), AllocError>
        requires { numbered part.seq self.old ≡ None }
        ensures put { OnOk result (self.new ≡ put part self.old) }
        ensures err { OnErr result (self.new ≡ self.old) }
        ensures memory { OnErr result (0 < length self.old) }
    {
        let Some(first) = &self.first else {
            self.first = Some(part);
            return Ok(());
        };
        if first.seq < part.seq {
            return self.put_behind(part);
        }
        self.put_first(part)
    }

    // Puts a part after the first.
    fn put_behind(&mut self, part: Part) -> Result<(), AllocError>
        requires behind { IsBehindFirst part.seq self.old }
        requires unknown { numbered part.seq self.old ≡ None }
        ensures put { OnOk result (self.new ≡ put part self.old) }
        ensures err { OnErr result (self.new ≡ self.old) }
    {
        if self.behind.len() >= MOST_BEHIND {
            return Err(AllocError);
        }
        self.behind.insert(part.seq, part)?;
        Ok(())
    }

    // Puts a part in front of the first.
    fn put_first(&mut self, part: Part) -> Result<(), AllocError>
        requires { IsBeforeFirst part.seq self.old }
        ensures put { OnOk result (self.new ≡ part ∷ self.old) }
        ensures err { OnErr result (self.new ≡ self.old) }
    {
        if self.behind.len() >= MOST_BEHIND {
            return Err(AllocError);
        }
        let Some(first) = replace(&mut self.first, Some(part)) else {
            unreachable!();
        };
        match self.behind.insert(first.seq, first) {
            Ok(_) => Ok(()),
            Err(failed) => {
                self.first = Some(failed.value.1);
                Err(AllocError)
            }
        }
    }

    /// Takes out the part with this number, if there is one.
    pub fn remove(&mut self, seq: u64)
        ensures { self.new ≡ without seq self.old }
    {
        let Some(first) = &self.first else {
            return;
        };
        if first.seq == seq {
            let _ = self.take_first();
            return;
        }
        let _ = self.behind.remove(&seq);
    }

    /// Takes the first part, if it has the number after this one.
    pub fn take_next(&mut self, applied: u64) -> Option<Part>
        ensures { TakesNext applied self.old result self.new }
    {
        let first = self.first.as_ref()?;
        if first.seq.checked_sub(1) != Some(applied) {
            return None;
        }
        self.take_first()
    }

    // Takes the first part.
    fn take_first(&mut self) -> Option<Part>
        ensures { TakesFirst self.old result self.new }
    {
        let next = match self.behind.pop_first() {
            Some((_, part)) => Some(part),
            None => None,
        };
        replace(&mut self.first, next)
    }

    /// Moves the parts that follow on this number without a hole after those that are due, where there is room for all.
    /// The result is the last number.
    pub fn move_next(&mut self, applied: u64, due: &mut Due) -> u64
        requires { length due.old.parts + length self.old ≤ due.old.room }
        ensures due { due.new.parts ≡ due.old.parts ++ run_of applied self.old }
        ensures kept { self.new ≡ rest_of applied self.old }
        ensures last { result ≡ applied + length (run_of applied self.old) }
    {
        let mut last = applied;
        while let Some(part) = self.take_next(last) {
            last = part.seq;
            due.push_reserved(part);
        }
        last
    }
}
