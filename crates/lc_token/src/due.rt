//! The parts that are due.
ghost use Rattle.std.specs.Prelude.{◌≡◌, ◌+◌, ◌<◌, ◌≤◌, ◌↔◌, [], ◌∷◌, ◌++◌, length, IsTrue, OnOk, OnErr};
ghost use Rattle.lc_token.specs.Queue.{TakesFirst};

use lc_record::Part;
use std::alloc::{AllocError, Global};
use std::collections::VecDeque;
use std::marker::Model;
use std::mem::replace;

/// The parts that are due, in the order in which they are handed out. The first of them takes no memory.
#[derive(Drop)]
pub struct Due {
    first: Option<Part>,
    behind: VecDeque<Part>,
}

impl Model for Due {
    ghost use Rattle.lc_token.specs.Queue.{Queue};

    ghost Value = { Queue };

    ghost use Rattle.lc_token.specs.Queueing.{queue_of, IsQueue};

    ghost view = { queue_of };

    ghost invariant = { IsQueue };
}

impl Due {
    /// One without parts. It takes no memory.
    pub fn new(alloc: Global) -> Due
        ensures { result.parts ≡ [] }
    {
        Due {
            first: None,
            behind: VecDeque::new(alloc),
        }
    }

    /// Whether no part is due.
    pub fn is_empty(&self) -> bool
        ensures { IsTrue result ↔ (self.now.parts ≡ []) }
    {
        self.first.is_none()
    }

    /// Makes room for so many parts more. It takes memory only where there are two parts or more then.
    pub fn reserve(&mut self, more: usize) -> Result<(), AllocError>
        ensures parts { self.new.parts ≡ self.old.parts }
        ensures room { OnOk result (length self.new.parts + more ≤ self.new.room) }
        ensures memory { OnErr result (1 < length self.old.parts + more) }
    {
        match &self.first {
            Some(_) => self.behind.reserve(more),
            None => self.behind.reserve(more.saturating_sub(1)),
        }
    }

    /// Puts a part after the others, where there is room.
    pub fn push_reserved(&mut self, part: Part)
        requires { length self.old.parts < self.old.room }
        ensures { self.new ≡ record self.old { parts = self.old.parts ++ part ∷ [] } }
    {
        match &self.first {
            Some(_) => self.behind.push_back_reserved(part),
            None => self.first = Some(part),
        }
    }

    /// Takes the first part.
    pub fn pop(&mut self) -> Option<Part>
        ensures { TakesFirst self.old.parts result self.new.parts }
    {
        let next = self.behind.pop_front();
        replace(&mut self.first, next)
    }
}
