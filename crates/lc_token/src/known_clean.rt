//! What a node has seen of how clean segments are.
ghost use Rattle.std.specs.Prelude.{◌≡◌, ◌≤◌};

use crate::Token;
use std::marker::Model;

const SEGMENTS: usize = 16;

/// The greatest `clean` that a node has seen of each segment, from 1 to 16. It takes no memory. This project's own.
#[derive(Drop)]
pub struct KnownClean {
    numbers: [u64; SEGMENTS],
}

impl Model for KnownClean {
    ghost use Rattle.std.specs.Prelude.{ℕ, List};

    ghost Value = { List ℕ };

    ghost view = { λ k. k.numbers };
}

impl KnownClean {
    ghost use Rattle.lc_token.specs.KnownClean.{known, KnowsNothing, Sees};

    /// Nothing was seen: each number is 0.
    pub fn new() -> KnownClean
        ensures { KnowsNothing result }
    {
        KnownClean {
            numbers: [0; SEGMENTS],
        }
    }

    /// Takes in the token's `clean`. Its segment is from 1 to 16.
    pub fn see(&mut self, token: &Token)
        requires first { 1 ≤ token.now.segment }
        requires last { token.now.segment ≤ 16 }
        ensures { Sees self.old token.now self.new }
    {
        let place = token.segment() as usize - 1;
        self.numbers[place] = self.numbers[place].max(token.clean());
    }

    /// The greatest `clean` that was seen of this segment; 0 where none was, and for a number that no segment has.
    pub fn known_clean(&self, segment: u32) -> u64
        ensures { result ≡ known self.now segment }
    {
        let Some(place) = (segment as usize).checked_sub(1) else {
            return 0;
        };
        self.numbers.get(place).copied().unwrap_or(0)
    }
}
