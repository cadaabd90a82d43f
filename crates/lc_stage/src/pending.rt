//! Words that go into a group together.
ghost use Rattle.std.specs.Prelude.{◌≡◌, ◌+◌, ◌<◌, ◌≤◌, [], ◌∷◌, ◌++◌, length};

use lc_record::Group;
use std::marker::Model;

// How many words wait at most.
const CHUNK_WORDS: usize = 64;

/// The words after those of a group that wait to be added to it, a chunk of them at a time.
#[derive(Drop)]
pub(crate) struct Pending {
    chunk: [u64; CHUNK_WORDS],
    len: usize,
}

impl Model for Pending {
    ghost use Rattle.std.specs.Prelude.{ℕ, List};
    ghost use Rattle.lc_stage.specs.Pending.{pending_words, IsPending};

    ghost Value = { List ℕ };

    ghost view = { pending_words };

    ghost invariant = { IsPending };
}

impl Pending {
    /// No word waits.
    pub(crate) fn new() -> Pending
        ensures { result ≡ [] }
    {
        Pending {
            chunk: [0; CHUNK_WORDS],
            len: 0,
        }
    }

    /// Puts a word after those that wait. Where they are a whole chunk they go into the group before.
    pub(crate) fn push(&mut self, word: u64, group: &mut Group)
        requires { length group.old.words + length self.old < group.old.room }
        ensures words { group.new.words ++ self.new ≡ (group.old.words ++ self.old) ++ word ∷ [] }
        ensures room { group.new.room ≡ group.old.room }
    {
        if self.len == CHUNK_WORDS {
            group.extend(&self.chunk);
            self.len = 0;
        }
        self.chunk[self.len] = word;
        self.len += 1;
    }

    /// Puts the words that wait into the group.
    pub(crate) fn finish(self, group: &mut Group)
        requires { length group.old.words + length self ≤ group.old.room }
        ensures { group.new ≡ record group.old { words = group.old.words ++ self } }
    {
        group.extend(&self.chunk[..self.len]);
    }
}
