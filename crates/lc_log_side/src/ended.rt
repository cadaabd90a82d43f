//! The words of the records of the rounds that have ended.
ghost use Rattle.std.specs.Prelude.{◌≡◌, ◌+◌, ◌-◌, ◌^◌, ◌<◌, ◌≤◌, ◌++◌, [], drop, length, vec_len, vec_capacity, OnOk};
ghost use Rattle.std.specs.Prelude.{OnErr};

use std::alloc::{AllocError, Global};
use std::marker::Model;

/// The words of the records of the rounds that have ended, of which those in front may have been dropped. What is
/// dropped is moved out only where it is more than half of the words, so that a word is moved at most once for each
/// that goes.
#[derive(Drop)]
pub struct Ended {
    words: Vec<u64>,
    // How many of these words, in front, were dropped and are not yet moved out.
    cut: usize,
    // How many were moved out.
    moved: u64,
}

impl Model for Ended {
    ghost use Rattle.std.specs.Prelude.{◌+◌, ◌-◌, drop, vec_len, vec_capacity};
    ghost use Rattle.lc_log_side.specs.Ended.{EndedWords, HasShortFront};

    ghost Value = { EndedWords };

    ghost view = { λ e. record { gone = e.moved + e.cut; words = drop e.cut e.words.items; room = vec_capacity e.words - vec_len e.words } };

    ghost invariant = { λ e. HasShortFront (vec_len e.words) (vec_capacity e.words) e.cut e.moved };
}

impl Ended {
    /// None. It takes no memory.
    pub fn new(alloc: Global) -> Ended
        ensures gone { result.gone ≡ 0 }
        ensures words { result.words ≡ [] }
        ensures room { result.room ≡ 0 }
    {
        Ended {
            words: Vec::new(alloc),
            cut: 0,
            moved: 0,
        }
    }

    /// How many words were dropped.
    pub(crate) fn gone(&self) -> u64
        ensures { result ≡ self.now.gone }
    {
        self.moved + self.cut as u64
    }

    /// The words that are kept.
    pub(crate) fn as_slice(&self) -> &[u64]
        ensures words { result.now ≡ self.now.words }
        ensures small { self.now.gone + length self.now.words < 2 ^ 64 }
    {
        &self.words[self.cut..]
    }

    /// Makes room for so many words more. It asks for memory exactly where there is less room, and then for more the
    /// more there is already.
    ///
    /// # Errors
    ///
    /// `AllocError` where memory is wanted. Nothing has changed.
    pub(crate) fn make_room(&mut self, count: usize) -> Result<(), AllocError>
        ensures made { OnOk result ((count ≤ self.new.room) × (self.new ≡ record self.old { room = self.new.room })) }
        ensures there { count ≤ self.old.room → self.new ≡ self.old }
        ensures refused { OnErr result ((self.old.room < count) × (self.new ≡ self.old)) }
    {
        if count <= self.words.capacity() - self.words.len() {
            return Ok(());
        }
        self.words.reserve(count)
    }

    /// Adds words at the end, for which there is room. It takes no memory.
    pub(crate) fn extend(&mut self, words: &[u64])
        requires room { length words.now ≤ self.old.room }
        requires small { self.old.gone + length self.old.words + length words.now < 2 ^ 64 }
        ensures { self.new ≡ record { gone = self.old.gone; words = self.old.words ++ words.now; room = self.old.room - length words.now } }
    {
        add(&mut self.words, words);
    }

    /// Drops so many words in front. It takes no memory, and over many calls the time of what is dropped.
    pub(crate) fn forget(&mut self, count: usize)
        requires { count ≤ length self.old.words }
        ensures gone { self.new.gone ≡ self.old.gone + count }
        ensures words { self.new.words ≡ drop count self.old.words }
        ensures room { self.old.room ≤ self.new.room }
    {
        let cut = self.cut + count;
        if cut <= self.words.len() / 2 {
            self.cut = cut;
            return;
        }
        self.words.drain(..cut);
        self.moved += cut as u64;
        self.cut = 0;
    }

    /// The words that are kept. It takes no memory.
    pub(crate) fn into_words(self) -> Vec<u64>
        ensures { result.items ≡ self.words }
    {
        let Ended { mut words, cut, .. } = self;
        words.drain(..cut);
        words
    }
}

// Adds words, for which there is room.
fn add(ended: &mut Vec<u64>, words: &[u64])
    requires { vec_len ended.old + length words.now ≤ vec_capacity ended.old }
    ensures words { ended.new.items ≡ ended.old.items ++ words.now }
    ensures len { vec_len ended.new ≡ vec_len ended.old + length words.now }
    ensures room { vec_capacity ended.new ≡ vec_capacity ended.old }
{
    for index in 0..words.len() {
        ended.push_reserved(words[index]);
    }
}
