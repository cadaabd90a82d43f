//! What is left of a line, taken word by word.
ghost use Rattle.std.specs.Prelude.{◌≡◌, ◌<◌, length, option_map, vec_items, IfOk, OnErr, OnSome};
ghost use Rattle.std.specs.List.{prefix_len, position_or_len};
ghost use Rattle.lc_text.specs.Line.{is_space, words, bytes_of, first, u16_of, u32_of, u64_of, lock_of, all_locks};
ghost use Rattle.lc_text.specs.Line.{no_more, Takes};

use crate::digits::{bytes, number, u16_number, u32_number};
use std::alloc::{AllocError, Global};

/// What is left of a line.
#[derive(Clone, Copy)]
pub struct Fields<'a> {
    rest: &'a [u8],
}

/// How many spaces stand in front.
fn spaces_len(bytes: &[u8]) -> usize
    ensures { result ≡ prefix_len is_space bytes.now }
{
    bytes.iter().take_while(|byte| **byte == b' ').count()
}

/// How many bytes stand before the first space.
fn word_len(bytes: &[u8]) -> usize
    ensures { result ≡ position_or_len is_space bytes.now }
{
    bytes.iter().take_while(|byte| **byte != b' ').count()
}

impl<'a> Fields<'a> {
    /// All of a line.
    pub fn new(line: &'a [u8]) -> Self
        ensures { result.rest.now ≡ line.now }
    {
        Fields { rest: line }
    }

    /// The next word.
    pub fn word(&mut self) -> Option<&'a [u8]>
        ensures value { Takes (first (λ w. Some w) (words self.old.rest.now))
            (option_map (λ w. w.now) result) self.new.rest.now }
        ensures shorter { OnSome result (length self.new.rest.now < length self.old.rest.now) }
    {
        let (_, text) = self.rest.split_at(spaces_len(self.rest));
        if text.is_empty() {
            return None;
        }
        let (word, rest) = text.split_at(word_len(text));
        self.rest = rest;
        Some(word)
    }

    /// A node or a thread, where the next word is one.
    pub fn u16(&mut self) -> Option<u16>
        ensures { Takes (u16_of (words self.old.rest.now)) result self.new.rest.now }
    {
        u16_number(self.word()?)
    }

    /// A segment, a page, an offset or a length, where the next word is one.
    pub fn u32(&mut self) -> Option<u32>
        ensures { Takes (u32_of (words self.old.rest.now)) result self.new.rest.now }
    {
        u32_number(self.word()?)
    }

    /// A number of records, where the next word is one.
    pub fn u64(&mut self) -> Option<u64>
        ensures { Takes (u64_of (words self.old.rest.now)) result self.new.rest.now }
    {
        number(self.word()?)
    }

    /// Bytes, where the next word is hexadecimal digits.
    pub fn bytes(&mut self, alloc: Global) -> Result<Option<Vec<u8>>, AllocError>
        ensures value { IfOk result (λ found.
            Takes (first bytes_of (words self.old.rest.now)) (option_map vec_items found) self.new.rest.now) }
        ensures memory { OnErr result (0 < length (words self.old.rest.now)) }
    {
        match self.word() {
            None => Ok(None),
            Some(word) => bytes(alloc, word),
        }
    }

    /// A lock for each word that is left, where each is one: the segments to write, and those to read.
    pub fn locks(&mut self, alloc: Global) -> Result<Option<(Vec<u32>, Vec<u32>)>, AllocError>
        ensures value { IfOk result (λ found. option_map (λ locks. (locks.0.items, locks.1.items)) found
            ≡ all_locks (words self.old.rest.now)) }
        ensures memory { OnErr result (0 < length (words self.old.rest.now)) }
    {
        let mut segments = Vec::new(alloc);
        let mut reading = Vec::new(alloc);
        while let Some(word) = self.word() {
            let Some((is_read, segment)) = lock(word) else {
                return Ok(None);
            };
            if is_read {
                reading.push(segment)?;
            } else {
                segments.push(segment)?;
            }
        }
        Ok(Some((segments, reading)))
    }

    /// No word is left.
    pub fn end(&mut self) -> Option<()>
        ensures { result ≡ no_more (words self.old.rest.now) }
    {
        match self.word() {
            None => Some(()),
            Some(_) => None,
        }
    }
}

// A segment to lock, and whether it is for reading.
#[tactic(auto, unfolding(crate::specs::Line::lock_of))]
fn lock(word: &[u8]) -> Option<(bool, u32)>
    ensures { result ≡ lock_of word.now }
{
    let [first, digits @ ..] = word else {
        return None;
    };
    if *first == b'r' {
        Some((true, u32_number(digits)?))
    } else {
        Some((false, u32_number(word)?))
    }
}
