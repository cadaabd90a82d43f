//! A buffer for the words of records that are written together.
ghost use Rattle.std.specs.Prelude.{◌≡◌, ◌+◌, ◌-◌, ◌*◌, ◌<◌, ◌≤◌, ◌↔◌, [], ◌∷◌, ◌++◌, length, replicate, slice_index};
ghost use Rattle.std.specs.Prelude.{IfOk, IsTrue, vec_len, vec_capacity};
ghost use Rattle.std.specs.Int.{w64, to_le_bytes};
ghost use Rattle.lc_record.specs.Words.{bytes_of};

use std::alloc::{AllocError, Global};
use std::marker::Model;

const WORD_BYTES: usize = 8;
// How many words are put into bytes at once.
const CHUNK_WORDS: usize = 8;

/// A list of words, with room for a number of them. It is kept as the bytes that stand on the disk, with one zero word
/// after them, so that it is written as it lies in memory.
#[derive(Drop)]
pub struct Group {
    bytes: Vec<u8>,
    room: u32,
}

impl Model for Group {
    ghost use Rattle.lc_record.specs.GroupView.{GroupView};

    ghost Value = { GroupView };

    ghost use Rattle.lc_record.specs.Group.{group_view, IsGroupBytes};

    ghost view = { group_view };

    ghost invariant = { IsGroupBytes };
}

impl Group {
    /// An empty group with room for this many words. It takes memory for them and for the zero word after them.
    pub fn new(alloc: Global, room: u32) -> Result<Group, AllocError>
        ensures { IfOk result (λ g. g ≡ record { words = []; room = room }) }
    {
        let mut bytes = Vec::with_capacity(alloc, WORD_BYTES * (room as usize + 1))?;
        append(&mut bytes, 0);
        Ok(Group { bytes, room })
    }

    /// How many words there are.
    pub fn len(&self) -> usize
        ensures { result ≡ length self.now.words }
    {
        self.bytes.len() / WORD_BYTES - 1
    }

    /// Whether there is no word.
    pub fn is_empty(&self) -> bool
        ensures { IsTrue result ↔ (self.now.words ≡ []) }
    {
        self.len() == 0
    }

    /// The word at this index, from 0.
    pub fn word(&self, index: usize) -> u64
        requires { index < length self.now.words }
        ensures { result ≡ slice_index self.now.words index }
    {
        let bytes = self.bytes.as_slice();
        let start = WORD_BYTES * index;
        let mut word = [0; WORD_BYTES];
        word.copy_from_slice(&bytes[start..start + WORD_BYTES]);
        u64::from_le_bytes(word)
    }

    /// The bytes of the words, and of a zero word after them.
    pub fn bytes(&self) -> &[u8]
        ensures { result.now ≡ bytes_of (self.now.words ++ 0 ∷ []) }
    {
        self.bytes.as_slice()
    }

    /// Adds a word at the end, in the room that there is.
    pub fn push(&mut self, word: u64)
        requires { length self.old.words < self.old.room }
        ensures { self.new ≡ record self.old { words = self.old.words ++ word ∷ [] } }
    {
        let end = self.bytes.len() - WORD_BYTES;
        self.bytes.truncate(end);
        append(&mut self.bytes, word);
        append(&mut self.bytes, 0);
    }

    /// Adds these words at the end, in their order, in the room that there is.
    pub fn extend(&mut self, words: &[u64])
        requires { length self.old.words + length words.now ≤ self.old.room }
        ensures { self.new ≡ record self.old { words = self.old.words ++ words.now } }
    {
        let end = self.bytes.len() - WORD_BYTES;
        self.bytes.truncate(end);
        append_all(&mut self.bytes, words);
        append(&mut self.bytes, 0);
    }

    /// Drops all words, and keeps the room.
    pub fn clear(&mut self)
        ensures { self.new ≡ record self.old { words = [] } }
    {
        self.bytes.clear();
        append(&mut self.bytes, 0);
    }
}

// Adds the bytes of these words, in the room that there is, a chunk at a time.
fn append_all(bytes: &mut Vec<u8>, words: &[u64])
    requires { vec_len bytes.old + 8 * length words.now ≤ vec_capacity bytes.old }
    ensures items { bytes.new.items ≡ bytes.old.items ++ bytes_of words.now }
    ensures len { vec_len bytes.new ≡ vec_len bytes.old + 8 * length words.now }
    ensures room { vec_capacity bytes.old ≤ vec_capacity bytes.new }
{
    let mut rest = words;
    while let Some((front, behind)) = rest.split_first_chunk::<CHUNK_WORDS>() {
        append_chunk(bytes, front);
        rest = behind;
    }
    append_chunk(bytes, rest);
}

// Adds the bytes of at most a chunk of words, in the room that there is.
fn append_chunk(bytes: &mut Vec<u8>, words: &[u64])
    requires few { length words.now ≤ 8 }
    requires room { vec_len bytes.old + 8 * length words.now ≤ vec_capacity bytes.old }
    ensures items { bytes.new.items ≡ bytes.old.items ++ bytes_of words.now }
    ensures len { vec_len bytes.new ≡ vec_len bytes.old + 8 * length words.now }
    ensures room { vec_capacity bytes.old ≤ vec_capacity bytes.new }
{
    let chunk = chunk_of(words);
    bytes
        .extend_from_slice(&chunk[..WORD_BYTES * words.len()])
        .unwrap();
}

// The bytes of at most a chunk of words, and zeros after them.
fn chunk_of(words: &[u64]) -> [u8; WORD_BYTES * CHUNK_WORDS]
    requires { length words.now ≤ 8 }
    ensures { result ≡ bytes_of words.now ++ replicate (8 * (8 - length words.now)) 0 }
{
    let mut chunk = [0; WORD_BYTES * CHUNK_WORDS];
    for index in 0..words.len() {
        let place = WORD_BYTES * index;
        chunk[place..place + WORD_BYTES].copy_from_slice(&words[index].to_le_bytes());
    }
    chunk
}

// Adds the bytes of a word, in the room that there is.
fn append(bytes: &mut Vec<u8>, word: u64)
    requires { vec_len bytes.old + 8 ≤ vec_capacity bytes.old }
    ensures items { bytes.new.items ≡ bytes.old.items ++ to_le_bytes w64 word }
    ensures len { vec_len bytes.new ≡ vec_len bytes.old + 8 }
    ensures room { vec_capacity bytes.old ≤ vec_capacity bytes.new }
{
    bytes.extend_from_slice(&word.to_le_bytes()).unwrap();
}
