//! The bytes of a range as whole words, the last of them filled up with zeros.
ghost use Rattle.std.specs.Prelude.{◌≡◌, ◌==◌, ◌+◌, ◌-◌, ◌<◌, ◌≤◌, [], ◌∷◌, ◌++◌, length, replicate, slice_get};
ghost use Rattle.std.specs.Prelude.{slice_index, take, vec_len, vec_capacity, IfOk};
ghost use Rattle.std.specs.List.{list_all};
ghost use Rattle.std.specs.Int.{w64, from_le_bytes};
ghost use Rattle.lc_record.specs.Words.{bytes_of};
ghost use Rattle.lc_record.specs.Record.{data_words};
ghost use Rattle.lc_record.specs.Layout.{data_len};
ghost use Rattle.lc_record.specs.Reading.{is_padded};

use crate::limits::WORD;
use std::alloc::{AllocError, Global};

/// How many words so many bytes take.
pub fn data_len(len: usize) -> usize
    ensures { result ≡ data_len len }
{
    len.div_ceil(WORD)
}

// The byte at a place of these, and 0 where there is none.
fn byte_or_zero(bytes: &[u8], place: usize) -> u8
    ensures { result ≡ slice_index bytes.now place }
{
    bytes.get(place).copied().unwrap_or(0)
}

// The word of at most eight bytes. It is put together in a register, since a load behind stores of single bytes waits
// for them.
fn word_of(bytes: &[u8]) -> u64
    requires { length bytes.now ≤ 8 }
    ensures { result ≡ from_le_bytes w64 (bytes.now ++ replicate (8 - length bytes.now) 0) }
{
    u64::from_le_bytes([
        byte_or_zero(bytes, 0),
        byte_or_zero(bytes, 1),
        byte_or_zero(bytes, 2),
        byte_or_zero(bytes, 3),
        byte_or_zero(bytes, 4),
        byte_or_zero(bytes, 5),
        byte_or_zero(bytes, 6),
        byte_or_zero(bytes, 7),
    ])
}

/// Adds a word, in the room that there is.
pub fn push(words: &mut Vec<u64>, word: u64)
    requires { vec_len words.old < vec_capacity words.old }
    ensures items { words.new.items ≡ words.old.items ++ word ∷ [] }
    ensures len { vec_len words.new ≡ vec_len words.old + 1 }
    ensures room { vec_capacity words.old ≤ vec_capacity words.new }
{
    words.push_reserved(word);
}

/// Adds the words of these bytes, in the room that there is.
pub fn push_data(words: &mut Vec<u64>, bytes: &[u8])
    requires { vec_len words.old + data_len (length bytes.now) ≤ vec_capacity words.old }
    ensures items { words.new.items ≡ words.old.items ++ data_words bytes.now }
    ensures room { vec_capacity words.old ≤ vec_capacity words.new }
{
    let mut rest = bytes;
    while let Some((front, behind)) = rest.split_first_chunk::<WORD>() {
        push(words, u64::from_le_bytes(*front));
        rest = behind;
    }
    if !rest.is_empty() {
        push(words, word_of(rest));
    }
}

/// So many of the bytes of these words, the first.
pub fn read_data(alloc: Global, len: usize, words: &[u64]) -> Result<Vec<u8>, AllocError>
    ensures { IfOk result (λ v. v.items ≡ take len (bytes_of words.now)) }
{
    let mut bytes = Vec::with_capacity(alloc, len)?;
    for word in words {
        let missing = len - bytes.len();
        bytes.extend_from_slice(&word.to_le_bytes()[..missing.min(WORD)])?;
    }
    Ok(bytes)
}

/// The byte at this place, of so many of the bytes of these words, the first.
pub fn read_byte(len: usize, words: &[u64], place: usize) -> Option<u8>
    ensures { result ≡ slice_get (take len (bytes_of words.now)) place }
{
    if place >= len {
        return None;
    }
    let word = words.get(place / WORD)?;
    Some(word.to_le_bytes()[place % WORD])
}

/// Whether nothing but zeros stands after so many of the bytes of these words.
pub fn is_padded(len: usize, words: &[u64]) -> bool
    requires { length words.now ≡ data_len len }
    ensures { result ≡ is_padded len words.now }
{
    let [front @ .., last] = words else {
        return true;
    };
    let used = len - WORD * front.len();
    are_zero(&last.to_le_bytes()[used..])
}

fn are_zero(bytes: &[u8]) -> bool
    ensures { result ≡ list_all (λ b. b == 0) bytes.now }
{
    bytes.iter().all(|byte| *byte == 0)
}
