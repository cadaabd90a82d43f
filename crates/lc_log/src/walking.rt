//! The records of a log, read from its front.
ghost use Rattle.std.specs.Prelude.{◌≡◌, ◌≤◌, [], ◌∷◌, IfOk, OnErr, List, length};
ghost use Rattle.lc_record.specs.declared.record.Record.{Record};
ghost use Rattle.lc_record.specs.Words.{words_of};
ghost use Rattle.lc_log.specs.LogText.{IsLogText, IsWalk, joined};

use crate::Walk;
use lc_record::{View, decode};
use std::alloc::{AllocError, Global};

pub(crate) const WORD_BYTES: usize = 8;

/// The records of a log's bytes, one after another, up to the first place where none begins. It is safe on any bytes;
/// those after the last whole word are not looked at, and without a whole word no memory is asked for.
pub fn walk(alloc: Global, bytes: &[u8]) -> Result<Walk, AllocError>
    ensures walk { IfOk result (λ w. IsWalk (words_of bytes.now) w.records.items w.end_place) }
    ensures memory { OnErr result (8 ≤ length bytes.now) }
{
    let words = words_in(alloc, bytes)?;
    let mut records = Vec::new(alloc);
    let mut end_place = 0;
    while end_place < words.len() {
        let Some((record, len)) = decode(alloc, &words[end_place..])? else {
            break;
        };
        records.push((end_place, record))?;
        end_place += len;
    }
    Ok(Walk { records, end_place })
}

/// Where the records end that these words begin with, in words from their front; no record begins there. It takes no
/// memory.
pub fn text_len(words: &[u64]) -> usize
    ensures { (records : List Record) × IsLogText words.now records × (result ≡ length (joined records)) }
{
    let mut end = 0;
    while let Some(record) = View::at(words, end) {
        end += record.len();
    }
    end
}

/// The whole words of these bytes, the lowest byte of each first. Where there is none no memory is asked for.
pub fn words_in(alloc: Global, bytes: &[u8]) -> Result<Vec<u64>, AllocError>
    ensures words { IfOk result (λ words. words.items ≡ words_of bytes.now) }
    ensures memory { OnErr result (8 ≤ length bytes.now) }
{
    let mut words = Vec::with_capacity(alloc, bytes.len() / WORD_BYTES)?;
    let mut rest = bytes;
    while rest.len() >= WORD_BYTES {
        let (front, behind) = rest.split_at(WORD_BYTES);
        words.push(word_of(front))?;
        rest = behind;
    }
    Ok(words)
}

// The word of these eight bytes.
fn word_of(bytes: &[u8]) -> u64
    requires { length bytes.now ≡ 8 }
    ensures { words_of bytes.now ≡ result ∷ [] }
{
    let mut word = [0; WORD_BYTES];
    word.copy_from_slice(bytes);
    u64::from_le_bytes(word)
}
