//! The records of a log, read from their end.
ghost use Rattle.std.specs.Prelude.{◌≡◌, ◌<◌, ℕ, IfOk, OnErr, List, reverse};
ghost use Rattle.lc_record.specs.declared.record.Record.{Record as Spelled};
ghost use Rattle.lc_record.specs.Words.{words_of};
ghost use Rattle.lc_log.specs.LogText.{IsWalk};

use crate::walking::{WORD_BYTES, words_in};
use lc_record::{Record, decode};
use std::alloc::{AllocError, Global};

/// The records that a walk over these bytes finds, each with its place, the last first, read back from where the walk
/// ends: the last word of each record is how many words it takes. Where there is none no memory is asked for.
pub fn walk_back(
    alloc: Global,
    bytes: &[u8],
    end_place: usize,
) -> Result<Vec<(usize, Record)>, AllocError>
    requires { (found : List (ℕ × Spelled)) × IsWalk (words_of bytes.now) found end_place }
    ensures back { IfOk result (λ back. (found : List (ℕ × Spelled)) → IsWalk (words_of bytes.now) found end_place
        → back.items ≡ reverse found) }
    ensures memory { OnErr result (0 < end_place) }
{
    let words = words_in(alloc, &bytes[..WORD_BYTES * end_place])?;
    let mut records = Vec::new(alloc);
    let mut end = end_place;
    while end > 0 {
        let place = end - words[end - 1] as usize;
        let Some((record, _len)) = decode(alloc, &words[place..])? else {
            unreachable!();
        };
        records.push((place, record))?;
        end = place;
    }
    Ok(records)
}
