//! What the digits of a word say.
ghost use Rattle.std.specs.Prelude.{◌≡◌, ◌^◌, ◌<◌, option_map, vec_items, IfOk, IfSome};
ghost use Rattle.lc_text.specs.Line.{number_of, digit_of, pair_of, bytes_of};

use std::alloc::{AllocError, Global};

/// A number in 1 to 20 decimal digits, below 2^64.
#[tactic(auto, using(crate::proofs::Numbers::steps), unfolding(crate::specs::Line::number_of))]
pub fn number(word: &[u8]) -> Option<u64>
    ensures { result ≡ number_of (2 ^ 64) word.now }
{
    if word.is_empty() || word.len() > 20 {
        return None;
    }
    let mut value: u64 = 0;
    for byte in word {
        if *byte < b'0' || *byte > b'9' {
            return None;
        }
        value = value.checked_mul(10)?.checked_add(u64::from(*byte - b'0'))?;
    }
    Some(value)
}

/// A node or a thread.
pub fn u16_number(word: &[u8]) -> Option<u16>
    ensures { result ≡ number_of (2 ^ 16) word.now }
{
    u16::try_from(number(word)?).ok()
}

/// A segment, a page, an offset or a length.
pub fn u32_number(word: &[u8]) -> Option<u32>
    ensures { result ≡ number_of (2 ^ 32) word.now }
{
    u32::try_from(number(word)?).ok()
}

/// A hexadecimal digit in either case.
#[tactic(auto, unfolding(crate::specs::Line::digit_of))]
fn digit(byte: u8) -> Option<u8>
    ensures value { result ≡ digit_of byte }
    ensures small { IfSome result (λ digit. digit < 16) }
{
    match byte {
        b'0'..=b'9' => Some(byte - b'0'),
        b'a'..=b'f' => Some(byte - b'a' + 10),
        b'A'..=b'F' => Some(byte - b'A' + 10),
        _ => None,
    }
}

/// The byte of two hexadecimal digits.
#[tactic(auto, unfolding(crate::specs::Line::pair_of))]
pub fn pair(high: u8, low: u8) -> Option<u8>
    ensures { result ≡ pair_of high low }
{
    let high = digit(high)?;
    let low = digit(low)?;
    Some(16 * high + low)
}

/// A byte for each two hexadecimal digits.
pub fn bytes(alloc: Global, word: &[u8]) -> Result<Option<Vec<u8>>, AllocError>
    ensures { IfOk result (λ found. option_map vec_items found ≡ bytes_of word.now) }
{
    let mut bytes = Vec::with_capacity(alloc, word.len() / 2)?;
    let mut rest = word;
    while rest.len() >= 2 {
        let (front, later) = rest.split_at(2);
        let Some(byte) = pair(front[0], front[1]) else {
            return Ok(None);
        };
        bytes.push(byte)?;
        rest = later;
    }
    if rest.is_empty() {
        Ok(Some(bytes))
    } else {
        Ok(None)
    }
}
