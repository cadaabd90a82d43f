//! What an area holds of a page.
ghost use Rattle.std.specs.Prelude.{◌≡◌, ◌+◌, ◌*◌, ◌≤◌, ◌^◌, ◌==◌, length, nat_lt};
ghost use Rattle.std.specs.List.{list_all};
ghost use Rattle.lc_page.specs.Page.{slot_bytes, has_gate, sequence_of, content_of, is_open, page_in, text_in};
ghost use Rattle.lc_page.specs.Page.{chosen_slot};

use crate::limits::{GATE_OPEN, GREATEST_SEQUENCE, SLOT_BYTES};
use crate::{PageText, Slot};

static NO_PAGE: [u8; 256] = [0; 256];

// The bytes of a slot of a page.
fn slot_of(bytes: &[u8], page: u32, slot: Slot) -> &[u8]
    requires { (2 * page + 2) * 272 ≤ length bytes.now }
    ensures bytes { result.now ≡ slot_bytes bytes.now page slot }
    ensures len { length result.now ≡ 272 }
{
    let at = (2 * page as usize + slot.number()) * SLOT_BYTES;
    &bytes[at..at + SLOT_BYTES]
}

// Whether the gate of a slot reads as open.
fn has_gate(slot: &[u8]) -> bool
    requires { length slot.now ≡ 272 }
    ensures { result ≡ has_gate slot.now }
{
    slot[0] == GATE_OPEN
}

// The sequence of a slot.
fn sequence(slot: &[u8]) -> u64
    requires { length slot.now ≡ 272 }
    ensures { result ≡ sequence_of slot.now }
{
    let mut word = [0; 8];
    word.copy_from_slice(&slot[8..16]);
    u64::from_le_bytes(word)
}

// The page of a slot.
fn content(slot: &[u8]) -> &[u8]
    requires { length slot.now ≡ 272 }
    ensures bytes { result.now ≡ content_of slot.now }
    ensures len { length result.now ≡ 256 }
{
    &slot[16..SLOT_BYTES]
}

// Whether these bytes are zeros.
fn are_zero(bytes: &[u8]) -> bool
    ensures { result ≡ list_all (λ b. b == 0) bytes.now }
{
    bytes.iter().all(|byte| *byte == 0)
}

// Whether a slot is open.
#[tactic(auto, unfolding(crate::specs::Page::is_open))]
fn is_open(slot: &[u8]) -> bool
    requires { length slot.now ≡ 272 }
    ensures { result ≡ is_open slot.now }
{
    has_gate(slot) && are_zero(&slot[1..8]) && sequence(slot) <= GREATEST_SEQUENCE
}

// The present slot of two.
fn present(first: &[u8], second: &[u8]) -> Option<Slot>
    requires first { length first.now ≡ 272 }
    requires second { length second.now ≡ 272 }
    ensures { result
        ≡ chosen_slot (is_open first.now) (is_open second.now)
        (nat_lt (sequence_of first.now) (sequence_of second.now)) }
{
    let newer = sequence(first) < sequence(second);
    match (is_open(first), is_open(second)) {
        (true, true) if newer => Some(Slot::Second),
        (true, _) => Some(Slot::First),
        (false, true) => Some(Slot::Second),
        (false, false) => None,
    }
}

/// What an area says of a page.
///
/// A slot is open where its gate is a5, its seven bytes after the gate are zero and its sequence is at most 2^60. The
/// page is the open slot with the greater sequence, on equal sequences the first one. A page with no open slot has the
/// sequence 0. The area has both slots of the page: `has_page` tests it. Two slots with a gate are this project's own.
pub fn read_page(bytes: &[u8], page: u32) -> PageText
    requires { (2 * page + 2) * 272 ≤ length bytes.now }
    ensures text { result ≡ text_in bytes.now page }
    ensures small { result.seq ≤ 2 ^ 60 }
{
    let first = slot_of(bytes, page, Slot::First);
    let second = slot_of(bytes, page, Slot::Second);
    let slot = present(first, second);
    let seq = match slot {
        Some(Slot::First) => sequence(first),
        Some(Slot::Second) => sequence(second),
        None => 0,
    };
    PageText {
        seq,
        slot,
        gates: [has_gate(first), has_gate(second)],
    }
}

/// The 256 bytes of a page: those of its present slot, zeros where no slot is open. The area has both slots of the
/// page.
pub fn page_bytes(bytes: &[u8], page: u32) -> &[u8]
    requires { (2 * page + 2) * 272 ≤ length bytes.now }
    ensures bytes { result.now ≡ (page_in bytes.now page).content }
    ensures len { length result.now ≡ 256 }
{
    let first = slot_of(bytes, page, Slot::First);
    let second = slot_of(bytes, page, Slot::Second);
    match present(first, second) {
        Some(Slot::First) => content(first),
        Some(Slot::Second) => content(second),
        None => &NO_PAGE,
    }
}
