//! Sizes and limits.
ghost use Rattle.std.specs.Prelude.{◌+◌, ◌*◌, ◌≤◌, ◌^◌, ◌↔◌, IsTrue};

/// The byte of an open gate.
pub(crate) const GATE_OPEN: u8 = 0xa5;

/// The byte that closes a gate.
pub(crate) const GATE_CLOSED: u8 = 0;

/// The bytes of a page.
pub const PAGE_BYTES: usize = 256;

/// The bytes of a slot: a gate, seven zeros, a sequence and a page.
pub const SLOT_BYTES: usize = 272;

/// The greatest sequence of a page, 2^60.
pub const GREATEST_SEQUENCE: u64 = 1 << 60;

/// Whether a number can be a page's sequence.
pub fn is_sequence(seq: u64) -> bool
    ensures { IsTrue result ↔ (seq ≤ 2 ^ 60) }
{
    seq <= GREATEST_SEQUENCE
}

/// Whether an area of so many bytes has both slots of a page.
pub fn has_page(len: usize, page: u32) -> bool
    ensures { IsTrue result ↔ ((2 * page + 2) * 272 ≤ len) }
{
    (2 * page as usize + 2) * SLOT_BYTES <= len
}
