//! The fields of a record's first two words, and of the word that tells where a range of the first version stands.
ghost use Rattle.std.specs.Prelude.{◌≡◌, ◌/◌, ◌%◌, ◌^◌};

/// The bit of the first word at which the version begins, above the gate.
pub const VERSION_PLACE: u32 = 8;
/// The bit of the first word at which the number of ranges begins.
pub const RANGE_COUNT_PLACE: u32 = 16;
/// The bit of the first word at which the length begins.
pub const LENGTH_PLACE: u32 = 32;
/// The bit of the second word at which the number of locks begins, above the node.
pub const LOCK_COUNT_PLACE: u32 = 16;
/// The bit at which the offset begins in the word that tells where a range of the first version stands, above the
/// segment.
pub const OFFSET_PLACE: u32 = 32;

const BYTE_MASK: u64 = 0xff;

const HALF_MASK: u64 = 0xffff;

const SEGMENT_MASK: u64 = 0xffff_ffff;

/// The low byte, which opens the record or closes it.
pub fn gate(first: u64) -> u8
    ensures { result ≡ first % 256 }
{
    (first & BYTE_MASK) as u8
}

/// The version of the grammar.
pub fn version(first: u64) -> u8
    ensures { result ≡ first / 2 ^ 8 % 2 ^ 8 }
{
    (first >> VERSION_PLACE & BYTE_MASK) as u8
}

/// How many ranges the record has.
pub fn range_count(first: u64) -> u16
    ensures { result ≡ first / 2 ^ 16 % 2 ^ 16 }
{
    (first >> RANGE_COUNT_PLACE & HALF_MASK) as u16
}

/// How many words the record has.
pub fn length(first: u64) -> u32
    ensures { result ≡ first / 2 ^ 32 }
{
    (first >> LENGTH_PLACE) as u32
}

/// The node that committed the record.
pub fn node(second: u64) -> u16
    ensures { result ≡ second % 2 ^ 16 }
{
    (second & HALF_MASK) as u16
}

/// How many locks the record has.
pub fn lock_count(second: u64) -> u16
    ensures { result ≡ second / 2 ^ 16 % 2 ^ 16 }
{
    (second >> LOCK_COUNT_PLACE & HALF_MASK) as u16
}

/// The segment of a range.
pub fn range_segment(place: u64) -> u32
    ensures { result ≡ place % 2 ^ 32 }
{
    (place & SEGMENT_MASK) as u32
}

/// Where the range begins in its segment.
pub fn range_offset(place: u64) -> u32
    ensures { result ≡ place / 2 ^ 32 }
{
    (place >> OFFSET_PLACE) as u32
}
