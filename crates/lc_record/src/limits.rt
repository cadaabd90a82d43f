//! The numbers of the grammar of records.

/// The low byte of a record's first word. Any other byte closes the record.
pub const GATE_OPEN: u8 = 0xa5;
/// The most words of a record.
pub const MAX_WORDS: usize = 4096;
/// The greatest number of a node.
pub const MAX_NODE: u16 = 7;
/// The most locks of a record.
pub const MAX_LOCKS: usize = 16;
/// The most ranges of a record.
pub const MAX_RANGES: usize = 64;
/// The greatest number of a segment.
pub const MAX_SEGMENT: u32 = 16;
/// The greatest number of a commit on a segment.
pub const MAX_SEQ: u64 = 1 << 60;
/// Where the bytes of a segment end at the latest.
pub const MAX_OFFSET: u64 = 262144;
/// Where the ranges of the first version end at the latest.
pub const FIRST_END: u64 = 16384;
/// The bytes of a word.
pub const WORD: usize = 8;
/// Above the second word of each record.
pub const SECOND_END: u64 = 1 << 32;
/// The words of a record beside its locks and ranges: two before them, and its length after them.
pub const RECORD_WORDS: usize = 3;
/// The words of a lock.
pub const LOCK_WORDS: usize = 2;
/// The words of a record before its locks.
pub const HEAD_WORDS: usize = 2;
