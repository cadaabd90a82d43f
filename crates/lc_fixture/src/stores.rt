//! The areas of stores that others have made.
use lc_disk::MemArea;
use lc_record::Geometry;
use std::alloc::{AllocError, Global};

// The bytes of a log of 64 words, which has a word more.
const LOG_LEN: usize = 520;

/// A store of one node, one segment and one page.
pub const ONE: Geometry = Geometry {
    nodes: 1,
    threads: 1,
    segments: 1,
    pages: 1,
    words: 64,
};

/// A slot of a page: its gate, its sequence, and the byte that fills its page.
pub type SlotText = (u8, u64, u8);

/// A slot that was never written.
pub const CLOSED: SlotText = (0, 0, 0);

/// The record of a node under a lock on a segment, with the bytes "hello" at an offset of it.
pub fn hello(node: u16, segment: u32, seq: u64, offset: u32) -> [u64; 8] {
    [
        0x0000_0008_0001_01a5,
        0x1_0000 | u64::from(node),
        u64::from(segment),
        seq,
        (u64::from(offset) << 32) | u64::from(segment),
        5,
        0x6f_6c6c_6568,
        8,
    ]
}

// The bytes of words.
fn bytes_of(alloc: Global, words: &[u64]) -> Result<Vec<u8>, AllocError> {
    let mut bytes = Vec::new(alloc);
    for word in words {
        bytes.extend_from_slice(&word.to_le_bytes())?;
    }
    Ok(bytes)
}

/// The area of a log that begins with these words, and has zeros after them.
pub fn log_area(alloc: Global, words: &[u64]) -> Result<MemArea, AllocError> {
    let mut bytes = bytes_of(alloc, words)?;
    bytes.resize(LOG_LEN, 0)?;
    MemArea::from_bytes(alloc, &bytes)
}

/// The area of a segment with these slots, two of each page.
pub fn segment_area(alloc: Global, slots: &[SlotText]) -> Result<MemArea, AllocError> {
    let mut bytes = Vec::new(alloc);
    for (gate, seq, byte) in slots {
        bytes.extend_from_slice(&[*gate, 0, 0, 0, 0, 0, 0, 0])?;
        bytes.extend_from_slice(&seq.to_le_bytes())?;
        bytes.extend_from_slice(&[*byte; 256])?;
    }
    MemArea::from_bytes(alloc, &bytes)
}
