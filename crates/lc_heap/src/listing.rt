//! The blocks in use, one after another.
ghost use Rattle.std.specs.Prelude.{◌≡◌, MatchOption};
ghost use Rattle.lc_heap.specs.Calls.{HasNoUse, IsNext};

use crate::block::{FIRST, block_at, is_marked};
use crate::number::HEAD;

/// A block in use: where its contents begin, their length, and where its room ends, in bytes.
#[derive(Clone, Copy, Debug, PartialEq, Eq)]
pub struct HeapBlock {
    pub offset: u32,
    pub len: u32,
    pub end: u32,
}

/// The first block in use of a heap.
pub fn first_block(bytes: &[u8]) -> Option<HeapBlock>
    ensures { MatchOption result (HasNoUse bytes.now 8) (IsNext bytes.now 8) }
{
    next_block(bytes, FIRST as u32)
}

/// The first block in use behind the end of another, in a heap; none in other bytes that do not begin as those of one.
pub fn next_block(bytes: &[u8], end: u32) -> Option<HeapBlock>
    ensures { MatchOption result (HasNoUse bytes.now end) (IsNext bytes.now end) }
{
    if !is_marked(bytes) {
        return None;
    }
    let mut place = end as usize;
    while place < bytes.len() {
        let block = block_at(bytes, place)?;
        if let Some(len) = block.len {
            return Some(HeapBlock {
                offset: (place + HEAD) as u32,
                len: len as u32,
                end: block.end as u32,
            });
        }
        place = block.end;
    }
    None
}
