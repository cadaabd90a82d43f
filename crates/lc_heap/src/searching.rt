//! A run of adjacent free blocks that has the room.
ghost use Rattle.std.specs.Prelude.{MatchOption};
ghost use Rattle.lc_heap.specs.Walk.{IsMet, IsMissed};

use crate::block::block_at;
use crate::number::HEAD;

/// A run of adjacent free blocks: from the head of the first to the end of the last.
#[derive(Clone, Copy)]
pub(crate) struct Run {
    pub place: usize,
    pub end: usize,
}

/// The first run that has the room, of those that begin at a place or behind it, if blocks stand up to that place.
pub(crate) fn first_run(bytes: &[u8], room: usize, from: usize) -> Option<Run>
    ensures { MatchOption result (IsMissed bytes.now room from) (IsMet bytes.now room from) }
{
    let mut place = from;
    let mut run = from;
    while place < bytes.len() {
        let block = block_at(bytes, place)?;
        if block.len.is_some() {
            run = block.end;
        } else if room <= block.end - run - HEAD {
            return Some(Run {
                place: run,
                end: block.end,
            });
        }
        place = block.end;
    }
    None
}
