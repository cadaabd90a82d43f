//! Allocating a block.
ghost use Rattle.std.specs.Prelude.{◌≡◌, MatchResult};
ghost use Rattle.lc_heap.specs.Calls.{Allocates, IsFirst, IsOpen, IsUnallocated, room_for};

use crate::block::{FIRST, is_marked};
use crate::number::HEAD;
use crate::placing::placed;
use crate::searching::first_run;
use crate::{Allocation, HeapFault, check};

/// Allocates a block of `len` bytes in the heap that `bytes` hold: where its contents begin, and the heads to write.
///
/// It takes the first run of free blocks that has the room. All blocks are gone over.
///
/// # Errors
///
/// `NotAHeap` if the bytes hold none, and `NoRoom` if no run of adjacent free blocks has the room.
pub fn allocate(bytes: &[u8], len: u32) -> Result<Allocation, HeapFault>
    ensures { MatchResult result (λ given. Allocates bytes.now len given × IsFirst bytes.now 8 len given)
        (IsUnallocated bytes.now len) }
{
    match check(bytes) {
        Ok(_) => allocate_from(bytes, len, FIRST as u32),
        Err(_) => Err(HeapFault::NotAHeap),
    }
}

/// Allocates as `allocate` does, if the bytes are known to be a heap, and blocks stand up to `place`: 8, the place of
/// a head that was written, or the end of a block. Blocks are gone over from there to the first run that has the room,
/// and only if there is none from the first block on. On other bytes what is given says nothing.
///
/// # Errors
///
/// `NoRoom` where no run of adjacent free blocks has the room.
pub fn allocate_from(bytes: &[u8], len: u32, place: u32) -> Result<Allocation, HeapFault>
    ensures { MatchResult result (λ given. IsOpen bytes.now place
        → Allocates bytes.now len given × IsFirst bytes.now place len given)
        (λ fault. IsOpen bytes.now place → IsUnallocated bytes.now len fault) }
{
    let place = place as usize;
    if !is_marked(bytes) || place < FIRST || place % HEAD != 0 {
        return Err(HeapFault::NotAHeap);
    }
    let room = room_for(len);
    if let Some(run) = first_run(bytes, room, place) {
        return Ok(placed(run, room, len));
    }
    let Some(run) = first_run(bytes, room, FIRST) else {
        return Err(HeapFault::NoRoom);
    };
    Ok(placed(run, room, len))
}

// The room of a block of this length: whole words.
fn room_for(len: u32) -> usize
    ensures { result ≡ room_for len }
{
    (len as usize + HEAD - 1) / HEAD * HEAD
}
