//! A heap in the bytes of a segment: blocks of any size that are allocated and freed.
#![tactic(auto)]

mod allocating;
mod allocation;
mod block;
mod checking;
mod formatting;
mod freeing;
mod heap_fault;
mod laws;
mod listing;
mod number;
mod placing;
mod resizing;
mod searching;

pub use allocating::{allocate, allocate_from};
pub use allocation::{Allocation, Change};
pub use checking::{Usage, check};
pub use formatting::format;
pub use freeing::{free, free_at};
pub use heap_fault::HeapFault;
pub use laws::{freed_again, grown, one_heap};
pub use listing::{HeapBlock, first_block, next_block};
pub use resizing::resize_at;
