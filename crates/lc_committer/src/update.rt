//! A work that changes bytes of a segment.

/// Sets the range of `len` bytes of a segment from `offset` on, changes a copy of them in place, and writes that. The
/// change is called once where the work is not refused, and else not at all.
#[derive(Drop)]
pub struct Update<C> {
    pub segment: u32,
    pub offset: u32,
    pub len: u32,
    pub change: C,
}
