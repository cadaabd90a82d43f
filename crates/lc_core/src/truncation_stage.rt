//! What a truncation does next.
use crate::page_cursor::PageCursor;

/// What a truncation does next.
#[derive(Clone, Copy)]
pub(crate) enum TruncationStage {
    /// A call of the flush, and so many more may follow it.
    Flushes { more: u32 },
    /// The pages are asked whether one is blocked, and then the first that is due makes its call.
    Asks,
    /// The next page that is due makes its call.
    Writes(PageCursor),
    /// A call of the reset, and so many more may follow it.
    Resets { more: u32 },
}
