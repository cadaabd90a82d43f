//! What a call of a page write has come to.
/// What a call of a page write has come to.
#[derive(Clone, Copy, PartialEq, Eq)]
pub enum PageProgress {
    /// So many of its six calls are done, 2 to 5.
    Stepped(u8),
    /// All are done: the page is written under this number.
    Written(u64),
}
