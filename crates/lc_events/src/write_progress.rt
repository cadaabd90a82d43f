//! How far the write of a page is.
/// How far the write of a page is after one of its six device calls.
#[derive(Clone, Copy, PartialEq, Eq)]
pub enum WriteProgress {
    /// So many of its calls are made, 1 to 5.
    Stepped(u64),
    /// All are made: the page is on the device under this number.
    Written(u64),
}
