//! Where a log ends.
/// Where a log ends, in words, how many it has room for in all, and whether a reset has sealed it.
#[derive(Clone, Copy)]
pub struct LogEnd {
    pub end: u32,
    pub room: u32,
    pub sealed: bool,
}
