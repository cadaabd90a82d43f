//! How a script is run.

/// How a script is run.
#[derive(Clone, Copy, PartialEq, Eq)]
pub struct Manner {
    /// Each line is run, and what it prints is written, before the next is read.
    pub follow: bool,
    /// The number of its line stands in front of what a line prints.
    pub number: bool,
}
