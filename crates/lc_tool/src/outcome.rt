//! What a line of a script leaves.

/// How the script goes on after a line.
#[derive(Clone, Copy)]
pub(crate) enum Outcome {
    /// With the next line; and whether this one was refused.
    Goes { refused: bool },
    /// It ends with this status.
    Ends(u8),
}
