//! What a stop does to a dirty position.

/// What a stop makes of one dirty position.
#[derive(Clone, Copy, PartialEq, Eq)]
pub enum Choice {
    /// The byte that a read gave.
    Keep,
    /// The byte that stood there after the last sync.
    Stable,
    /// This byte.
    Byte(u8),
}

impl Choice {
    ghost use Rattle.std.specs.Prelude.{◌≡◌};
    ghost use Rattle.lc_disk.specs.Stop.{chosen};

    // What it leaves of a byte that reads so and is stable so.
    pub(crate) fn left_of(self, now: u8, stable: u8) -> u8
        ensures { result ≡ chosen self now stable }
    {
        match self {
            Choice::Keep => now,
            Choice::Stable => stable,
            Choice::Byte(byte) => byte,
        }
    }
}
