//! The two slots of a page.

/// One of the two slots of a page.
#[derive(Clone, Copy, PartialEq, Eq)]
pub enum Slot {
    /// Slot 0.
    First,
    /// Slot 1, after it.
    Second,
}

impl Slot {
    ghost use Rattle.std.specs.Prelude.{◌≡◌};
    ghost use Rattle.lc_page.specs.Slot.{number_of, other};

    /// Its number, 0 or 1.
    pub fn number(self) -> usize
        ensures { result ≡ number_of self }
    {
        match self {
            Slot::First => 0,
            Slot::Second => 1,
        }
    }

    /// The other slot of the page.
    pub fn other(self) -> Slot
        ensures { result ≡ other self }
    {
        match self {
            Slot::First => Slot::Second,
            Slot::Second => Slot::First,
        }
    }
}
