//! A count that can be shown.
ghost use Rattle.std.specs.Prelude.{◌≡◌, ◌+◌, ◌-◌, ◌^◌, min};
ghost use Rattle.lc_disk.specs.Tally.{tallied};

use crate::Tally;

/// How often something was done: for contracts without a limit, and as a number of 64 bits that stops at the greatest.
#[derive(Drop)]
pub(crate) struct Count {
    shown: u64,
    tally: Tally,
    ghost agrees: { shown ≡ min (tallied tally) (2 ^ 64 - 1) },
}

impl Count {
    ghost use Rattle.lc_disk.specs.Count.{counted};

    /// Never yet.
    pub(crate) fn new() -> Count
        ensures { counted result ≡ 0 }
    {
        Count {
            shown: 0,
            tally: Tally::new(),
        }
    }

    /// Once more.
    pub(crate) fn count(&mut self)
        ensures { counted self.new ≡ counted self.old + 1 }
    {
        self.shown = self.shown.saturating_add(1);
        self.tally.count();
    }

    /// The count, or 2^64 - 1 where it is above.
    pub(crate) fn shown(&self) -> u64
        ensures { result ≡ min (counted self.now) (2 ^ 64 - 1) }
    {
        self.shown
    }
}
