//! Which calls of a fuse fail.

/// Which of the calls fail, counted from 1. The number is below 2^64 - 1.
#[derive(Clone, Copy)]
pub enum When {
    /// This call alone; none where it is 0.
    At(u64),
    /// This call, and all after it.
    From(u64),
}

impl When {
    ghost use Rattle.std.specs.Prelude.{IsTrue, ◌↔◌};
    ghost use Rattle.lc_disk.specs.When.{Fails};

    // Whether this call fails.
    pub(crate) fn fails(self, call: u64) -> bool
        ensures { IsTrue result ↔ Fails self call }
    {
        match self {
            When::At(failing) => call == failing,
            When::From(first) => first <= call,
        }
    }
}
