//! Up to which number the records of each segment went.
ghost use Rattle.std.specs.Prelude.{◌≡◌, replicate};

use lc_lock::Keyed;
use lc_record::MAX_SEGMENT;

/// Up to which number the records of each segment were dropped at their nodes, from segment 1 on.
#[derive(Drop)]
pub(crate) struct Dropped {
    pub(crate) numbers: [u64; MAX_SEGMENT as usize],
}

impl Dropped {
    /// None was.
    pub(crate) fn none() -> Dropped
        ensures { result.numbers ≡ replicate 16 0 }
    {
        Dropped {
            numbers: [0; MAX_SEGMENT as usize],
        }
    }
}

impl Keyed<()> for Dropped {
    ghost fits = { λ _ _. Unit {0} };
}
