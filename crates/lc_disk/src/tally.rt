//! A count with no limit, for contracts alone.
ghost use Rattle.std.specs.Prelude.{◌≡◌, ◌+◌};

use std::snapshot::Snapshot;

/// How often something was done. The number has no limit, and is never computed: each count knows the one before it,
/// which takes no bytes. Who writes an area of their own counts its calls with it.
#[derive(Drop)]
pub struct Tally {
    before: Option<Snapshot<Tally>>,
}

impl Tally {
    ghost use Rattle.lc_disk.specs.Tally.{tallied};

    /// Never yet.
    pub fn new() -> Tally
        ensures { tallied result ≡ 0 }
    {
        Tally { before: None }
    }

    /// Once more.
    pub fn count(&mut self)
        ensures { tallied self.new ≡ tallied self.old + 1 }
    {
        let before = Snapshot::of(self);
        self.before = Some(before);
    }
}
