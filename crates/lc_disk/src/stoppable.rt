//! An area that a stop can be tried on.
ghost use Rattle.std.specs.Prelude.{◌≡◌, ℕ, List, [], true, false, length, slice_index_or};
ghost use Rattle.lc_disk.specs.Area.{IsImage};
ghost use Rattle.lc_disk.specs.declared.choice.Choice.{Choice as TheChoice};

use crate::{Area, Choice};

/// An area that can be stopped and started again, to try what a stop may leave.
pub trait Stoppable: Area {
    /// The byte that a stop by these choices leaves at a position.
    ghost left: { Self → List TheChoice → ℕ → ℕ };

    /// Stops the device, and starts it again: while it is honest it reads as one image of what it was, the one that
    /// these choices leave, and nothing is dirty; with no choice it reads what it read. No call and no failure is
    /// counted.
    fn stop(&mut self, choices: &[Choice])
        ensures honest { Self.honest self.new ≡ Self.honest self.old }
        ensures len { length (Self.now self.new) ≡ length (Self.now self.old) }
        ensures image { Self.honest self.old ≡ true
            → IsImage (Self.now self.old) (Self.dirty self.old) (Self.now self.new) }
        ensures keeps { Self.honest self.old ≡ true → choices.now ≡ [] → Self.now self.new ≡ Self.now self.old }
        ensures chosen { Self.honest self.old ≡ true → (k : ℕ)
            → slice_index_or (Self.now self.new) k 0 ≡ left self.old choices.now k }
        ensures clean { Self.honest self.old ≡ true → (k : ℕ) → Self.dirty self.new k ≡ false }
        ensures called { Self.calls self.new ≡ Self.calls self.old }
        ensures counted { Self.failures self.new ≡ Self.failures self.old };
}
