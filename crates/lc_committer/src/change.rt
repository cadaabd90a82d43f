//! What changes bytes in place.
ghost use Rattle.std.specs.Prelude.{ℕ, List};

/// Changes the bytes of a range in place.
pub trait Change {
    /// What a call makes of the change itself and of the bytes.
    ghost changes: { Self → List ℕ → Self → List ℕ → Type 0 };

    /// Changes them; there are as many as before.
    fn change(&mut self, bytes: &mut [u8])
        ensures { changes self.old bytes.old self.new bytes.new };
}
