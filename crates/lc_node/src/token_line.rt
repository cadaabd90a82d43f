//! A line on which a token goes to a peer.
ghost use Rattle.std.specs.Prelude.{◌≡◌, IfErr, OnOk};

use std::sync::Wait;

/// A line to a peer, behind whatever lock it has. This project's own.
pub trait TokenLine<P> {
    /// What it is that a token was sent on the line, after what was sent before.
    ghost sent: { Self → P → Type 0 };

    /// What it is that the line refused a token.
    ghost refused: { Self → Type 0 };

    /// Sends a token, or hands it back where the line has no room or nobody receives.
    fn send<R: Wait>(&self, rt: &R, token: P) -> Result<(), P>
        ensures sent { OnOk result (sent self.now token) }
        ensures back { IfErr result (λ given. (given ≡ token) × refused self.now) };
}
