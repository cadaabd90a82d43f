//! Whose turn it is to make room in the log.
ghost use Rattle.std.specs.Prelude.{◌≡◌};

use lc_lock::Keyed;

/// The turn to make room in a full log: one thread at a time has it. A lock gives it in the order of asking. This
/// project's own.
#[derive(Drop)]
pub(crate) struct RoomTurn;

impl Keyed<()> for RoomTurn {
    ghost fits = { λ _ turn. turn ≡ turn };
}
