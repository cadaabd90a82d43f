//! The held segment whose token is elsewhere.
ghost use Rattle.std.specs.Prelude.{◌≡◌, ◌↔◌, ℕ, IfNone, Some};
ghost use Rattle.lc_node.specs.Commits.{AreHere, IsFirstGone};

use lc_disk::Area;
use lc_segments::HeldSide;

/// The first of these segments whose token is not here.
pub(crate) fn first_absent<D: Area + Drop>(sides: &[HeldSide<D>]) -> Option<u32>
    ensures first { (s : ℕ) → (result ≡ Some s) ↔ IsFirstGone sides.now s }
    ensures none { IfNone result (AreHere sides.now) }
{
    for held in sides {
        let side = &*held.side.inner;
        if side.token().is_none() {
            return Some(side.segment());
        }
    }
    None
}
