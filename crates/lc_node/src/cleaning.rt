//! The most pages that one of the held segments has.
ghost use Rattle.std.specs.Prelude.{All};
ghost use Rattle.lc_log_side.specs.Truncates.{HasPagesIn};

use lc_disk::Area;
use lc_segments::HeldSide;

// The most pages that one of these segments has.
pub(crate) fn most_pages<D: Area + Drop>(sides: &[HeldSide<D>]) -> usize
    ensures { All (HasPagesIn result) sides.now }
{
    let mut most = 0;
    for held in sides {
        most = most.max(held.side.inner.page_count());
    }
    most
}
