//! The pages of held segments are written, and the log learns what is clean.
ghost use Rattle.std.specs.Prelude.{◌≡◌, [], All, IfErr, OnOk};
ghost use Rattle.std.specs.VecDeque.{deque_capacity};
ghost use Rattle.lc_segments.specs.Each.{Each};
ghost use Rattle.lc_log_side.specs.Truncates.{FailsSides, HasPagesIn, IsSameHeld, SeesSides};
ghost use Rattle.lc_log_side.specs.Truncates.{WritesSide};

use crate::log_side::LogSide;
use lc_disk::Area;
use lc_page::Writing;
use lc_segments::{HeldSide, NodeFault};
use std::collections::VecDeque;

// Writes the dirty pages of each of these segments, in their order. `writes` is as for each of them.
pub(crate) fn write_all<D: Area + Drop>(
    sides: &mut Vec<HeldSide<D>>,
    writes: &mut VecDeque<Writing>,
) -> Result<(), NodeFault>
    requires none { writes.old.items ≡ [] }
    requires room { All (HasPagesIn (deque_capacity writes.old)) sides.old.items }
    ensures written { OnOk result (Each (WritesSide D.Area) sides.old.items sides.new.items) }
    ensures failed { IfErr result (λ fault. FailsSides D.Area sides.old.items fault sides.new.items) }
    ensures same { Each IsSameHeld sides.old.items sides.new.items }
{
    for place in 0..sides.len() {
        let held = &mut sides[place];
        held.side.inner.write_pages(writes)?;
    }
    Ok(())
}

impl<D: Area + Drop> LogSide<D> {
    // Takes in what the tokens of these segments that are here call clean.
    pub(crate) fn see_all(&mut self, sides: &[HeldSide<D>])
        ensures sees { SeesSides self.old.known sides.now self.new.known }
        ensures same { self.new ≡ record self.old { known = self.new.known } }
    {
        for held in sides {
            if let Some(token) = held.side.inner.token() {
                self.see(token);
            }
        }
    }
}
