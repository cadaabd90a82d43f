//! The token of a segment, how many pages it has, and how its dirty ones are written.
ghost use Rattle.std.specs.Prelude.{◌≡◌, ◌*◌, ◌≤◌, [], IfErr, OnOk, length};
ghost use Rattle.std.specs.Option.{ForSome, option_copied};
ghost use Rattle.std.specs.VecDeque.{deque_capacity};
ghost use Rattle.lc_segments.specs.Truncates.{FailsPages};
ghost use Rattle.lc_segments.specs.Truncates.{WritesPages};

use crate::node_fault::NodeFault;
use crate::page_area::PageArea;
use crate::page_writes::write_dirty;
use crate::seg_side::SegSide;
use lc_disk::Area;
use lc_page::{PAGE_BYTES, Writing};
use lc_token::Token;
use std::collections::VecDeque;
use std::mem;

impl<D: Area + Drop> SegSide<D> {
    /// The segment's token, if it is here.
    pub fn token(&self) -> Option<&Token>
        ensures token { option_copied result ≡ self.now.standing.token }
        ensures segment { ForSome self.now.standing.token (λ t. (1 ≤ t.segment) × (t.segment ≤ 16)) }
    {
        self.token.token()
    }

    /// How many pages the segment has.
    pub fn page_count(&self) -> usize
        ensures { length self.now.base ≤ result * 256 }
    {
        self.base.bytes().len().div_ceil(PAGE_BYTES)
    }

    /// Folds the applied records into the base, and writes the dirty pages, if their area is here: each page makes its
    /// call number i before any makes the next, so that they share three syncs. `writes` is empty, with room for a
    /// write of each page. It takes no memory.
    ///
    /// # Errors
    ///
    /// `Halted` exactly where a call of the area failed before; `DeviceFault` where one fails now, and then only a
    /// recovery reads the area again. The token is as it was.
    pub fn write_pages(&mut self, writes: &mut VecDeque<Writing>) -> Result<(), NodeFault>
        requires none { writes.old.items ≡ [] }
        requires room { length self.old.base ≤ deque_capacity writes.old * 256 }
        ensures written { OnOk result (WritesPages D.Area self.old self.new) }
        ensures failed { IfErr result (λ fault. FailsPages D.Area self.old fault self.new) }
        ensures none { writes.new.items ≡ [] }
        ensures room { deque_capacity writes.old ≤ deque_capacity writes.new }
    {
        self.fold();
        match mem::replace(&mut self.pages, PageArea::Elsewhere) {
            PageArea::Elsewhere => Ok(()),
            PageArea::Failed(area) => {
                self.pages = PageArea::Failed(area);
                Err(NodeFault::Halted)
            }
            PageArea::Serves(area) => {
                let mut area = area;
                match write_dirty(&mut area, &mut self.token, self.base.bytes(), writes) {
                    Ok(()) => {
                        self.pages = PageArea::Serves(area);
                        Ok(())
                    }
                    Err(_) => {
                        self.pages = PageArea::Failed(area);
                        Err(NodeFault::DeviceFault)
                    }
                }
            }
        }
    }
}
