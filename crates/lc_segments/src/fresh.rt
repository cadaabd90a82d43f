//! A segment of given bytes, at a node where its token is not.
ghost use Rattle.std.specs.Prelude.{◌≡◌, ◌≤◌, length};
ghost use Rattle.lc_segments.specs.Fresh.{elsewhere_side};

use crate::page_area::PageArea;
use crate::seg_side::SegSide;
use lc_applied::AppliedParts;
use lc_disk::Area;
use lc_token::{HoldBack, TokenPlace};
use lc_tx::Image;
use std::alloc::Global;

impl<D: Area + Drop> SegSide<D> {
    /// A segment of these bytes, twice, at a node where its token is not. The records up to a number are applied. It
    /// takes no memory.
    pub fn elsewhere(
        alloc: Global,
        segment: u32,
        number: u64,
        image: Vec<u8>,
        base: Vec<u8>,
    ) -> SegSide<D>
        requires same { image.items ≡ base.items }
        requires first { 1 ≤ segment }
        requires last { segment ≤ 16 }
        requires short { length base.items ≤ 262144 }
        ensures { result ≡ elsewhere_side segment number image base }
    {
        SegSide {
            segment,
            image: Some(Image::new(image)),
            base: Image::new(base),
            applied: AppliedParts::new(alloc),
            stored: 0,
            hold_back: HoldBack::new(alloc, segment, number),
            token: TokenPlace::new(segment, None),
            pages: PageArea::Elsewhere,
            since: 0,
            waiting: None,
            scratch: None,
        }
    }
}
