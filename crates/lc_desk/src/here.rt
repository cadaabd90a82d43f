//! The segments at a node.
ghost use Rattle.std.specs.Prelude.{◌≡◌, ◌≤◌, ◌↔◌, IsTrue, vec_len};
ghost use Rattle.lc_range.specs.RangeSet.{IsCanonical};
ghost use Rattle.lc_desk.specs.Counts.{CountsAll};
ghost use Rattle.lc_desk.specs.Here.{the_images, same_numbers, own_image, other_image, beside_itself, beside_image};
ghost use Rattle.lc_desk.specs.Here.{beside_chained};

use crate::segment_copy::SegmentCopy;
use lc_range::Range;
use lc_tx::{Image, Images};

/// All segments at a node; segment 1 stands first.
#[derive(Drop)]
pub struct Here {
    pub slots: Vec<SegmentCopy>,
    /// An image of no segment: what contracts say where there is none.
    pub(crate) spare: Image,
}

impl Images for Here {
    ghost number_of = { the_images.number_of };

    ghost image_of = { the_images.image_of };

    ghost with_image = { the_images.with_image };

    ghost IsSameBeside = { the_images.IsSameBeside };

    fn number(&self, segment: u32) -> Option<u64> {
        if segment == 0 {
            return None;
        }
        let slot = self.slots.get(segment as usize - 1)?;
        let token = slot.token.token()?;
        Some(token.seq())
    }

    fn image(&mut self, segment: u32) -> &mut Image {
        let slot = &mut self.slots[segment as usize - 1];
        &mut slot.image
    }

    ghost same_numbers = { same_numbers };

    ghost own_image = { own_image };

    ghost other_image = { other_image };

    ghost beside_itself = { beside_itself };

    ghost beside_image = { beside_image };

    ghost beside_chained = { beside_chained };
}

impl Here {
    /// A record with these ranges, ascending, is closed: each token of a segment with a range has the next number,
    /// under which the pages of its ranges are changed, and the node has applied it. A slot whose token cannot count
    /// stays. It takes no memory.
    pub fn count(&mut self, ranges: &[Range])
        requires canonical { IsCanonical ranges.now }
        ensures counts { CountsAll ranges.now self.old.slots.items self.new.slots.items }
        ensures spare { self.new.spare ≡ self.old.spare }
    {
        // The segment of the range before, and whether its slot counted; there is no segment 0.
        let mut segment = 0;
        let mut counted = false;
        for range in ranges {
            if !self.has_slot(range.segment) {
                continue;
            }
            let slot = &mut self.slots[range.segment as usize - 1];
            if range.segment != segment {
                segment = range.segment;
                counted = slot.count();
            }
            if counted {
                slot.touch(range.offset, range.len);
            }
        }
    }

    // Whether there is a slot of this segment.
    fn has_slot(&self, segment: u32) -> bool
        ensures { IsTrue result ↔ ((1 ≤ segment) × (segment ≤ vec_len self.now.slots)) }
    {
        segment != 0 && segment as usize <= self.slots.len()
    }
}
