//! The images of held segments, lent to a transaction.
ghost use Rattle.std.specs.Prelude.{◌≡◌};
ghost use Rattle.lc_segments.specs.HeldImages.{the_images, place_of, same_numbers, own_image, other_image};
ghost use Rattle.lc_segments.specs.HeldImages.{beside_itself};
ghost use Rattle.lc_segments.specs.HeldImages.{beside_image, beside_chained};

use lc_tx::{Image, Images};

/// A segment's image, out of its side: the segment, and the number of its token where that is here.
#[derive(Drop)]
pub struct LentSlot {
    pub segment: u32,
    pub number: Option<u64>,
    pub image: Image,
}

/// The images of held segments, in the order of their sides.
#[derive(Drop)]
pub struct HeldImages {
    pub slots: Vec<LentSlot>,
    /// An image of no segment: what contracts say where there is none.
    pub spare: Image,
}

impl HeldImages {
    /// The place of a segment's slot; the one after the last where there is none.
    pub(crate) fn place(&self, segment: u32) -> usize
        ensures { result ≡ place_of self.now.slots.items segment }
    {
        for place in 0..self.slots.len() {
            if self.slots[place].segment == segment {
                return place;
            }
        }
        self.slots.len()
    }
}

impl Images for HeldImages {
    ghost number_of = { the_images.number_of };

    ghost image_of = { the_images.image_of };

    ghost with_image = { the_images.with_image };

    ghost IsSameBeside = { the_images.IsSameBeside };

    fn number(&self, segment: u32) -> Option<u64> {
        let slot = self.slots.get(self.place(segment))?;
        slot.number
    }

    fn image(&mut self, segment: u32) -> &mut Image {
        let place = self.place(segment);
        let slot = &mut self.slots[place];
        &mut slot.image
    }

    ghost same_numbers = { same_numbers };

    ghost own_image = { own_image };

    ghost other_image = { other_image };

    ghost beside_itself = { beside_itself };

    ghost beside_image = { beside_image };

    ghost beside_chained = { beside_chained };
}
