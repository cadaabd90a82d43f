//! A node of one segment.
ghost use Rattle.std.proofs.Common.{refl, ◌∙◌};
ghost use Rattle.lc_tx.specs.OneSegment.{the_images, one_here};

use crate::{Image, Images};

/// The images of a node that has segment 1 alone, with its token.
#[derive(Drop)]
pub struct OneSegment {
    /// Its bytes, with those of an open transaction.
    pub image: Image,
    /// How many records were closed; each has the next number of the segment.
    pub records: u64,
}

impl Images for OneSegment {
    ghost number_of = { the_images.number_of };

    ghost image_of = { the_images.image_of };

    ghost with_image = { the_images.with_image };

    ghost IsSameBeside = { the_images.IsSameBeside };

    fn number(&self, segment: u32) -> Option<u64> {
        (segment == 1).then_some(self.records)
    }

    fn image(&mut self, _segment: u32) -> &mut Image {
        &mut self.image
    }

    ghost same_numbers = { λ s segment other image here. refl };

    ghost own_image = { λ s segment image here. refl };

    ghost other_image = { λ s segment other image here there differ. absurd
        (differ (one_here s segment other here there)) };

    ghost beside_itself = { λ s. refl };

    ghost beside_image = { λ s segment image here. refl };

    ghost beside_chained = { λ s t u one two. one ∙ two };
}
