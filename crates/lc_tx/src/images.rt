//! The images that a transaction runs on.
ghost use Rattle.std.specs.Prelude.{◌≡◌, ◌≢◌, ℕ, Option, IsSome};
ghost use Rattle.std.specs.Borrow.{Lends, sem};
ghost use Rattle.lc_tx.specs.declared.image.Image.{Image as Picture};
ghost use Rattle.lc_tx.specs.contracts.image.Image.{the_row};

use crate::Image;

/// The images of the segments at a node, and the numbers of the tokens that are here.
pub trait Images {
    /// The number of a segment's token, if it is here.
    ghost number_of: { Self → ℕ → Option ℕ };

    /// A segment's image.
    ghost image_of: { Self → ℕ → Picture };

    /// All this with another image of a segment.
    ghost with_image: { Self → ℕ → Picture → Self };

    /// All but the images is the same.
    ghost IsSameBeside: { Self → Self → Type 0 };

    /// The number of a segment's token, if it is here.
    fn number(&self, segment: u32) -> Option<u64>
        ensures { result ≡ number_of self.now segment };

    /// A segment's image, where its token is here.
    fn image(&mut self, segment: u32) -> &mut Image
        requires { IsSome (number_of self.old segment) }
        ensures* writes_back { sem 𝓛 (Lends Self.row the_row self.entry result (with_image self.entry.now segment)) }
        ensures value { result.now ≡ image_of self.old segment };

    ghost same_numbers: { (s : Self) (segment other : ℕ) (image : Picture) → IsSome (number_of s segment)
        → number_of (with_image s segment image) other ≡ number_of s other };

    ghost own_image: { (s : Self) (segment : ℕ) (image : Picture) → IsSome (number_of s segment)
        → image_of (with_image s segment image) segment ≡ image };

    ghost other_image: { (s : Self) (segment other : ℕ) (image : Picture) → IsSome (number_of s segment)
        → IsSome (number_of s other) → other ≢ segment
        → image_of (with_image s segment image) other ≡ image_of s other };

    ghost beside_itself: { (s : Self) → IsSameBeside s s };

    ghost beside_image: { (s : Self) (segment : ℕ) (image : Picture) → IsSome (number_of s segment)
        → IsSameBeside s (with_image s segment image) };

    ghost beside_chained: { (s t u : Self) → IsSameBeside s t → IsSameBeside t u → IsSameBeside s u };
}
