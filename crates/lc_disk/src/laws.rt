//! Laws of images.
ghost use Rattle.std.specs.Prelude.{◌≡◌, ◌<◌, ℕ, Bool, false, List, slice_index_or};
ghost use Rattle.lc_disk.specs.Area.{IsImage, IsClean};

/// An image of an image is an image.
pub fn image_of_image()
    ensures { (now : List ℕ) (dirty : ℕ → Bool) (image other : List ℕ) → IsImage now dirty image
        → IsImage image dirty other → IsImage now dirty other }
{}

/// What keeps each byte that is read, and makes no position dirty, leaves no new image.
pub fn images_kept()
    ensures { (now later : List ℕ) (dirty soiled : ℕ → Bool) → later ≡ now
        → ((k : ℕ) → dirty k ≡ false → soiled k ≡ false)
        → (image : List ℕ) → IsImage later soiled image → IsImage now dirty image }
{}

/// A clean area has one image at most: what it reads.
pub fn clean_image()
    ensures { (now : List ℕ) (dirty : ℕ → Bool) → IsClean dirty → (image : List ℕ) → IsImage now dirty image
        → image ≡ now }
{}

/// An area that reads bytes, as each honest one does, reads as one of its own images.
pub fn reads_as_image()
    ensures { (now : List ℕ) (dirty : ℕ → Bool) → ((k : ℕ) → slice_index_or now k 0 < 256) → IsImage now dirty now }
{}
