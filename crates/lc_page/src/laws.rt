//! Laws of pages, settled or under way: what is done beside a page keeps it.
ghost use Rattle.std.specs.Prelude.{◌≡◌, ◌≢◌, ◌+◌, ◌*◌, ◌<◌, ◌≤◌, ℕ, Bool, true, false, List, length, slice_index_or};
ghost use Rattle.lc_disk.specs.Area.{IsImage};
ghost use Rattle.lc_page.specs.declared.page_text.PageText.{PageText};
ghost use Rattle.lc_page.specs.declared.slot.Slot.{Slot};
ghost use Rattle.lc_page.specs.Page.{Page, slot_at, page_in, text_in};
ghost use Rattle.lc_page.specs.PageWrite.{drafted, IsEither, IsSettled, SameInside, SameOutside, KeepsPage, HasPage};
ghost use Rattle.lc_page.specs.Writing.{draft_of, calls_of, IsUnderWay};
ghost use Rattle.lc_page.specs.declared.writing.Writing.{Writing};

use lc_disk::Area;

/// What leaves all outside of one page as it was leaves all inside of another page as it was.
pub fn other_page_keeps()
    ensures { (page beside : ℕ) (now later : List ℕ) (dirty soiled : ℕ → Bool) → page ≢ beside
        → SameOutside beside now dirty later soiled → SameInside page now dirty later soiled }
{}

/// A page that is left as it was inside keeps its bytes and its text.
pub fn same_page_beside()
    ensures { (page : ℕ) (now later : List ℕ) (dirty soiled : ℕ → Bool) → SameInside page now dirty later soiled
        → (page_in later page ≡ page_in now page) × (text_in later page ≡ text_in now page) }
{}

/// And whatever a stop leaves of it a stop may have left before, where the area has both its slots and its bytes are
/// below 256, as `Area` says of an honest one.
pub fn same_images_beside()
    ensures { (page : ℕ) (now later : List ℕ) (dirty soiled : ℕ → Bool) → (2 * page + 2) * 272 ≤ length now
        → ((k : ℕ) → slice_index_or now k 0 < 256) → SameInside page now dirty later soiled
        → (image : List ℕ) → IsImage later soiled image
        → (before : List ℕ) × IsImage now dirty before
        × (page_in image page ≡ page_in before page) × (text_in image page ≡ text_in before page) }
{}

/// What keeps all that is read, and makes nothing dirty, as a sync does, leaves all inside of a page as it was.
pub fn sync_keeps()
    ensures { (page : ℕ) (now later : List ℕ) (dirty soiled : ℕ → Bool) → later ≡ now
        → ((k : ℕ) → dirty k ≡ false → soiled k ≡ false) → SameInside page now dirty later soiled }
{}

/// A page none of whose positions is dirty is settled as it reads.
pub fn settled_when_clean()
    ensures { (now : List ℕ) (dirty : ℕ → Bool) (page : ℕ)
        → ((slot : Slot) (k : ℕ) → k < 272 → dirty (slot_at page slot + k) ≡ false)
        → IsSettled now dirty page (text_in now page) }
{}

/// A page is settled where the area has both its slots, and each image says this of the page and has the same page as
/// the area reads. That its bytes are below 256, without which it may have no image, is a law of `Area`.
pub fn settled_from_images()
    ensures { (now : List ℕ) (dirty : ℕ → Bool) (page : ℕ) (text : PageText) → (2 * page + 2) * 272 ≤ length now
        → ((k : ℕ) → slice_index_or now k 0 < 256)
        → ((image : List ℕ) → IsImage now dirty image
        → (text_in image page ≡ text) × (page_in image page ≡ page_in now page))
        → IsSettled now dirty page text }
{}

/// Of a settled page the area reads what is said of it, where its bytes are below 256, as `Area` says of an honest one.
pub fn settled_reads()
    ensures { (now : List ℕ) (dirty : ℕ → Bool) (page : ℕ) (text : PageText)
        → ((k : ℕ) → slice_index_or now k 0 < 256) → IsSettled now dirty page text → text_in now page ≡ text }
{}

/// And so in each image, with the same page.
pub fn settled_images()
    ensures { (now : List ℕ) (dirty : ℕ → Bool) (page : ℕ) (text : PageText) → IsSettled now dirty page text
        → (image : List ℕ) → IsImage now dirty image
        → (text_in image page ≡ text) × (page_in image page ≡ page_in now page) }
{}

/// What is done beside a settled page keeps it settled.
pub fn keeps_settled()
    ensures { (page : ℕ) (now later : List ℕ) (dirty soiled : ℕ → Bool) (text : PageText)
        → SameInside page now dirty later soiled → IsSettled now dirty page text → IsSettled later soiled page text }
{}

/// And a page that is under way, under way.
pub fn others_keep<D: Area>()
    ensures { (old new : D) (writing : Writing) (text : PageText) (page : Page)
        → KeepsPage D.Area (draft_of writing).page old new
        → IsUnderWay D.Area old writing text page → IsUnderWay D.Area new writing text page }
{}

/// Of a page that is under way, the area and each image have the old page before the fifth call. After it the area
/// reads the new page, and each image has the old one or the new one.
pub fn page_under_way<D: Area>()
    ensures old { (area : D) (writing : Writing) (text : PageText) (old : Page) → calls_of writing < 5
        → IsUnderWay D.Area area writing text old
        → HasPage D.Area area (draft_of writing).page (λ page. page ≡ old) }

    ensures either { (area : D) (writing : Writing) (text : PageText) (old : Page)
        → (2 * (draft_of writing).page + 2) * 272 ≤ length (D.now area) → IsUnderWay D.Area area writing text old
        → HasPage D.Area area (draft_of writing).page (IsEither old (drafted (draft_of writing))) }

    ensures reads { (area : D) (writing : Writing) (text : PageText) (old : Page) → calls_of writing ≡ 5
        → (2 * (draft_of writing).page + 2) * 272 ≤ length (D.now area) → IsUnderWay D.Area area writing text old
        → D.honest area ≡ true → page_in (D.now area) (draft_of writing).page ≡ drafted (draft_of writing) }
{}
