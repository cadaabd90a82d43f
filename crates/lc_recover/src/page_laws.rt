//! What the bytes of a page are made of.
ghost use Rattle.std.specs.Prelude.{List};
ghost use Rattle.lc_recover.specs.declared.redo_range.RedoRange.{RedoRange};
ghost use Rattle.lc_recover.specs.Page.{PagesMerge, RangesStand, TakenPageByPage, pages_of, AreListed, AreDifferent};
ghost use Rattle.lc_recover.specs.Page.{BeginWithTheFirst};

/// The ranges of a page's changes are put on its bytes one after another. That makes of each byte that of the record
/// with the greatest number among those that cover it and are newer than the page, or the page's where there is none.
/// There are such ranges.
pub(crate) fn page_merged()
    ensures merged { PagesMerge }
    ensures stand { RangesStand }
{}

/// Where the first page is taken from the front again and again, each has all the changes of its page.
pub(crate) fn pages_are_whole()
    ensures { TakenPageByPage }
{}

/// The pages of a list of changes are those that some change is of, each once; and in an ascending list those of the
/// changes after its first page are all others.
pub(crate) fn pages_listed()
    ensures listed { (changes : List RedoRange) → AreListed changes }
    ensures once { (changes : List RedoRange) → AreDifferent (pages_of changes) }
    ensures first { (changes : List RedoRange) → BeginWithTheFirst changes }
{}
