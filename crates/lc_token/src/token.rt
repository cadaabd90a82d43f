//! What says which node may change a segment.
ghost use Rattle.std.specs.Prelude.{◌≡◌, ◌<◌, ℕ, true, length, max, slice_set};
ghost use Rattle.lc_token.specs.Token.{HasOlder, IsOldestDirty, least_with};

use lc_page::PageVector;

/// What says which node may change a segment (log-based coherency: Feeley et al., OSDI 1994). There is one of a
/// segment: it is placed or sent, and a dropped one is lost until the next recovery.
#[derive(Drop)]
pub struct Token {
    pub(crate) segment: u32,
    pub(crate) seq: u64,
    pub(crate) clean: u64,
    pub(crate) pages: PageVector,
}

impl Token {
    ghost use Rattle.lc_token.specs.Token.{IsWritten, recovered_token};

    /// The token of a segment, from 1, after a recovery that has put the records of the segment up to a number on its
    /// pages on the disk: that is its last record, and up to it all is clean. It takes no memory.
    pub fn recovered(segment: u32, seq: u64, pages: PageVector) -> Token
        ensures { result ≡ recovered_token segment seq pages }
    {
        Token {
            segment,
            seq,
            clean: seq,
            pages,
        }
    }

    /// The segment, from 1.
    pub fn segment(&self) -> u32
        ensures { result ≡ self.now.segment }
    {
        self.segment
    }

    /// The number of the last record of the segment; 0 where there was none.
    pub fn seq(&self) -> u64
        ensures { result ≡ self.now.seq }
    {
        self.seq
    }

    /// The number up to which the records of the segment are on its pages on the disk.
    pub fn clean(&self) -> u64
        ensures { result ≡ self.now.clean }
    {
        self.clean
    }

    /// What is kept of its pages.
    pub fn pages(&self) -> &PageVector
        ensures { result.now ≡ self.now.pages }
    {
        &self.pages
    }

    /// Ends the token, and hands out what was kept of its pages: for a recovery that makes the segment's token anew. It
    /// takes no memory.
    pub fn into_pages(self) -> PageVector
        ensures { result ≡ self.pages }
    {
        let Token {
            segment: _,
            seq: _,
            clean: _,
            pages,
        } = self;
        pages
    }

    /// Notes that a page was written under a number: `clean` rises to the least number that a dirty page has on the
    /// disk, and where no page is dirty to the token's own. It takes no memory. It looks at the pages after the written
    /// one as far as the first that holds `clean` back, and at all of them only where none does: so pages that are
    /// written in order cost their number.
    pub fn written(&mut self, page: u32, number: u64)
        requires { page < length self.old.pages }
        ensures { IsWritten self.old page number self.new }
    {
        self.pages.settle(page, number);
        if is_older_behind(&self.pages, page, self.clean) {
            return;
        }
        let reached = oldest_dirty(&self.pages).unwrap_or(self.seq);
        self.clean = self.clean.max(reached);
    }
}

// Whether a dirty page after this one has no greater number on the disk.
fn is_older_behind(pages: &PageVector, page: u32, number: u64) -> bool
    ensures { result ≡ true → HasOlder pages.now number }
{
    for place in page as usize + 1..pages.len() {
        let Ok(page) = u32::try_from(place) else {
            break;
        };
        if pages.dirty(page) && pages.stable(page) <= number {
            return true;
        }
    }
    false
}

// The least number that a dirty page has on the disk, if a page is dirty.
fn oldest_dirty(pages: &PageVector) -> Option<u64>
    ensures { IsOldestDirty pages.now result }
{
    let mut oldest: Option<u64> = None;
    for place in 0..pages.len() {
        let Ok(page) = u32::try_from(place) else {
            break;
        };
        if pages.dirty(page) {
            oldest = Some(least_with(oldest, pages.stable(page)));
        }
    }
    oldest
}

fn least_with(least: Option<u64>, number: u64) -> u64
    ensures { result ≡ least_with least number }
{
    least.map_or(number, |least| least.min(number))
}
