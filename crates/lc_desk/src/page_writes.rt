//! The calls of a page write, and which pages are to be written.
ghost use Rattle.std.specs.Prelude.{◌≡◌, ◌<◌, ℕ, Some, IfErr, is_ok, vec_len, slice_get};
ghost use Rattle.std.specs.List.{list_any};
ghost use Rattle.lc_page.specs.Page.{slot_at};
ghost use Rattle.lc_log.specs.OneCall.{IsOneCall};
ghost use Rattle.lc_page.specs.PageWrite.{closing_bytes, Writes};
ghost use Rattle.lc_page.specs.Writing.{Calls};
ghost use Rattle.lc_page.specs.declared.writing.Writing.{Writing as TheWriting};
ghost use Rattle.lc_model.specs.State.{Setting};
ghost use Rattle.lc_settled.specs.Numbers.{Numbers};
ghost use Rattle.lc_desk.specs.PageState.{is_begun};
ghost use Rattle.lc_settled.specs.Settled.{is_writing};
ghost use Rattle.lc_desk.specs.declared.page_state.PageState.TheVariants.{AtRest, UnderWay};
ghost use Rattle.lc_page.specs.PageVector.{entry_at, is_dirty};
ghost use Rattle.lc_desk.specs.Truncating.{begun_at, due_of, newer_of, under_way_at, under_way_of};
ghost use Rattle.lc_desk.specs.Showing.{page_of};

use crate::page_progress::PageProgress;
use crate::page_state::PageState;
use crate::pages::Pages;
use crate::segment_copy::SegmentCopy;
use lc_disk::Area;
use lc_page::{Begun, PAGE_BYTES, PageFault, PageVector, PageWrite, Writing};
use std::mem;

impl<D: Area> Pages<D> {
    ghost use Rattle.lc_desk.specs.Pages.{BeginsIn, FitsArea, FollowsBegin, FollowsNext, StepsIn, TellsNumbers};

    /// Whether a write of some page has begun, and is not over.
    pub fn is_writing(&self) -> bool
        ensures states { result ≡ list_any is_begun self.now.writes.items }
        ensures numbers { (m : Setting) (segment : ℕ) (x : Numbers) → FitsArea D.Area m.geometry segment self.now x
            → result ≡ is_writing m x segment }
    {
        self.begun > 0
    }

    /// Makes the first call of a write of a page that is at rest. After a fault, which is one of the device, the page
    /// is as it was, and is not written any more.
    pub fn begin(&mut self, write: PageWrite<Begun>) -> Result<(), PageFault>
        requires page { write.draft.page < vec_len self.old.writes }
        requires rests { slice_get self.old.writes.items write.draft.page ≡ Some AtRest }
        ensures follows { FollowsBegin D.Area self.old write.draft write.state.gate self.new }
        ensures states { BeginsIn self.old.writes.items write.draft (is_ok result) self.new.writes.items }
        ensures call { Writes D.Area write.draft.page (slot_at write.draft.page write.draft.slot)
            (closing_bytes write.state.gate)
            self.old.area self.new.area (is_ok result) }
        ensures device { IsOneCall D.Area (is_ok result) self.old.area self.new.area }
        ensures fault { IfErr result (λ f. f ≡ PageFault.DeviceFault) }
        ensures pages { vec_len self.new.writes ≡ vec_len self.old.writes }
    {
        let place = write.draft().page as usize;
        let begun = Writing::begin(write, &mut self.area);
        self.begun += 1;
        match begun {
            Ok(write) => {
                self.writes[place] = PageState::UnderWay(write);
                Ok(())
            }
            Err(fault) => {
                self.writes[place] = PageState::Failed;
                Err(fault)
            }
        }
    }

    /// Makes the next call of a page that is being written. After the sixth the page is at rest again; after a fault,
    /// which is one of the device, it is not written any more.
    pub fn step(&mut self, page: u32) -> Result<PageProgress, PageFault>
        requires { (write : TheWriting) × (slice_get self.old.writes.items page ≡ Some (UnderWay write)) }
        ensures follows { FollowsNext D.Area self.old page result self.new }
        ensures tells { TellsNumbers D.Area self.old page result }
        ensures states { (write : TheWriting) → slice_get self.old.writes.items page ≡ Some (UnderWay write)
            → StepsIn self.old.writes.items page write result self.new.writes.items }
        ensures call { (write : TheWriting) → slice_get self.old.writes.items page ≡ Some (UnderWay write)
            → Calls D.Area write self.old.area self.new.area (is_ok result) }
        ensures device { IsOneCall D.Area (is_ok result) self.old.area self.new.area }
        ensures fault { IfErr result (λ f. f ≡ PageFault.DeviceFault) }
        ensures pages { vec_len self.new.writes ≡ vec_len self.old.writes }
    {
        let place = page as usize;
        let PageState::UnderWay(write) = mem::replace(&mut self.writes[place], PageState::Failed)
        else {
            unreachable!()
        };
        let number = write.draft().seq;
        let next = write.step(&mut self.area);
        match next {
            Ok(left) => match left {
                Some(next) => {
                    let calls = next.calls();
                    self.writes[place] = PageState::UnderWay(next);
                    Ok(PageProgress::Stepped(calls))
                }
                None => {
                    self.writes[place] = PageState::AtRest;
                    self.begun -= 1;
                    Ok(PageProgress::Written(number))
                }
            },
            Err(fault) => Err(fault),
        }
    }

    /// Whether a write of this page has begun.
    pub fn is_begun(&self, page: u32) -> bool
        ensures { result ≡ begun_at (slice_get self.now.writes.items page) }
    {
        match self.writes.get(page as usize) {
            Some(state) => state.is_begun(),
            None => false,
        }
    }

    /// Under which number this page is being written, if it is.
    pub fn number_under_way(&self, page: u32) -> Option<u64>
        ensures { result ≡ under_way_at (slice_get self.now.writes.items page) }
    {
        self.writes.get(page as usize)?.number_under_way()
    }
}

impl SegmentCopy {
    /// Whether the token stands here, and this page of it is dirty or a write of it has begun.
    pub fn is_due(&self, page: u32, begun: bool) -> bool
        ensures { result ≡ due_of page begun self.now.token.token }
    {
        match self.token.token() {
            Some(token) => is_dirty(token.pages(), page) || begun,
            None => false,
        }
    }

    /// Whether the token stands here, and the page was changed under a greater number than that of the write which is
    /// under way, or, where none is, than that of the page on the device.
    pub fn is_newer(&self, page: u32, under_way: Option<u64>) -> bool
        ensures { result ≡ newer_of page under_way self.now.token.token }
    {
        let Some(token) = self.token.token() else {
            return false;
        };
        if page as usize >= token.pages().len() {
            return false;
        }
        under_way.unwrap_or(token.pages().stable(page)) < token.pages().touched(page)
    }
}

// Whether there is such a page, and it is dirty.
fn is_dirty(pages: &PageVector, page: u32) -> bool
    ensures { result ≡ is_dirty (entry_at pages.now page) }
{
    (page as usize) < pages.len() && pages.dirty(page)
}

impl PageState {
    /// Under which number this page is being written, if it is.
    pub fn number_under_way(&self) -> Option<u64>
        ensures { result ≡ under_way_of self.now }
    {
        match self {
            PageState::UnderWay(write) => Some(write.draft().seq),
            PageState::AtRest | PageState::Failed => None,
        }
    }
}

/// The bytes of a page of a segment, as far as it has them.
pub fn page_in(bytes: &[u8], page: u32) -> &[u8]
    ensures { result.now ≡ page_of bytes.now page }
{
    let start = (page as usize * PAGE_BYTES).min(bytes.len());
    let behind = &bytes[start..];
    &behind[..PAGE_BYTES.min(behind.len())]
}
