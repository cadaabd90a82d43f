//! A page write between two of its calls.
ghost use Rattle.std.specs.Prelude.{◌≡◌, ◌≢◌, ◌+◌, ◌*◌, ◌<◌, ◌≤◌, ℕ, length, is_ok, IfOk, IfErr};
ghost use Rattle.lc_page.specs.declared.page_text.PageText.{PageText};
ghost use Rattle.lc_page.specs.Page.{Page, slot_at, page_in};
ghost use Rattle.lc_page.specs.PageWrite.{IsBegun, drafted, closing_bytes, Continues, Writes, KeepsPage, SettledIn};
ghost use Rattle.lc_page.specs.PageWrite.{HasPage, IsEither};

use crate::page_write::{Begun, Closed, ClosingGate, Filled, Filling, OpeningGate};
use crate::{Draft, PageFault, PageWrite};
use lc_disk::Area;

/// A page write between two of its six calls. Each step makes one call. That a write is kept between its calls, with
/// others beside it, is this project's own.
#[derive(Drop)]
pub enum Writing {
    /// The first call is done.
    AtClosing(PageWrite<ClosingGate>),
    /// The second call is done.
    AtClosed(PageWrite<Closed>),
    /// The third call is done.
    AtFilling(PageWrite<Filling>),
    /// The fourth call is done.
    AtFilled(PageWrite<Filled>),
    /// The fifth call is done.
    AtOpening(PageWrite<OpeningGate>),
}

impl Writing {
    ghost use Rattle.lc_page.specs.Writing.{draft_of, calls_of, IsNextOf, Calls, IsUnderWay, GoesOn};

    /// Makes the first call of a write that has begun.
    pub fn begin<D: Area>(write: PageWrite<Begun>, area: &mut D) -> Result<Writing, PageFault>
        requires { (2 * write.draft.page + 2) * 272 ≤ length (D.now area.old) }
        ensures draft { IfOk result (λ w. draft_of w ≡ write.draft) }
        ensures calls { IfOk result (λ w. calls_of w ≡ 1) }

        ensures under_way { IfOk result (λ w. (text : PageText) → IsBegun write.draft write.state.gate text
            → SettledIn D.Area area.old write.draft.page text
            → IsUnderWay D.Area area.new w text (page_in (D.now area.old) write.draft.page)) }

        // After a fault too.
        ensures page { (text : PageText) → IsBegun write.draft write.state.gate text
            → SettledIn D.Area area.old write.draft.page text
            → HasPage D.Area area.new write.draft.page (λ page. page ≡ page_in (D.now area.old) write.draft.page) }

        ensures call { Writes D.Area write.draft.page (slot_at write.draft.page write.draft.slot)
            (closing_bytes write.state.gate)
            area.old area.new (is_ok result) }
        ensures device { Continues D.Area area.old area.new (is_ok result) }
        ensures others { (page : ℕ) → page ≢ write.draft.page → KeepsPage D.Area page area.old area.new }
        ensures fault { IfErr result (λ f. f ≡ PageFault.DeviceFault) }
    {
        let closing = write.close_gate(area)?;
        Ok(Writing::AtClosing(closing))
    }

    /// Makes the next call. There is nothing left after the sixth: `PageVector::settle` notes the page. A fault ends
    /// the write.
    pub fn step<D: Area>(self, area: &mut D) -> Result<Option<Writing>, PageFault>
        requires { (2 * (draft_of self).page + 2) * 272 ≤ length (D.now area.old) }
        ensures next { IfOk result (IsNextOf self) }

        ensures goes_on { IfOk result (λ next. (text : PageText) (old : Page) → IsUnderWay D.Area area.old self text old
            → GoesOn D.Area area.new (draft_of self) text old next) }

        // After a fault too.
        ensures page { (text : PageText) (old : Page) → IsUnderWay D.Area area.old self text old
            → HasPage D.Area area.new (draft_of self).page (IsEither old (drafted (draft_of self))) }

        // Before the fifth call it is the old page.
        ensures old_page { (text : PageText) (old : Page) → calls_of self < 4 → IsUnderWay D.Area area.old self text old
            → HasPage D.Area area.new (draft_of self).page (λ page. page ≡ old) }

        ensures call { Calls D.Area self area.old area.new (is_ok result) }
        ensures device { Continues D.Area area.old area.new (is_ok result) }
        ensures others { (page : ℕ) → page ≢ (draft_of self).page → KeepsPage D.Area page area.old area.new }
        ensures fault { IfErr result (λ f. f ≡ PageFault.DeviceFault) }
    {
        let next = match self {
            Writing::AtClosing(write) => Writing::AtClosed(write.sync_closed(area)?),
            Writing::AtClosed(write) => Writing::AtFilling(write.fill(area)?),
            Writing::AtFilling(write) => Writing::AtFilled(write.sync_filled(area)?),
            Writing::AtFilled(write) => Writing::AtOpening(write.open_gate(area)?),
            Writing::AtOpening(write) => {
                write.sync_open(area)?;
                return Ok(None);
            }
        };
        Ok(Some(next))
    }

    /// What is written, and where.
    pub fn draft(&self) -> &Draft
        ensures { result.now ≡ draft_of self.now }
    {
        match self {
            Writing::AtClosing(write) => write.draft(),
            Writing::AtClosed(write) => write.draft(),
            Writing::AtFilling(write) => write.draft(),
            Writing::AtFilled(write) => write.draft(),
            Writing::AtOpening(write) => write.draft(),
        }
    }

    /// How many of the six calls are done, 1 to 5.
    pub fn calls(&self) -> u8
        ensures calls { result ≡ calls_of self.now }
        ensures range { (1 ≤ result) × (result ≤ 5) }
    {
        match self {
            Writing::AtClosing(_) => 1,
            Writing::AtClosed(_) => 2,
            Writing::AtFilling(_) => 3,
            Writing::AtFilled(_) => 4,
            Writing::AtOpening(_) => 5,
        }
    }
}
