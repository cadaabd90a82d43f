//! The token of a segment arrives at a node, with the area of its pages.
ghost use Rattle.std.specs.Prelude.{◌≡◌, ◌↔◌, true, false, None, Some, Ok, IfErr, IsOk, IsSomeAnd, IsTrue, OnErr, OnOk};
ghost use Rattle.std.specs.Option.{ForSome};
ghost use Rattle.lc_segments.specs.Arriving.{MayArrive, with_token};
ghost use Rattle.lc_segments.specs.Pages.{FitsToken};
ghost use Rattle.lc_applied.specs.AppliedParts.{laid_parts};
ghost use Rattle.lc_segments.specs.declared.page_area.PageArea.TheVariants.{Serves};

use crate::page_area::PageArea;
use crate::seg_side::SegSide;
use crate::travelling::Travelling;
use lc_disk::Area;
use lc_page::PAGE_BYTES;
use lc_token::{Token, TokenPlace};

impl<D: Area + Drop> SegSide<D> {
    /// Places a token that came here, with the area of the pages. It may where no token is here, where it is of the
    /// segment and has as many pages, and where the node has applied just the records that it has seen; else it is
    /// handed back, and nothing has changed. It takes no memory. Log-based coherency: Feeley et al., OSDI 1994.
    pub(crate) fn arrive(&mut self, journey: Travelling<D>) -> Result<(), Travelling<D>>
        ensures done { IsOk result ↔ MayArrive self.old journey }
        ensures arrived { OnOk result (self.new ≡ with_token journey self.old) }
        ensures back { IfErr result (λ given. given ≡ journey) }
        ensures err { OnErr result (self.new ≡ self.old) }
    {
        if !self.may_arrive(&journey) {
            return Err(journey);
        }
        self.since = journey.token.seq() + 1;
        self.stay(journey);
        Ok(())
    }

    /// Places a token that left and was not sent, with the area of the pages: all is as it was before it left. It takes
    /// no memory.
    pub fn stay(&mut self, journey: Travelling<D>)
        requires none { self.old.standing.token ≡ None }
        requires segment { journey.token.segment ≡ self.old.segment }
        requires number { journey.token.seq ≡ self.old.backlog.applied }
        requires fits { FitsToken D.Area self.old.since journey.area journey.token
            (laid_parts self.old.applied self.old.base) }
        ensures { self.new ≡ record self.old
            { standing = record self.old.standing { token = Some journey.token }; pages = Serves journey.area } }
    {
        let Travelling { token, area, .. } = journey;
        self.serve(token, area);
    }

    /// Places the token, with the area of the pages. It takes no memory.
    pub fn serve(&mut self, token: Token, area: D)
        requires segment { token.segment ≡ self.old.segment }
        requires number { token.seq ≡ self.old.backlog.applied }
        requires fits { FitsToken D.Area self.old.since area token (laid_parts self.old.applied self.old.base) }
        ensures { self.new ≡ record self.old
            { standing = record self.old.standing { token = Some token }; pages = Serves area } }
    {
        self.token = TokenPlace::new(self.segment, Some(token));
        self.pages = PageArea::Serves(area);
    }

    /// Takes in a token that came: true, it has arrived; false, it waits here until the node has applied what it has
    /// seen. Where another waits, and it may not arrive, it is handed back, and nothing has changed. It takes no
    /// memory.
    pub fn admit(&mut self, journey: Travelling<D>) -> Result<bool, Travelling<D>>
        ensures arrived { (result ≡ Ok true) ↔ MayArrive self.old journey }
        ensures waits { (result ≡ Ok false) ↔ ((MayArrive self.old journey → ⊥) × (self.old.waiting ≡ None)) }
        ensures arrives { result ≡ Ok true → self.new ≡ with_token journey self.old }
        ensures kept { result ≡ Ok false → self.new ≡ record self.old { waiting = Some journey } }
        ensures same { (self.new.segment ≡ self.old.segment) × (self.new.image ≡ self.old.image) }
        ensures back { IfErr result (λ given. given ≡ journey) }
        ensures err { OnErr result (self.new ≡ self.old) }
    {
        let Err(journey) = self.arrive(journey) else {
            return Ok(true);
        };
        if self.waiting.is_some() {
            return Err(journey);
        }
        self.waiting = Some(journey);
        Ok(false)
    }

    /// The token that waits arrives, if there is one and it may. It takes no memory.
    pub fn admit_waiting(&mut self) -> bool
        ensures when { IsTrue result ↔ IsSomeAnd self.old.waiting (MayArrive self.old) }
        ensures arrived { result ≡ true → ForSome self.old.waiting (λ journey. self.new
            ≡ record (with_token journey self.old) { waiting = None }) }
        ensures none { result ≡ false → self.new ≡ self.old }
    {
        let Some(journey) = self.waiting.take() else {
            return false;
        };
        let Err(journey) = self.arrive(journey) else {
            return true;
        };
        self.waiting = Some(journey);
        false
    }

    // Whether a token may arrive.
    fn may_arrive(&self, journey: &Travelling<D>) -> bool
        ensures { IsTrue result ↔ MayArrive self.now journey.now }
    {
        self.token.is_empty()
            && journey.token.segment() == self.segment
            && journey.token.seq() == self.hold_back.applied()
            && self.base.bytes().len() == journey.token.pages().len() * PAGE_BYTES
    }
}
