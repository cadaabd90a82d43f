//! How the log of a node is emptied, step by step.
ghost use Rattle.std.specs.Prelude.{◌≡◌, ◌+◌, true, ◌≤◌, ◌-◌, ◌*◌, slice_get, ◌↔◌, IsTrue};
ghost use Rattle.lc_model.specs.declared.event.Event.TheVariants.{ResetStep};
ghost use Rattle.lc_core.specs.Truncating.{AsksFirst, Repeats, StepsTo, Truncates, empties, EachFrom, WritesSegment};
ghost use Rattle.lc_core.specs.Truncating.{begun_in, is_due, sizes_of, HasBlocked, HasBlockedIn, IsBlocked};
ghost use Rattle.lc_core.specs.Truncating.{under_way_in};
ghost use Rattle.lc_core.specs.Truncation.{IsAtDue, IsFewer, IsOf, Leads, MakesOne, MakesOneOf, Remains, ThenCleans};
ghost use Rattle.lc_core.specs.Truncation.{ThenResets, WritesIf, steps_if, steps_left, IsFirstDue, IsNext, WritesAt};
ghost use Rattle.lc_core.specs.Truncation.{calls_left};
ghost use Rattle.lc_core.specs.declared.page_cursor.PageCursor.{PageCursor as Cursor};
ghost use Rattle.lc_core.specs.declared.truncation_step.TruncationStep.TheVariants.{Continues};
ghost use Rattle.lc_core.specs.declared.world_phase.WorldPhase.TheVariants.{Up as IsUp};

use crate::page_cursor::PageCursor;
use crate::truncation::Truncation;
use crate::truncation_stage::TruncationStage;
use crate::truncation_step::TruncationStep;
use crate::up::Up;
use crate::world::World;
use crate::world_phase::WorldPhase;
use lc_disk::{Area, Stoppable};
use lc_model::{Event, Refusal, Reply};
use std::alloc::Global;

// The calls of a reset after the first.
const MORE_CALLS: u32 = 3;

impl<D: Stoppable + Drop> World<D> {
    /// Empties the log of a node, each event by `step`, up to the first refusal. It makes a flush, up to `Acked` or
    /// `Nothing`. Then it writes each page that is dirty or whose write has begun, where the token stands at the node,
    /// and resets the log. After the flush the pages are asked: where a write would be refused `Uncommitted`, that is
    /// answered and no page is written. The last reply is answered: `Reset`, `Nothing` where the log was empty, or what
    /// was refused. The pages of a segment are written side by side, each call of all of them before the next. So the
    /// syncs of a file that has nothing to sync are free. A segment takes three syncs, and flush and reset three. It
    /// takes no memory.
    ///
    /// Idea: truncation (RVM: Satyanarayanan et al., TOCS 1994); pages side by side are this project's own.
    pub fn truncate(&mut self, alloc: Global, node: u16) -> Reply
        ensures { Truncates D.Area node self.old result self.new }
    {
        let mut truncation = Truncation::new(node);
        loop {
            match self.truncate_step(alloc, truncation) {
                TruncationStep::Continues(next) => truncation = next,
                TruncationStep::Ends(reply) => return reply,
            }
        }
    }

    /// The next event of a truncation, which makes one device call at most: what remains after it is what remained. It
    /// is over with no event where a page is blocked, and with the first refusal. It takes no memory.
    ///
    /// Idea: truncation (RVM: Satyanarayanan et al., TOCS 1994); a call at a time is this project's own.
    pub fn truncate_step(&mut self, alloc: Global, truncation: Truncation) -> TruncationStep
        ensures remains { Leads D.Area (Remains D.Area truncation) self.old result self.new }
        ensures one { MakesOneOf D.Area truncation.node self.old result self.new }
        ensures fewer { IsFewer D.Area (steps_left truncation) result }
        ensures node { IsOf D.Area truncation.node result }
    {
        let Truncation { node, stage } = truncation;
        match stage {
            TruncationStage::Flushes { more } => self.flush_on(alloc, node, more),
            TruncationStage::Asks => self.write_unblocked(alloc, node),
            TruncationStage::Writes(cursor) => {
                let next = self.next_due(node, cursor);
                self.write_on(alloc, node, next)
            }
            TruncationStage::Resets { more } => self.reset_on(alloc, node, more),
        }
    }

    // A call of the flush, which so many may follow.
    fn flush_on(&mut self, alloc: Global, node: u16, more: u32) -> TruncationStep
        ensures remains { Leads D.Area (ThenCleans D.Area more node) self.old result self.new }
        ensures one { MakesOne D.Area self.old self.new }
        ensures fewer { IsFewer D.Area (1048576 + more) result }
        ensures node { IsOf D.Area node result }
    {
        match self.ask(alloc, &Event::FlushStep { node }) {
            Reply::Stepped(calls) => {
                if more > 0 {
                    return continues(node, TruncationStage::Flushes { more: more - 1 });
                }
                TruncationStep::Ends(Reply::Stepped(calls))
            }
            Reply::Acked(_) | Reply::Nothing => continues(node, TruncationStage::Asks),
            reply => TruncationStep::Ends(reply),
        }
    }

    // The pages are asked, and the first that is due makes its call.
    fn write_unblocked(&mut self, alloc: Global, node: u16) -> TruncationStep
        ensures remains { Leads D.Area (AsksFirst D.Area node) self.old result self.new }
        ensures one { MakesOneOf D.Area node self.old result self.new }
        ensures fewer { IsFewer D.Area 1048575 result }
        ensures node { IsOf D.Area node result }
    {
        if self.has_blocked_page(node) {
            return TruncationStep::Ends(Reply::Refused(Refusal::Uncommitted));
        }
        let (segments, pages) = self.sizes();
        let next = self.first_due_from(node, 0, segments, pages);
        self.write_on(alloc, node, next)
    }

    // The page that is due makes its call; with none the log is reset.
    fn write_on(&mut self, alloc: Global, node: u16, next: Option<PageCursor>) -> TruncationStep
        requires due { (cursor : Cursor) → next ≡ Some cursor → IsAtDue D.Area node self.old cursor }
        ensures remains { Leads D.Area (ThenResets D.Area node (WritesIf D.Area node next)) self.old result self.new }
        ensures one { MakesOne D.Area self.old self.new }
        ensures fewer { IsFewer D.Area (steps_if next) result }
        ensures node { IsOf D.Area node result }
    {
        let Some(cursor) = next else {
            return self.reset_on(alloc, node, MORE_CALLS);
        };
        match self.ask(alloc, &cursor.event(node)) {
            Reply::Refused(refusal) => TruncationStep::Ends(Reply::Refused(refusal)),
            _ => continues(node, TruncationStage::Writes(cursor.past())),
        }
    }

    // A call of the reset, which so many may follow.
    fn reset_on(&mut self, alloc: Global, node: u16, more: u32) -> TruncationStep
        ensures remains { Leads D.Area (Repeats D.Area more (ResetStep node)) self.old result self.new }
        ensures one { MakesOne D.Area self.old self.new }
        ensures fewer { IsFewer D.Area (more + 1) result }
        ensures node { IsOf D.Area node result }
    {
        match self.ask(alloc, &Event::ResetStep { node }) {
            Reply::Stepped(calls) => {
                if more > 0 {
                    return continues(node, TruncationStage::Resets { more: more - 1 });
                }
                TruncationStep::Ends(Reply::Stepped(calls))
            }
            reply => TruncationStep::Ends(reply),
        }
    }

    // An event for which no memory is wanted.
    fn ask(&mut self, alloc: Global, event: &Event) -> Reply
        requires { empties event.now ≡ true }
        ensures { StepsTo D.Area self.old event.now result self.new }
    {
        match self.step(alloc, event) {
            Ok(reply) => reply,
            Err(_) => unreachable!(),
        }
    }
}

// More of a node's truncation is to come, from this stage on.
fn continues(node: u16, stage: TruncationStage) -> TruncationStep
    ensures { result ≡ Continues (record { node = node; stage = stage }) }
{
    TruncationStep::Continues(Truncation { node, stage })
}

// A write has six calls, one that was under way may have another after it, and in the thirteenth round no page is due.
const LAST_ROUND: u32 = 12;

impl<D: Area + Drop> World<D> {
    /// Whether the token of a segment, from 1, stands at a node, and this page of it is dirty or a write of it has
    /// begun.
    fn is_due(&self, node: u16, segment: u32, page: u32) -> bool
        requires first { 1 ≤ segment }
        ensures { result ≡ is_due D.Area self.now.phase node segment page }
    {
        match &self.phase {
            WorldPhase::Up(up) => up.is_due(node, segment, page),
            _ => false,
        }
    }

    /// How many segments it has, and pages each of them; none while it is down.
    pub(crate) fn sizes(&self) -> (u32, u32)
        ensures sizes { result ≡ sizes_of D.Area self.now.phase }
        ensures few_segments { result.0 ≤ 16 }
        ensures few_pages { result.1 ≤ 1024 }
    {
        match &self.phase {
            WorldPhase::Up(up) => (up.running.geometry.segments, up.running.geometry.pages),
            _ => (0, 0),
        }
    }

    /// The next page that is due, from where the cursor stands on.
    pub(crate) fn next_due(&self, node: u16, cursor: PageCursor) -> Option<PageCursor>
        ensures { IsNext D.Area node (WritesAt D.Area node cursor) (calls_left cursor) self.now result }
    {
        let PageCursor {
            pages,
            place,
            round,
            ..
        } = cursor;
        let segment = place + 1;
        if let Some(page) = self.first_due(node, segment, cursor.page, pages) {
            return Some(cursor.on(round, page));
        }
        if round < LAST_ROUND {
            if let Some(page) = self.first_due(node, segment, 0, pages) {
                return Some(cursor.on(round + 1, page));
            }
        }
        self.first_due_from(node, segment, cursor.segments, pages)
    }

    /// The first page that is due in the segments from this place on, which is numbered from 0, of so many.
    pub(crate) fn first_due_from(
        &self,
        node: u16,
        from: u32,
        segments: u32,
        pages: u32,
    ) -> Option<PageCursor>
        requires few_segments { segments ≤ 16 }
        requires few_pages { pages ≤ 1024 }
        ensures { IsNext D.Area node (EachFrom D.Area (segments - from) from (λ place.
            WritesSegment D.Area node (place + 1) pages)) ((segments - from) * 32768 + 27648) self.now result }
    {
        for place in from..segments {
            if let Some(page) = self.first_due(node, place + 1, 0, pages) {
                return Some(PageCursor {
                    segments,
                    pages,
                    place,
                    round: 0,
                    page,
                });
            }
        }
        None
    }

    // The first page of a segment, from 1, that is due, from this one on, of so many.
    fn first_due(&self, node: u16, segment: u32, from: u32, pages: u32) -> Option<u32>
        requires first { 1 ≤ segment }
        ensures { IsFirstDue D.Area node segment from pages self.now result }
    {
        for page in from..pages {
            if self.is_due(node, segment, page) {
                return Some(page);
            }
        }
        None
    }

    /// Whether some page is blocked at a node. Such a page is to be written there, now or after the write that is under
    /// way, and that write would be refused, since a transaction that is not over has set a position on the page. It
    /// takes no memory.
    pub(crate) fn has_blocked_page(&self, node: u16) -> bool
        ensures { IsTrue result ↔ HasBlocked D.Area self.now.phase node (sizes_of D.Area self.now.phase) }
    {
        let (segments, pages) = self.sizes();
        for place in 0..segments {
            if self.has_blocked_in(node, place + 1, pages) {
                return true;
            }
        }
        false
    }

    // Whether one of the first pages of a segment, from 1, is.
    fn has_blocked_in(&self, node: u16, segment: u32, pages: u32) -> bool
        requires first { 1 ≤ segment }
        ensures { IsTrue result ↔ HasBlockedIn D.Area self.now.phase node segment pages }
    {
        for page in 0..pages {
            if self.is_blocked(node, segment, page) {
                return true;
            }
        }
        false
    }

    fn is_blocked(&self, node: u16, segment: u32, page: u32) -> bool
        requires first { 1 ≤ segment }
        ensures { IsTrue result ↔ IsBlocked D.Area self.now.phase node segment page }
    {
        match &self.phase {
            WorldPhase::Up(up) => up.is_blocked(node, segment, page),
            _ => false,
        }
    }
}

impl<D: Area + Drop> Up<D> {
    fn is_due(&self, node: u16, segment: u32, page: u32) -> bool
        requires first { 1 ≤ segment }
        ensures { result ≡ is_due D.Area (IsUp self.now) node segment page }
    {
        let begun = self.is_begun(segment, page);
        match self.running.nodes.get(node as usize) {
            Some(node) => node.is_due(segment, page, begun),
            None => false,
        }
    }

    fn is_begun(&self, segment: u32, page: u32) -> bool
        requires first { 1 ≤ segment }
        ensures { result ≡ begun_in page (slice_get self.now.segments.items (segment - 1)) }
    {
        match self.segments.get(segment as usize - 1) {
            Some(pages) => pages.is_begun(page),
            None => false,
        }
    }

    fn is_blocked(&self, node: u16, segment: u32, page: u32) -> bool
        requires first { 1 ≤ segment }
        ensures { IsTrue result ↔ IsBlocked D.Area (IsUp self.now) node segment page }
    {
        let under_way = self.number_under_way(segment, page);
        match self.running.nodes.get(node as usize) {
            Some(node) => {
                node.is_newer(segment, page, under_way) && node.desk.is_uncommitted(segment, page)
            }
            None => false,
        }
    }

    // The number that a write of the page which is under way puts in place.
    fn number_under_way(&self, segment: u32, page: u32) -> Option<u64>
        requires first { 1 ≤ segment }
        ensures { result ≡ under_way_in page (slice_get self.now.segments.items (segment - 1)) }
    {
        self.segments
            .get(segment as usize - 1)?
            .number_under_way(page)
    }
}
