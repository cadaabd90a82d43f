//! Where a truncation is among the pages of a node.
ghost use Rattle.std.specs.Prelude.{◌≤◌, ◌<◌};

use lc_model::Event;

/// Where a truncation is among the pages of a node: how many segments there are, and pages each; the place of the
/// segment, from 0; its round, from 0; and the page that is looked at next.
#[derive(Clone, Copy)]
pub(crate) struct PageCursor {
    pub(crate) segments: u32,
    pub(crate) pages: u32,
    pub(crate) place: u32,
    pub(crate) round: u32,
    pub(crate) page: u32,
    ghost few_segments: { segments ≤ 16 },
    ghost few_pages: { pages ≤ 1024 },
    ghost inside: { place < segments },
    ghost turn: { round < 13 },
    ghost within: { page ≤ pages },
}

impl PageCursor {
    ghost use Rattle.std.specs.Prelude.{◌≡◌, ◌+◌};
    ghost use Rattle.lc_model.specs.declared.event.Event.TheVariants.{PageStep};
    ghost use Rattle.lc_core.specs.Truncation.{IsOn};

    /// The number of the segment, from 1.
    pub(crate) fn segment(&self) -> u32
        ensures { result ≡ self.now.place + 1 }
    {
        self.place + 1
    }

    /// The next call of the write of this page at a node.
    pub(crate) fn event(&self, node: u16) -> Event
        ensures { result ≡ PageStep node (self.now.place + 1) self.now.page }
    {
        Event::PageStep {
            node,
            segment: self.segment(),
            page: self.page,
        }
    }

    /// On this page of the same segment, in this round.
    pub(crate) fn on(self, round: u32, page: u32) -> PageCursor
        requires turn { round < 13 }
        requires within { page ≤ self.pages }
        ensures { IsOn self round page result }
    {
        let PageCursor {
            segments,
            pages,
            place,
            ..
        } = self;
        PageCursor {
            segments,
            pages,
            place,
            round,
            page,
        }
    }

    /// Past this page.
    pub(crate) fn past(self) -> PageCursor
        requires { self.page < self.pages }
        ensures { IsOn self self.round (self.page + 1) result }
    {
        self.on(self.round, self.page + 1)
    }
}
