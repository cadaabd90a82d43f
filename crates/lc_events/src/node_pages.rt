//! The page writes of a node.
ghost use Rattle.std.specs.Prelude.{◌≡◌, ◌<◌, ◌≤◌, ◌-◌, ◌||◌, true, false, Some, IsSome, vec_len, slice_get};
ghost use Rattle.lc_page.specs.declared.writing.Writing.{Writing};
ghost use Rattle.lc_events.specs.CallReplies.{CalledAs};
ghost use Rattle.lc_journal.specs.FaultReplies.{is_unknown};
ghost use Rattle.lc_journal.specs.Log.{area_of};
ghost use Rattle.lc_journal.specs.MayReply.{or_fault};
ghost use Rattle.lc_events.specs.MayReply.{refuses_common};
ghost use Rattle.lc_model.specs.Machine.{may_page};
ghost use Rattle.lc_desk.specs.declared.page_state.PageState.TheVariants.{AtRest as Rests, UnderWay as IsUnderWay};
ghost use Rattle.lc_desk.specs.declared.segment_copy.SegmentCopy.{SegmentCopy};
ghost use Rattle.lc_events.specs.Truncating.{due_in, newer_in};

use crate::node_state::NodeState;
use lc_desk::{PageProgress, PageState, Pages};
use lc_disk::Area;
use lc_model::{Refusal, Reply};

impl<D: Area + Drop> NodeState<D> {
    ghost use Rattle.lc_events.specs.NodeState.{HasSameRoom};
    ghost use Rattle.lc_events.specs.Paging.{FollowsPage};

    /// One of the six device calls of a write of a page of a segment, from 1, where the segment's token stands here.
    /// The first takes the page as it is. It takes no memory.
    pub fn page_step(&mut self, segment: u32, page: u32, pages: &mut Pages<D>) -> Reply
        requires first { 1 ≤ segment }
        requires slot { segment ≤ vec_len self.old.desk.here.slots }
        requires page { page < vec_len pages.old.writes }
        ensures follows { FollowsPage D.Area segment page self.old pages.old result self.new pages.new }
        ensures names { (or_fault may_page result || refuses_common result) ≡ true }
        ensures whole { HasSameRoom D.Area self.old self.new }

        // One call of the device where the reply tells of it, and none of the log's.
        ensures device { CalledAs D.Area result pages.old.area pages.new.area }
        ensures log { area_of D.Area self.new.journal.log ≡ area_of D.Area self.old.journal.log }
        ensures known { is_unknown result ≡ false }
        ensures pages { vec_len pages.new.writes ≡ vec_len pages.old.writes }
    {
        let slot = &self.desk.here.slots[segment as usize - 1];
        if slot.token.is_empty() {
            return Reply::Refused(Refusal::NotHere { segment });
        }
        match pages.writes[page as usize] {
            PageState::AtRest => self.begin_page(segment, page, pages),
            PageState::UnderWay(_) => self.next_page_call(segment, page, pages),
            // The node is halted since.
            PageState::Failed => Reply::Refused(Refusal::Halted),
        }
    }

    // The first call, where nothing stands against it.
    fn begin_page(&mut self, segment: u32, page: u32, pages: &mut Pages<D>) -> Reply
        requires first { 1 ≤ segment }
        requires slot { segment ≤ vec_len self.old.desk.here.slots }
        requires page { page < vec_len pages.old.writes }
        requires here { (slot : SegmentCopy) → slice_get self.old.desk.here.slots.items (segment - 1) ≡ Some slot
            → IsSome slot.token.token }
        requires rests { slice_get pages.old.writes.items page ≡ Some Rests }
        ensures follows { FollowsPage D.Area segment page self.old pages.old result self.new pages.new }
        ensures names { or_fault may_page result ≡ true }
        ensures whole { HasSameRoom D.Area self.old self.new }
        ensures device { CalledAs D.Area result pages.old.area pages.new.area }
        ensures log { area_of D.Area self.new.journal.log ≡ area_of D.Area self.old.journal.log }
        ensures known { is_unknown result ≡ false }
        ensures pages { vec_len pages.new.writes ≡ vec_len pages.old.writes }
    {
        if self.desk.is_uncommitted(segment, page) {
            return Reply::Refused(Refusal::Uncommitted);
        }
        if self.journal.records.count() > self.journal.acked {
            return Reply::Refused(Refusal::Unflushed);
        }
        let Some(write) = self.desk.draft(segment, page) else {
            return Reply::Refused(Refusal::NotNewer);
        };
        match pages.begin(write) {
            Ok(()) => Reply::Stepped(1),
            Err(_) => {
                self.journal.give_up();
                Reply::Refused(Refusal::DeviceFault)
            }
        }
    }

    // The next call of a write that is under way. After the last the token knows that the page is written.
    fn next_page_call(&mut self, segment: u32, page: u32, pages: &mut Pages<D>) -> Reply
        requires first { 1 ≤ segment }
        requires slot { segment ≤ vec_len self.old.desk.here.slots }
        requires page { page < vec_len pages.old.writes }
        requires here { (slot : SegmentCopy) → slice_get self.old.desk.here.slots.items (segment - 1) ≡ Some slot
            → IsSome slot.token.token }
        requires begun { (write : Writing) × (slice_get pages.old.writes.items page ≡ Some (IsUnderWay write)) }
        ensures follows { FollowsPage D.Area segment page self.old pages.old result self.new pages.new }
        ensures names { or_fault may_page result ≡ true }
        ensures whole { HasSameRoom D.Area self.old self.new }
        ensures device { CalledAs D.Area result pages.old.area pages.new.area }
        ensures log { area_of D.Area self.new.journal.log ≡ area_of D.Area self.old.journal.log }
        ensures known { is_unknown result ≡ false }
        ensures pages { vec_len pages.new.writes ≡ vec_len pages.old.writes }
    {
        match pages.step(page) {
            Ok(PageProgress::Stepped(calls)) => Reply::Stepped(u64::from(calls)),
            Ok(PageProgress::Written(number)) => {
                self.desk.note_written(segment, page, number);
                self.see(segment);
                Reply::Written(number)
            }
            Err(_) => {
                self.journal.give_up();
                Reply::Refused(Refusal::DeviceFault)
            }
        }
    }

    /// Whether the token of a segment, from 1, stands at the node, and this page of it is dirty or a write of it has
    /// begun.
    pub fn is_due(&self, segment: u32, page: u32, begun: bool) -> bool
        requires first { 1 ≤ segment }
        ensures { result ≡ due_in page begun (slice_get self.now.desk.here.slots.items (segment - 1)) }
    {
        match self.desk.here.slots.get(segment as usize - 1) {
            Some(slot) => slot.is_due(page, begun),
            None => false,
        }
    }

    /// Whether the segment's token stands here, and the page was changed under a greater number than the disk has after
    /// that write.
    pub fn is_newer(&self, segment: u32, page: u32, under_way: Option<u64>) -> bool
        requires first { 1 ≤ segment }
        ensures { result ≡ newer_in page under_way (slice_get self.now.desk.here.slots.items (segment - 1)) }
    {
        match self.desk.here.slots.get(segment as usize - 1) {
            Some(slot) => slot.is_newer(page, under_way),
            None => false,
        }
    }
}
