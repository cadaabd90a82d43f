//! The steps of the nodes that run, and why a step is refused before its row is asked.
ghost use Rattle.std.specs.Prelude.{◌≡◌, ◌≢◌, ◌<◌, ℕ, true, false, None, Some, Err, IfOk, vec_len, slice_get};
ghost use Rattle.std.specs.Prelude.{option_map, slice_index_or};
ghost use Rattle.lc_model.specs.Refusals.{is_known, named};
ghost use Rattle.lc_model.specs.declared.event.Event.{Event};
ghost use Rattle.lc_model.specs.declared.event.Event.TheVariants.{FlushStep, PageStep, ResetStep};
ghost use Rattle.lc_journal.specs.FaultReplies.{is_unknown};
ghost use Rattle.lc_journal.specs.Log.{area_of};
ghost use Rattle.lc_journal.specs.LogWords.{has_failed};
ghost use Rattle.lc_journal.specs.declared.show_fault.ShowFault.TheVariants.{Unknown};
ghost use Rattle.lc_events.specs.CallReplies.{CalledAs};
ghost use Rattle.lc_events.specs.Faults.{SameLogAreas, SameDevices};
ghost use Rattle.lc_events.specs.Layers.{StepsRunning};
ghost use Rattle.lc_events.specs.LogWords.{IsNodeKept, IsNodeRead, log_in};
ghost use Rattle.lc_events.specs.MayReply.{may_reply};
ghost use Rattle.lc_events.specs.Paging.{FollowsPaging};
ghost use Rattle.lc_events.specs.Refuses.{RefusesFirst};
ghost use Rattle.lc_events.specs.declared.node_state.NodeState.{NodeState as TheNode};

use crate::named::{is_node, is_page_of};
use crate::running::Running;
use lc_desk::Pages;
use lc_disk::Area;
use lc_journal::ShowFault;
use lc_model::{Refusal, Reply};
use std::alloc::Global;

impl<D: Area + Drop> Running<D> {
    /// One step of a flush of a node's log. It takes no memory.
    pub fn flush_step(&mut self, node: u16) -> Reply
        ensures { StepsRunning D.Area self.old (FlushStep node) result self.new }
    {
        if let Some(refusal) = self.refusal(node, is_node(&self.geometry, node)) {
            return Reply::Refused(refusal);
        }
        self.nodes[node as usize].flush_step()
    }

    /// One of the four steps that empty a node's log. It takes no memory.
    pub fn reset_step(&mut self, node: u16) -> Reply
        ensures { StepsRunning D.Area self.old (ResetStep node) result self.new }
    {
        if let Some(refusal) = self.refusal(node, is_node(&self.geometry, node)) {
            return Reply::Refused(refusal);
        }
        self.nodes[node as usize].reset_step()
    }

    /// One of the six device calls of a write of a page of a segment, whose area and page writes these are.
    pub fn page_step(&mut self, node: u16, segment: u32, page: u32, pages: &mut Pages<D>) -> Reply
        requires known { is_known self.old.geometry (PageStep node segment page) ≡ true }
        requires page { page < vec_len pages.old.writes }
        ensures follows { FollowsPaging D.Area node segment page self.old pages.old result self.new pages.new }
        ensures names { may_reply (PageStep node segment page) result ≡ true }

        // One call of the segment's device where the reply tells of it, and none of a log's.
        ensures device { CalledAs D.Area result pages.old.area pages.new.area }
        ensures logs { SameLogAreas D.Area self.old self.new }
        ensures known { is_unknown result ≡ false }
        ensures pages { vec_len pages.new.writes ≡ vec_len pages.old.writes }
    {
        self.nodes[node as usize].page_step(segment, page, pages)
    }

    /// Why a step of a page write is refused before its row is asked, if it is. It takes no memory.
    pub fn page_refusal(&self, node: u16, segment: u32, page: u32) -> Option<Refusal>
        ensures { RefusesFirst D.Area self.now (PageStep node segment page) result }
    {
        self.refusal(node, is_page_of(&self.geometry, node, segment, page))
    }

    /// Why an event at this node is refused before its row is asked: something that it names is not known, or the node
    /// is halted.
    pub(crate) fn refusal(&self, node: u16, known: bool) -> Option<Refusal>
        ensures { (event : Event) → known ≡ is_known self.now.geometry event
            → Some node ≡ option_map (λ its. its.node) (named event) → RefusesFirst D.Area self.now event result }
    {
        match self.nodes.get(node as usize) {
            Some(its) if known => its.journal.log.is_failed().then_some(Refusal::Halted),
            _ => Some(Refusal::Unknown),
        }
    }

    /// All bytes of the log of a node.
    pub fn log_bytes(&mut self, alloc: Global, node: u16) -> Result<Vec<u8>, ShowFault>
        ensures outside { slice_get self.old.nodes.items node ≡ None → (result ≡ Err Unknown) × (self.new ≡ self.old) }
        ensures unknown { (its : TheNode D D.Area) → slice_get self.old.nodes.items node ≡ Some its
            → area_of D.Area its.journal.log ≡ None
            → (result ≡ Err Unknown) × (kept : IsNodeKept D.Area node its self.old self.new)
            × (area_of D.Area kept.now.journal.log ≡ None) }
        ensures read { (area : D) (its : TheNode D D.Area) → slice_get self.old.nodes.items node ≡ Some its
            → area_of D.Area its.journal.log ≡ Some area
            → (result ≢ Err Unknown) × IsNodeRead D.Area node its area self.old self.new (has_failed result) }
        ensures devices { SameDevices D.Area self.old self.new }
        ensures bytes { IfOk result (λ bytes. (area : D) → log_in D.Area self.old.nodes.items node ≡ Some area
            → D.honest area ≡ true → (bytes.items ≡ D.now area) × ((k : ℕ) → slice_index_or (D.now area) k 0 < 256)) }
    {
        if node as usize >= self.nodes.len() {
            return Err(ShowFault::Unknown);
        }
        self.nodes[node as usize].journal.log.bytes(alloc)
    }
}
