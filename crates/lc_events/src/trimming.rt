//! Published records that no peer wants any more.
ghost use Rattle.std.specs.Prelude.{◌≡◌, ◌+◌, ◌≤◌, true};
ghost use Rattle.lc_model.specs.Machine.{may_trim};
ghost use Rattle.lc_model.specs.Refusals.{is_known};
ghost use Rattle.lc_model.specs.declared.event.Event.TheVariants.{Trim};
ghost use Rattle.lc_events.specs.Faults.{SameLogs};
ghost use Rattle.lc_events.specs.Layers.{StepsRunning};
ghost use Rattle.lc_events.specs.Running.{FollowsRow};
ghost use Rattle.lc_events.specs.Trimming.{Counts, TellsApplied, TellsAppliedAt, TellsLocks};

use crate::named::is_node;
use crate::node_state::NodeState;
use crate::running::Running;
use lc_disk::Area;
use lc_journal::Journal;
use lc_model::Reply;
use lc_record::{Lock, kept_lock, kept_lock_count};

impl<D: Area + Drop> Running<D> {
    /// A node drops of its published records those in front that every node has applied. It takes no memory.
    pub fn trim(&mut self, node: u16) -> Reply
        ensures { StepsRunning D.Area self.old (Trim node) result self.new }
    {
        if let Some(refusal) = self.refusal(node, is_node(&self.geometry, node)) {
            return Reply::Refused(refusal);
        }
        self.drop_applied(node)
    }

    // A node that is known does it.
    fn drop_applied(&mut self, node: u16) -> Reply
        requires known { is_known self.old.geometry (Trim node) ≡ true }
        ensures follows { FollowsRow D.Area self.old (Trim node) result self.new }
        ensures names { may_trim result ≡ true }
        ensures logs { SameLogs D.Area self.old self.new }
    {
        let nodes = self.nodes.as_slice();
        let count = applied_in_front(nodes, &nodes[node as usize].journal);
        self.nodes[node as usize].journal.trim(count);
        Reply::Trimmed(count)
    }
}

// How many of the published records of a journal, from the first, are applied at all of these nodes: at each of them
// every segment that the record has a lock on. It takes no memory.
fn applied_in_front<D: Area + Drop>(nodes: &[NodeState<D>], journal: &Journal<D>) -> u64
    ensures within { journal.now.trimmed + result ≤ journal.now.acked }
    ensures counts { Counts D.Area nodes.now journal.now result }
{
    for number in journal.trimmed..journal.acked {
        if !are_locks_applied(nodes, journal.records.words(number)) {
            return number - journal.trimmed;
        }
    }
    journal.acked - journal.trimmed
}

// Whether all nodes have applied each segment that the record of these words has a lock on, up to the lock's number.
fn are_locks_applied<D: Area + Drop>(nodes: &[NodeState<D>], words: &[u64]) -> bool
    ensures { TellsLocks D.Area nodes.now words.now result }
{
    for index in 0..kept_lock_count(words) {
        let Some(lock) = kept_lock(words, index) else {
            return false;
        };
        if !is_applied(nodes, lock) {
            return false;
        }
    }
    true
}

// Whether all nodes have applied a segment up to a lock's number.
fn is_applied<D: Area + Drop>(nodes: &[NodeState<D>], lock: Lock) -> bool
    ensures { TellsApplied D.Area nodes.now lock result }
{
    for node in nodes {
        if !is_applied_at(node, lock) {
            return false;
        }
    }
    true
}

// Whether one has.
fn is_applied_at<D: Area + Drop>(node: &NodeState<D>, lock: Lock) -> bool
    ensures { TellsAppliedAt D.Area node.now lock result }
{
    if lock.segment == 0 {
        return false;
    }
    match node.desk.here.slots.get(lock.segment as usize - 1) {
        Some(slot) => lock.seq <= slot.parts.applied(),
        None => false,
    }
}
