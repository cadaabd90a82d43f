//! A cluster forgets the records that none of its nodes wants any more.
ghost use Rattle.std.specs.Prelude.{◌<◌, length};
ghost use Rattle.lc_cluster.specs.Cluster.{HasNode};
ghost use Rattle.lc_cluster.specs.Forgetting.{IsLeastApplied, TrimsAt};

use crate::cluster::Cluster;
use lc_disk::Area;
use lc_record::MAX_SEGMENT;
use std::sync::Wait;

impl<D: Area + Drop> Cluster<D> {
    /// Drops the words of records that none of the nodes wants any more, from the front of what the log of a node keeps
    /// of the rounds that have ended. It goes on as long as the next record is due: all nodes have applied each of its
    /// locks, and on each of its segments it has the number after those that were dropped, of whatever node. Answers
    /// how many records went. What is dropped is the front of the order in which the records of all nodes merge: call
    /// it of each node in turn after a truncation, until none answers more than 0. The records stay published, and
    /// their numbers are counted on; a cluster that has come to rest begins with the first that is left. It waits for
    /// the locks of the segments of all nodes, one at a time, and then for those of the log and of the numbers of what
    /// was dropped. It takes no memory. This project's own.
    pub fn trim<R: Wait>(&self, rt: &R, node: u16) -> u64
        requires { HasNode self.now node }
        ensures { TrimsAt self.now node result }
    {
        let mut applied = [0; MAX_SEGMENT as usize];
        for place in 0..self.geometry.segments as usize {
            applied[place] = self.least_applied(rt, place);
        }
        let peer = &self.member(node).node;
        let log_lock = peer.node().log_lock();
        let (mut log, log_loan) = log_lock.lock(rt);
        let (mut dropped, loan) = self.dropped.lock(rt);
        let count = peer.trim(&mut log, &applied, &mut dropped.numbers);
        self.dropped.unlock(dropped, loan);
        log_lock.unlock(log, log_loan);
        count
    }

    // Up to which number all nodes have applied the records of the segment at a place.
    fn least_applied<R: Wait>(&self, rt: &R, place: usize) -> u64
        requires some { 0 < length self.now.members.items }
        requires within { place < self.now.geometry.segments }
        ensures { IsLeastApplied self.now place result }
    {
        let mut least = u64::MAX;
        for member in self.members.as_slice() {
            let applied = member.node.node().applied(rt, place);
            least = least.min(applied);
        }
        least
    }
}
