//! What a running node tells of its store, of its log and of its tokens.
ghost use Rattle.std.specs.Prelude.{◌≡◌, false, ◌<◌, length};
ghost use Rattle.lc_node.specs.Telling.{TakesWords, HasTokenOf};
ghost use Rattle.lc_node.specs.Held.{HasSegment};
ghost use Rattle.lc_node.specs.Forgetting.{HasApplied};

use crate::node::Node;
use lc_disk::Area;
use lc_record::Geometry;
use std::sync::Wait;

impl<D: Area + Drop> Node<D> {
    /// The numbers of its store: of one node where it was opened alone.
    pub fn geometry(&self) -> Geometry
        ensures { result ≡ self.now.geometry }
    {
        self.geometry
    }

    /// How many words of the log its stable records took at one moment. It waits for the lock of the log.
    pub fn stable_words<R: Wait>(&self, rt: &R) -> usize
        ensures { TakesWords self.now result }
    {
        let (log, loan) = self.log.lock(rt);
        let words = log.stable_words();
        self.log.unlock(log, loan);
        words
    }

    /// Whether the token of a segment stood here at one moment, so that a transaction on the segment might begin. False
    /// where the node has no such segment. It waits for the lock of the segment.
    pub fn has_token<R: Wait>(&self, rt: &R, segment: u32) -> bool
        ensures no_segment { (HasSegment self.now segment → ⊥) → result ≡ false }
        ensures here { HasSegment self.now segment → HasTokenOf self.now segment result }
    {
        if !self.has(segment) {
            return false;
        }
        let lock = &self.segments[segment as usize - 1];
        let (side, loan) = lock.lock(rt);
        let has_token = side.inner.has_token();
        lock.unlock(side, loan);
        has_token
    }
}

impl<D: Area + Drop> Node<D> {
    /// Up to which number it has applied the records of the segment at a place.
    pub fn applied<R: Wait>(&self, rt: &R, place: usize) -> u64
        requires { place < length self.now.segments.items }
        ensures { HasApplied self.now place result }
    {
        let lock = &self.segments[place];
        let (side, loan) = lock.lock(rt);
        let applied = side.inner.applied_number();
        lock.unlock(side, loan);
        applied
    }
}
