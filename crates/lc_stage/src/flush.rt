//! The calls of the flusher.
ghost use Rattle.std.specs.Prelude.{◌≡◌, ◌≢◌, List, ℕ, ◌+◌, ◌<◌, ◌≤◌, ◌++◌, length, slice_index, take as list_take};
ghost use Rattle.lc_stage.specs.Staging.{loaded, taking, word_of, IsOneRecord, AreRecords, RaisesDurable};
ghost use Rattle.lc_stage.specs.Publishing.{HoldsTaken};
ghost use Rattle.lc_stage.specs.Seats.{flush_view, IsFlusherOf, OnlyLoads, OnlyTakes, EndsAt, publishing};

use crate::Stage;
use crate::layout::{DURABLE, ROUNDS};
use crate::pending::Pending;
use crate::plays::{Copied, Header, Publish};
use crate::seats::FlushSeat;
use lc_disk::Area;
use lc_log::NodeLog;
use lc_record::{Group, length};

impl Stage {
    /// Empties the group, which has room for all words of the log, and puts into it the closed records after what was
    /// taken, whole and in place order, up to the first that is not closed. Answers their words. One load and one copy
    /// a word.
    pub fn take(&self, flusher: &mut FlushSeat, group: &mut Group) -> u32
        requires own { IsFlusherOf self.now flusher.old }
        requires room { self.now.room ≤ group.old.room }
        ensures same { IsFlusherOf self.now flusher.new × (group.new.room ≡ group.old.room) }
        ensures takes { OnlyTakes (flush_view flusher.old) (flush_view flusher.new) }
        ensures words { (flush_view flusher.new).taken ≡ (flush_view flusher.old).taken ++ group.new.words }
        ensures len { result ≡ length group.new.words }
        ensures records { AreRecords group.new.words }
        ensures ends { EndsAt self.now.room (flush_view flusher.old) (flush_view flusher.new) }
    {
        group.clear();
        let mut pending = Pending::new();
        let first = flusher.end;
        'records: while flusher.end < self.room {
            let start = flusher.end;
            let found = self.header(flusher);
            if found == 0 {
                break;
            }
            pending.push(found, group);
            let end = flusher.end;
            self.copy_range(flusher, start + 1, end, &mut pending, group);
        }
        pending.finish(group);
        flusher.end - first
    }

    /// Stores the end of what was taken in this round as the durable end, which does not fall. All of it is stable in
    /// the log. One store.
    pub fn publish<D: Area>(&self, flusher: &mut FlushSeat, log: &NodeLog<D>)
        requires own { IsFlusherOf self.now flusher.old }
        requires stable { HoldsTaken D.Area log.now.area log.now.end (flush_view flusher.old).taken }
        ensures same { IsFlusherOf self.now flusher.new }
        ensures published { flush_view flusher.new ≡ publishing (flush_view flusher.old) }
        ensures durable { RaisesDurable (flush_view flusher.old) (flush_view flusher.new) }
    {
        let end = flusher.round * ROUNDS + log.end as u64;
        self.table
            .shared
            .store::<Publish>(&mut flusher.seat, DURABLE, end);
    }

    // Loads the place after what was taken. A word there is the header of a closed record, which is taken.
    fn header(&self, flusher: &mut FlushSeat) -> u64
        requires own { IsFlusherOf self.now flusher.old }
        requires room { length (flush_view flusher.old).taken < self.now.room }
        ensures same { IsFlusherOf self.now flusher.new }
        ensures none { result ≡ 0 → flush_view flusher.new
            ≡ loaded (length (flush_view flusher.old).taken) 0 (flush_view flusher.old) }
        ensures record { result ≢ 0 → (ws : List ℕ)
            × (flush_view flusher.new
            ≡ taking ws (loaded (length (flush_view flusher.old).taken) result (flush_view flusher.old)))
            × IsOneRecord ws × (slice_index ws 0 ≡ result) × ((flush_view flusher.old).cleared ≡ 0) }
    {
        let at = self.word_of(flusher.round, flusher.end);
        let found = self.table.shared.load::<Header>(&mut flusher.seat, at);
        if found != 0 {
            flusher.end += length(found);
        }
        found
    }

    // Loads a place that was taken, where the first of its round is this word of the table.
    fn copy(&self, flusher: &mut FlushSeat, first: usize, place: u32) -> u64
        requires own { IsFlusherOf self.now flusher.old }
        requires first { first ≡ word_of self.now.room (length (flush_view flusher.old).past) 0 }
        requires taken { place < length (flush_view flusher.old).taken }
        requires uncleared { (flush_view flusher.old).cleared ≡ 0 }
        ensures same { IsFlusherOf self.now flusher.new }
        ensures load { flush_view flusher.new ≡ loaded place result (flush_view flusher.old) }
        ensures word { result ≡ slice_index (flush_view flusher.old).taken place }
    {
        let at = first + place as usize;
        self.table.shared.load::<Copied>(&mut flusher.seat, at)
    }

    // Adds to the words that wait for the group those of the places from start to end, which were taken.
    fn copy_range(
        &self,
        flusher: &mut FlushSeat,
        start: u32,
        end: u32,
        pending: &mut Pending,
        group: &mut Group,
    )
        requires own { IsFlusherOf self.now flusher.old }
        requires taken { (start ≤ end) × (end ≤ length (flush_view flusher.old).taken) }
        requires uncleared { (flush_view flusher.old).cleared ≡ 0 }
        requires room { length (group.old.words ++ pending.old) + end ≤ group.old.room + start }
        ensures same { IsFlusherOf self.now flusher.new × (group.new.room ≡ group.old.room) }
        ensures loads { OnlyLoads (flush_view flusher.old) (flush_view flusher.new) }
        ensures words { (front : List ℕ)
            → front ++ (group.old.words ++ pending.old) ≡ list_take start (flush_view flusher.old).taken
            → front ++ (group.new.words ++ pending.new) ≡ list_take end (flush_view flusher.old).taken }
    {
        let first = self.word_of(flusher.round, 0);
        for place in start..end {
            let word = self.copy(flusher, first, place);
            pending.push(word, group);
        }
    }
}
