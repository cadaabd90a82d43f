//! The calls of a committer.
ghost use Rattle.std.specs.Prelude.{◌≡◌, ℕ, ◌+◌, ◌<◌, ◌≤◌, ◌↔◌, false, length, slice_set, IfOk, IfErr, IfSome, IfNone};
ghost use Rattle.std.specs.Prelude.{IsTrue, Err};
ghost use Rattle.lc_stage.specs.Staging.{latest, HasReached, learns_durable, with_receipt, saw, reserved, filled};
ghost use Rattle.lc_stage.specs.Staging.{shut_with, newest, offset_of, seal_of, IsOneRecord, Holds, LieBelow};
ghost use Rattle.lc_stage.specs.Closed.{HasClosed};
ghost use Rattle.lc_stage.specs.Receipts.{IsReceiptOf};
ghost use Rattle.lc_stage.specs.Seats.{commit_view, IsSeatOf, IsRefused, IsIdle};
ghost use Rattle.lc_stage.specs.declared.fault.StageFault.TheVariants.{Full, Sealed};

use crate::layout::{DURABLE, OFFSETS, ROUNDS, TAIL};
use crate::plays::{Exchange, FillWord, Learn, LoadTail, Shut};
use crate::seats::CommitSeat;
use crate::{Receipt, Stage, StageFault};

impl CommitSeat {
    /// Whether a record of it is closed. Where none is, there is nothing that `durable` could give a receipt of.
    pub fn has_closed(&self) -> bool
        ensures { IsTrue result ↔ HasClosed (commit_view self.now) }
    {
        self.last.words != 0
    }
}

impl Stage {
    /// The tail, in one load: the place after the last reservation.
    pub fn tail(&self, seat: &mut CommitSeat) -> u64
        requires { IsSeatOf self.now seat.old }
        ensures same { IsSeatOf self.now seat.new }
        ensures seen { commit_view seat.new ≡ saw result (commit_view seat.old) }
        ensures grows { (commit_view seat.old).seen ≤ result }
    {
        self.table.shared.load::<LoadTail>(&mut seat.seat, TAIL)
    }

    /// Reserves n words, at least one, from the tail `at` on, which this seat saw last, and answers their place.
    /// No other reservation has one of these words. Nothing is reserved where they do not fit, or where the
    /// tail is another one by now. One compare-and-exchange.
    pub fn reserve(&self, seat: &mut CommitSeat, at: u64, n: u32) -> Result<u32, StageFault>
        requires own { IsSeatOf self.now seat.old }
        requires last { at ≡ (commit_view seat.old).seen }
        requires idle { IsIdle (commit_view seat.old) }
        requires some { 0 < n }
        ensures same { IsSeatOf self.now seat.new }
        ensures ok { IfOk result (λ place. (place ≡ offset_of at)
            × (commit_view seat.new ≡ reserved at n (commit_view seat.old)) × Holds (commit_view seat.new)) }
        // What the seat reserved before lies in front of it.
        ensures below { IfOk result (λ _. LieBelow at (commit_view seat.old).mine) }
        ensures sealed { (result ≡ Err Sealed) ↔ (seal_of at ≡ 1) }
        ensures full { (result ≡ Err (Full (offset_of at) n)) ↔ (seal_of at ≡ 0) × (self.now.room < offset_of at + n) }
        ensures refused { IfErr result (IsRefused at n (commit_view seat.old) (commit_view seat.new)) }
    {
        if at / OFFSETS % 2 == 1 {
            return Err(StageFault::Sealed);
        }
        let place = (at % OFFSETS) as u32;
        if n > self.room - place {
            return Err(StageFault::Full {
                tail: place,
                need: n,
            });
        }
        let found = self
            .table
            .shared
            .compare_exchange::<Exchange>(&mut seat.seat, TAIL, at, at + n as u64);
        if found != at {
            return Err(StageFault::Moved { seen: found });
        }
        seat.round = at / ROUNDS;
        seat.place = place;
        seat.words = n;
        Ok(place)
    }

    /// Fills the word i of the open reservation, which is after its header. One store.
    pub fn fill(&self, seat: &mut CommitSeat, i: u32, word: u64)
        requires own { IsSeatOf self.now seat.old }
        requires is_open { (newest (commit_view seat.old).mine).closed ≡ false }
        requires behind { (0 < i) × (i < length (newest (commit_view seat.old).mine).words) }
        ensures same { IsSeatOf self.now seat.new }
        ensures filled { commit_view seat.new ≡ filled i word (commit_view seat.old) }
    {
        let at = self.word_of(seat.round, seat.place + i);
        self.table
            .shared
            .store::<FillWord>(&mut seat.seat, at, word);
    }

    /// Stores the header, which closes the open reservation. With this header in front its words are one record. One
    /// store.
    pub fn close(&self, seat: &mut CommitSeat, header: u64)
        requires own { IsSeatOf self.now seat.old }
        requires is_open { (newest (commit_view seat.old).mine).closed ≡ false }
        requires whole { IsOneRecord (slice_set (newest (commit_view seat.old).mine).words 0 header) }
        ensures same { IsSeatOf self.now seat.new }
        ensures closed { (after : ℕ) × (commit_view seat.new ≡ shut_with header after (commit_view seat.old)) }
        ensures idle { IsIdle (commit_view seat.new) }
    {
        let at = self.word_of(seat.round, seat.place);
        self.table.shared.store::<Shut>(&mut seat.seat, at, header);
        let closed = Receipt {
            round: seat.round,
            place: seat.place,
            words: seat.words,
        };
        seat.last = closed.or_later(seat.last);
    }

    /// A receipt of the seat's last closed record, by round and place, exactly where the durable end has reached its
    /// end. One load.
    pub fn durable(&self, seat: &mut CommitSeat) -> Option<Receipt>
        requires { IsSeatOf self.now seat.old }
        ensures same { IsSeatOf self.now seat.new }
        ensures grows { (commit_view seat.old).durable ≤ (commit_view seat.new).durable }
        ensures some { IfSome result (λ receipt. HasReached (commit_view seat.new).durable (commit_view seat.old)
            × IsReceiptOf (latest (commit_view seat.old).mine) receipt
            × (commit_view seat.new
            ≡ with_receipt (learns_durable (commit_view seat.new).durable (commit_view seat.old)))) }
        ensures none { IfNone result (¬ HasReached (commit_view seat.new).durable (commit_view seat.old)
            × (commit_view seat.new ≡ learns_durable (commit_view seat.new).durable (commit_view seat.old))) }
    {
        let stable = self.table.shared.load::<Learn>(&mut seat.seat, DURABLE);
        if seat.last.words == 0 || stable < seat.last.end() {
            return None;
        }
        Some(seat.last)
    }
}
