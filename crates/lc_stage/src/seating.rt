//! The stage at the start, and its seats.
ghost use Rattle.std.specs.Prelude.{◌≡◌, ℕ, ◌<◌, ◌++◌, IfOk, IfSome, IfNone};
ghost use Rattle.lc_stage.specs.Receipts.{IsReceiptOf};
ghost use Rattle.lc_stage.specs.Staging.{flusher, newcomer, joining, latest, learns_durable, with_receipt, Agree};
ghost use Rattle.lc_stage.specs.Staging.{HasReached};
ghost use Rattle.lc_stage.specs.Seats.{commit_view, flush_view, IsSeatOf, IsFlusherOf, IsIdle};

use crate::layout::DURABLE;
use crate::plays::{Agreed, Glue, LearnStored, Meeting, SplitSeat};
use crate::receipt::NONE;
use crate::seats::{CommitSeat, FlushSeat};
use crate::{Receipt, Stage};
use atomic_table::Table;
use std::alloc::{AllocError, Global};

impl Stage {
    /// A stage for a log of so many words, at least one and fewer than 32768, with the seat of its flusher and
    /// that of a committer. It fails only where there is no memory.
    pub fn new(alloc: Global, words: u32) -> Result<(Stage, FlushSeat, CommitSeat), AllocError>
        requires { (0 < words) × (words < 32768) }
        ensures room { IfOk result (λ s. s.0.room ≡ words) }
        ensures seats { IfOk result (λ s. IsFlusherOf s.0 s.1 × IsSeatOf s.0 s.2) }
        ensures views { IfOk result (λ s. (flush_view s.1 ≡ flusher words) × (commit_view s.2 ≡ newcomer words)) }
    {
        let zeros = vec![in alloc; 0; 2 * words as usize + 2]?;
        let (table, mut seat) = Table::of_words(alloc, zeros.as_slice(), &(words as u64))?;
        let other = table.shared.split_seat::<SplitSeat>(&mut seat);
        let stage = Stage { table, room: words };
        Ok((
            stage,
            FlushSeat {
                seat,
                round: 0,
                end: 0,
                cleared: 0,
                ended: 0,
                ended_cleared: 0,
            },
            CommitSeat {
                seat: other,
                round: 0,
                place: 0,
                words: 0,
                last: NONE,
            },
        ))
    }

    /// How many words the log has.
    pub fn words(&self) -> u32
        ensures { result ≡ self.now.room }
    {
        self.room
    }

    /// A further seat, with nothing reserved. The seat that is split has no open reservation.
    pub fn split(&self, seat: &mut CommitSeat) -> CommitSeat
        requires own { IsSeatOf self.now seat.old }
        requires idle { IsIdle (commit_view seat.old) }
        ensures same { IsSeatOf self.now seat.new × (commit_view seat.new ≡ commit_view seat.old) }
        ensures new { IsSeatOf self.now result × (commit_view result ≡ newcomer self.now.room) }
    {
        let other = self.table.shared.split_seat::<SplitSeat>(&mut seat.seat);
        CommitSeat {
            seat: other,
            round: 0,
            place: 0,
            words: 0,
            last: NONE,
        }
    }

    /// The seat takes over the reservations and receipts of another. Neither has an open reservation.
    pub fn join(&self, seat: &mut CommitSeat, other: CommitSeat)
        requires own { IsSeatOf self.now seat.old × IsSeatOf self.now other }
        requires idle { IsIdle (commit_view seat.old) × IsIdle (commit_view other) }
        ensures same { IsSeatOf self.now seat.new }
        ensures both { commit_view seat.new ≡ joining (commit_view seat.old) (commit_view other) }
        ensures idle { IsIdle (commit_view seat.new) }
    {
        let CommitSeat {
            seat: theirs,
            round: _,
            place: _,
            words: _,
            last,
        } = other;
        seat.last = seat.last.or_later(last);
        self.table.shared.join_seat::<Glue>(&mut seat.seat, theirs);
    }

    /// Both views are as before, and agree: what was taken holds the words of the committer's records as it
    /// filled them, and each record of which it has a receipt. The committer has no open reservation.
    pub fn meet(&self, flusher: &mut FlushSeat, other: CommitSeat) -> CommitSeat
        requires own { IsFlusherOf self.now flusher.old × IsSeatOf self.now other }
        requires idle { IsIdle (commit_view other) }
        ensures same { IsFlusherOf self.now flusher.new × IsSeatOf self.now result }
        ensures views { (flush_view flusher.new ≡ flush_view flusher.old) × (commit_view result ≡ commit_view other) }
        ensures agree { Agree (flush_view flusher.new) (commit_view result) }
    {
        let CommitSeat {
            seat: theirs,
            round,
            place,
            words,
            last,
        } = other;
        let shared = &self.table.shared;
        shared.join_seat::<Meeting>(&mut flusher.seat, theirs);
        shared.load::<Agreed>(&mut flusher.seat, 0);
        let seat = shared.split_seat::<Meeting>(&mut flusher.seat);
        CommitSeat {
            seat,
            round,
            place,
            words,
            last,
        }
    }

    /// A receipt of the seat's last closed record, by round and place, exactly where the end that the flusher published
    /// last has reached its end. One load. Who has the flusher's seat so learns whether there is still something to
    /// flush for this committer, which has no open reservation.
    pub fn durable_beside(
        &self,
        flusher: &mut FlushSeat,
        other: CommitSeat,
    ) -> (CommitSeat, Option<Receipt>)
        requires own { IsFlusherOf self.now flusher.old × IsSeatOf self.now other }
        requires idle { IsIdle (commit_view other) }
        ensures same { IsFlusherOf self.now flusher.new × IsSeatOf self.now result.0 }
        ensures flusher { flush_view flusher.new ≡ flush_view flusher.old }
        ensures some { IfSome result.1 (λ receipt. HasReached (flush_view flusher.old).published (commit_view other)
            × IsReceiptOf (latest (commit_view other).mine) receipt
            × (commit_view result.0
            ≡ with_receipt (learns_durable (flush_view flusher.old).published (commit_view other)))) }
        ensures none { IfNone result.1 (¬ HasReached (flush_view flusher.old).published (commit_view other)
            × (commit_view result.0 ≡ learns_durable (flush_view flusher.old).published (commit_view other))) }
    {
        let CommitSeat {
            seat: theirs,
            round,
            place,
            words,
            last,
        } = other;
        let shared = &self.table.shared;
        shared.join_seat::<Meeting>(&mut flusher.seat, theirs);
        let stored = shared.load::<LearnStored>(&mut flusher.seat, DURABLE);
        let seat = CommitSeat {
            seat: shared.split_seat::<Meeting>(&mut flusher.seat),
            round,
            place,
            words,
            last,
        };
        if last.words == 0 || stored < last.end() {
            return (seat, None);
        }
        (seat, Some(last))
    }
}
