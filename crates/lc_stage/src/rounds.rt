//! The calls that end a round and begin the next.
ghost use Rattle.std.specs.Prelude.{◌≡◌, ◌⊎◌, ℕ, ◌+◌, ◌<◌, ◌≤◌, ◌^◌, ◌↔◌, max, true, length, IfOk, IfErr, Err};
ghost use Rattle.lc_stage.specs.Staging.{sealing, clearing, clearing_ended, reopening, hears, seal_of, offset_of};
ghost use Rattle.lc_stage.specs.Staging.{round_of};
ghost use Rattle.lc_stage.specs.Seats.{commit_view, flush_view, IsSeatOf, IsFlusherOf, IsUnsealed, IsSettled};
ghost use Rattle.lc_stage.specs.declared.fault.StageFault.TheVariants.{Sealed, RoundsSpent};

use crate::layout::{LAST_ROUND, OFFSETS, ROUNDS, TAIL};
use crate::plays::{Clear, ClearEnded, Note, Reopen, Seal};
use crate::seats::{CommitSeat, FlushSeat};
use crate::{Stage, StageFault};

impl Stage {
    /// Tells the flusher which tail a committer saw last.
    pub fn note(&self, flusher: &mut FlushSeat, seat: &mut CommitSeat)
        requires { IsFlusherOf self.now flusher.old × IsSeatOf self.now seat.old }
        ensures same { IsFlusherOf self.now flusher.new × IsSeatOf self.now seat.new }
        ensures seat { commit_view seat.new ≡ commit_view seat.old }
        ensures heard { flush_view flusher.new
            ≡ hears (max (flush_view flusher.old).heard (commit_view seat.old).seen) (flush_view flusher.old) }
    {
        let shared = &self.table.shared;
        let carrier = shared.split_seat::<Note>(&mut seat.seat);
        shared.join_seat::<Note>(&mut flusher.seat, carrier);
    }

    /// Seals the tail `at`, which a committer saw and the flusher was told of: then nothing more is reserved in this
    /// round. It is not sealed where it is by now, or where the tail is another one. One compare-and-exchange.
    pub fn seal(&self, flusher: &mut FlushSeat, at: u64) -> Result<(), StageFault>
        requires own { IsFlusherOf self.now flusher.old }
        requires heard { at ≤ (flush_view flusher.old).heard }
        ensures same { IsFlusherOf self.now flusher.new }
        ensures ok { IfOk result (λ _. (flush_view flusher.new ≡ sealing (offset_of at) (flush_view flusher.old))
            × (round_of at ≡ length (flush_view flusher.old).past)
            × (length (flush_view flusher.old).taken ≤ offset_of at)) }
        ensures sealed { (result ≡ Err Sealed) ↔ (seal_of at ≡ 1) }
        ensures refused { IfErr result (IsUnsealed at (flush_view flusher.old) (flush_view flusher.new)) }
    {
        if at / OFFSETS % 2 == 1 {
            return Err(StageFault::Sealed);
        }
        let found = self
            .table
            .shared
            .compare_exchange::<Seal>(&mut flusher.seat, TAIL, at, at + OFFSETS);
        if found != at {
            return Err(StageFault::Moved { seen: found });
        }
        Ok(())
    }

    /// Clears the row of the earliest round that is not clear: that of the round before, or else that of this round,
    /// which is sealed, with all its records taken and durable. One store a place.
    pub fn clear(&self, flusher: &mut FlushSeat)
        requires own { IsFlusherOf self.now flusher.old }
        requires settled { ((flush_view flusher.old).ended_cleared < (flush_view flusher.old).ended)
            ⊎ IsSettled (flush_view flusher.old) }
        ensures same { IsFlusherOf self.now flusher.new }
        ensures before { (flush_view flusher.old).ended_cleared < (flush_view flusher.old).ended
            → flush_view flusher.new
            ≡ record (flush_view flusher.old) { ended_cleared = (flush_view flusher.old).ended } }
        ensures present { (flush_view flusher.old).ended_cleared ≡ (flush_view flusher.old).ended
            → flush_view flusher.new
            ≡ record (flush_view flusher.old) { cleared = (flush_view flusher.old).sealed_at } }
    {
        if flusher.ended_cleared < flusher.ended {
            'earlier: while flusher.ended_cleared < flusher.ended {
                self.clear_ended(flusher);
            }
        } else {
            'this: while flusher.cleared < flusher.end {
                self.clear_present(flusher);
            }
        }
    }

    /// Opens the next round, where the sealed one is taken and durable and the other row is clear. It does not after
    /// the last round. One store.
    pub fn reopen(&self, flusher: &mut FlushSeat) -> Result<(), StageFault>
        requires own { IsFlusherOf self.now flusher.old }
        requires settled { IsSettled (flush_view flusher.old) }
        requires clear { (flush_view flusher.old).ended_cleared ≡ (flush_view flusher.old).ended }
        ensures same { IsFlusherOf self.now flusher.new }
        ensures ok { IfOk result (λ _. flush_view flusher.new ≡ reopening (flush_view flusher.old)) }
        ensures spent { (result ≡ Err RoundsSpent) ↔ (1 + length (flush_view flusher.old).past ≡ 2 ^ 48) }
        ensures refused { IfErr result (λ fault. (fault ≡ RoundsSpent)
            × (flush_view flusher.new ≡ flush_view flusher.old)) }
    {
        if flusher.round == LAST_ROUND {
            return Err(StageFault::RoundsSpent);
        }
        let next = flusher.round + 1;
        self.table
            .shared
            .store::<Reopen>(&mut flusher.seat, TAIL, next * ROUNDS);
        flusher.round = next;
        flusher.ended = flusher.end;
        flusher.ended_cleared = flusher.cleared;
        flusher.end = 0;
        flusher.cleared = 0;
        Ok(())
    }

    // Clears one place more of this round.
    fn clear_present(&self, flusher: &mut FlushSeat)
        requires own { IsFlusherOf self.now flusher.old }
        requires settled { IsSettled (flush_view flusher.old) }
        requires more { (flush_view flusher.old).cleared < (flush_view flusher.old).sealed_at }
        ensures same { IsFlusherOf self.now flusher.new }
        ensures cleared { flush_view flusher.new ≡ clearing (flush_view flusher.old) }
    {
        let at = self.word_of(flusher.round, flusher.cleared);
        self.table.shared.store::<Clear>(&mut flusher.seat, at, 0);
        flusher.cleared += 1;
    }

    // Clears one place more of the round before, whose row is that of the next.
    fn clear_ended(&self, flusher: &mut FlushSeat)
        requires own { IsFlusherOf self.now flusher.old }
        requires more { (flush_view flusher.old).ended_cleared < (flush_view flusher.old).ended }
        ensures same { IsFlusherOf self.now flusher.new }
        ensures cleared { flush_view flusher.new ≡ clearing_ended (flush_view flusher.old) }
    {
        let at = self.word_of(flusher.round + 1, flusher.ended_cleared);
        self.table
            .shared
            .store::<ClearEnded>(&mut flusher.seat, at, 0);
        flusher.ended_cleared += 1;
    }
}
