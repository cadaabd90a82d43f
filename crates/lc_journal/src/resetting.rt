//! What the first step of a reset asks of the records, and the calls after it.
ghost use Rattle.std.specs.Prelude.{◌≡◌, ◌⊎◌, ◌++◌, ℕ, List, true, false};
ghost use Rattle.lc_record.specs.Record.{IsRecord};
ghost use Rattle.lc_record.specs.declared.record.Lock.{Lock as Locked};
ghost use Rattle.lc_record.specs.declared.record.Record.{Record as Spelled};
ghost use Rattle.lc_token.specs.KnownClean.{known as known_of};
ghost use Rattle.lc_journal.specs.CallReplies.{tells_but};
ghost use Rattle.lc_journal.specs.FaultReplies.{TellsFault};
ghost use Rattle.lc_journal.specs.MayReply.{or_fault};
ghost use Rattle.lc_model.specs.Machine.{may_reset};
ghost use Rattle.lc_journal.specs.Journal.{reply_of};
ghost use Rattle.lc_journal.specs.Log.{CallsOnce, MovesReset, ResetsTo, area_of, is_emptied, is_failed, is_sealed};
ghost use Rattle.lc_journal.specs.Resets.{FollowsReset, IsLeastUnclean};
ghost use Rattle.lc_settled.specs.Settled.{least_unclean};

use crate::journal::{Journal, reply_of};
use crate::log::Log;
use lc_disk::Area;
use lc_model::{Refusal, Reply};
use lc_record::{kept_lock, kept_lock_count};
use lc_token::{KnownClean, Unclean, above, lesser};
use std::mem;

// The last round of a log.
const LAST_ROUND: u64 = (1 << 48) - 1;

impl<D: Area + Drop> Journal<D> {
    /// The least lock of the stable records of its log that is above what is known clean. It takes no memory.
    pub(crate) fn least_unclean(&self, known: &KnownClean) -> Option<Unclean>
        ensures { IsLeastUnclean D.Area self.now (known_of known.now) result }
    {
        let mut least = None;
        let mut number = self.acked;
        while number > self.dropped {
            number -= 1;
            least = least_with(self.records.words(number), known, least);
        }
        least
    }

    /// One of the four steps of a reset of its log: seals it, closes it, makes that stable, and drops what was stable.
    /// It takes no memory.
    pub fn reset_step(&mut self, known: &KnownClean) -> Reply
        requires up { is_failed D.Area self.old.log ≡ false }
        ensures follows { (node : ℕ) → FollowsReset D.Area node (known_of known.now) self.old result self.new }
        ensures names { or_fault may_reset result ≡ true }
        ensures words { self.new.words ≡ self.old.words }

        // One call of the device; none at the first step and the last.
        ensures device { CallsOnce D.Area self.old.log self.new.log
            ⊎ (area_of D.Area self.new.log ≡ area_of D.Area self.old.log) }
        ensures fault { TellsFault D.Area (tells_but 1 result) result self.old.log self.new.log }
    {
        if self.log.is_emptied() {
            return self.end_reset();
        }
        if self.log.is_sealed() {
            return self.reset_call();
        }
        self.begin_reset(known)
    }

    // The first step, where nothing stands against it.
    fn begin_reset(&mut self, known: &KnownClean) -> Reply
        requires up { is_failed D.Area self.old.log ≡ false }
        requires free { is_sealed D.Area self.old.log ≡ false }
        ensures follows { (node : ℕ) → FollowsReset D.Area node (known_of known.now) self.old result self.new }
        ensures words { self.new.words ≡ self.old.words }
        ensures area { area_of D.Area self.new.log ≡ area_of D.Area self.old.log }
        ensures names { may_reset result ≡ true }
        ensures free { tells_but 1 result ≡ false }
    {
        if self.records.count() > self.acked {
            return Reply::Refused(Refusal::Unflushed);
        }
        if self.dropped == self.acked {
            return Reply::Nothing;
        }
        if let Some(Unclean { segment, seq }) = self.least_unclean(known) {
            return Reply::Refused(Refusal::Unclean { segment, seq });
        }
        if self.round == LAST_ROUND {
            return Reply::Refused(Refusal::RoundsSpent);
        }
        let log = mem::replace(&mut self.log, Log::Taken);
        self.log = log.seal();
        Reply::Stepped(1)
    }

    // The last step.
    fn end_reset(&mut self) -> Reply
        requires emptied { is_emptied D.Area self.old.log ≡ true }
        ensures follows { (node : ℕ) (known : ℕ → ℕ) → FollowsReset D.Area node known self.old result self.new }
        ensures words { self.new.words ≡ self.old.words }
        ensures area { area_of D.Area self.new.log ≡ area_of D.Area self.old.log }
        ensures names { may_reset result ≡ true }
        ensures free { tells_but 1 result ≡ false }
    {
        let log = mem::replace(&mut self.log, Log::Taken);
        self.log = log.unseal();
        self.dropped = self.acked;
        self.round += 1;
        self.forget();
        Reply::Reset
    }

    /// The call that a reset which is under way makes next.
    pub(crate) fn reset_call(&mut self) -> Reply
        requires sealed { is_sealed D.Area self.old.log ≡ true }
        requires full { is_emptied D.Area self.old.log ≡ false }
        ensures steps { ResetsTo D.Area self.old.log self.new.log }
        ensures ends { MovesReset D.Area self.old.log self.new.log }
        ensures device { CallsOnce D.Area self.old.log self.new.log }
        ensures reply { result ≡ reply_of D.Area self.new.log self.old.taken }
        ensures words { self.new.words ≡ self.old.words }
        ensures group { self.new.group ≡ self.old.group }
        ensures records { self.new.records ≡ self.old.records }
        ensures dropped { self.new.dropped ≡ self.old.dropped }
        ensures trimmed { self.new.trimmed ≡ self.old.trimmed }
        ensures taken { self.new.taken ≡ self.old.taken }
        ensures acked { self.new.acked ≡ self.old.acked }
        ensures round { self.new.round ≡ self.old.round }
    {
        let log = mem::replace(&mut self.log, Log::Taken);
        self.log = log.reset_step();
        reply_of(&self.log, self.taken)
    }
}

// The least of the locks of the record of these words, and of those that were looked at.
fn least_with(words: &[u64], known: &KnownClean, rest: Option<Unclean>) -> Option<Unclean>
    ensures { (r : Spelled) (locks : List Locked) → IsRecord r words.now
        → rest ≡ least_unclean (known_of known.now) locks
        → result ≡ least_unclean (known_of known.now) (r.locks ++ locks) }
{
    let mut least = rest;
    for index in (0..kept_lock_count(words)).rev() {
        if let Some(lock) = kept_lock(words, index) {
            least = lesser(above(lock, known), least);
        }
    }
    least
}
