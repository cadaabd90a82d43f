//! A node's log, and the records that wait for it.
ghost use Rattle.std.specs.Prelude.{◌≡◌, ◌+◌, ◌*◌, ◌<◌, ◌≤◌, ◌^◌, true, false, ℕ, length};
ghost use Rattle.lc_model.specs.declared.event.Event.TheVariants.{FlushStep};
ghost use Rattle.lc_model.specs.declared.reply.Reply.TheVariants.{Nothing};
ghost use Rattle.lc_journal.specs.Log.{StepsTo, CallsOnce, end_of, under_way, size, is_idle, is_sealed, is_failed};
ghost use Rattle.lc_journal.specs.Records.{count_of, front_of, span_of};
ghost use Rattle.lc_journal.specs.Journal.{reply_of, acked_after};
ghost use Rattle.lc_journal.specs.CallReplies.{tells_call};
ghost use Rattle.lc_journal.specs.FaultReplies.{TellsFault};
ghost use Rattle.lc_journal.specs.MayReply.{may_flush, or_fault};

use crate::log::Log;
use crate::records::Records;
use lc_disk::Area;
use lc_model::{Refusal, Reply};
use lc_record::Group;
use std::mem;

/// The log of a node, its records, and how many of these its resets have dropped, no peer wants any more, a flush has
/// taken, and are acknowledged; and in which round the log is. The log and the group have room for `words` words.
#[derive(Drop)]
pub struct Journal<D: Area> {
    pub log: Log<D>,
    pub group: Group,
    pub words: u32,
    pub records: Records,
    pub dropped: u64,
    pub trimmed: u64,
    pub taken: u64,
    pub acked: u64,
    pub round: u64,
    ghost kept: { records.before ≤ dropped },
    ghost kept_for_peers: { records.before ≤ trimmed },
    ghost dropped_acked: { dropped ≤ acked },
    ghost trimmed_acked: { trimmed ≤ acked },
    ghost acked_taken: { acked ≤ taken },
    ghost taken_closed: { taken ≤ front_of records },
    ghost group_room: { group.room ≡ words },
    ghost short: { group.room < 2 ^ 32 },
    ghost log_room: { is_failed D.Area log ≡ false → 8 * group.room + 8 ≤ size D.Area log },
    ghost room: { length (span_of records dropped (count_of records)) ≤ group.room },
    ghost end: { is_failed D.Area log ≡ false → is_sealed D.Area log ≡ false
        → end_of D.Area log ≡ length (span_of records dropped acked) },
    ghost under_way: { is_failed D.Area log ≡ false → is_idle D.Area log ≡ false → is_sealed D.Area log ≡ false
        → under_way D.Area log ≡ length (span_of records acked taken) },
    ghost busy: { is_failed D.Area log ≡ false → is_idle D.Area log ≡ false → is_sealed D.Area log ≡ false
        → acked < taken },
    ghost sealed: { is_sealed D.Area log ≡ true → count_of records ≤ acked },
    ghost emptied: { is_sealed D.Area log ≡ true → end_of D.Area log ≡ 0 },
    ghost rounds: { round < 2 ^ 48 },
    ghost one_more: { is_sealed D.Area log ≡ true → round + 1 < 2 ^ 48 },
}

impl<D: Area + Drop> Journal<D> {
    ghost use Rattle.lc_journal.specs.Follows.{FollowsLog};

    /// One of the four device calls of a flush. The first takes all records in front of the first that is not closed.
    /// While a reset is under way nothing waits.
    pub fn flush_step(&mut self) -> Reply
        requires up { is_failed D.Area self.old.log ≡ false }
        ensures follows { (node : ℕ) → FollowsLog D.Area node self.old (FlushStep node) result self.new }
        ensures names { or_fault may_flush result ≡ true }
        ensures nothing { result ≡ Nothing → self.new ≡ self.old }
        ensures words { self.new.words ≡ self.old.words }
        ensures round { self.new.round ≡ self.old.round }

        // One call of the device, unless nothing waits.
        ensures device { (result ≡ Nothing → ⊥) → CallsOnce D.Area self.old.log self.new.log }
        ensures fault { TellsFault D.Area (tells_call result) result self.old.log self.new.log }
    {
        if self.log.is_sealed() {
            return Reply::Nothing;
        }
        if self.log.is_idle() {
            if self.records.front() == self.acked {
                return Reply::Nothing;
            }
            self.take_closed();
        }
        self.advance()
    }

    // The group is what is closed and not acknowledged.
    fn take_closed(&mut self)
        requires idle { is_idle D.Area self.old.log ≡ true }
        ensures words { self.new.group.words ≡ span_of self.old.records self.old.acked self.new.taken }
        ensures taken { self.new.taken ≡ front_of self.old.records }
        ensures room { self.new.words ≡ self.old.words }
        ensures log { self.new.log ≡ self.old.log }
        ensures records { self.new.records ≡ self.old.records }
        ensures dropped { self.new.dropped ≡ self.old.dropped }
        ensures trimmed { self.new.trimmed ≡ self.old.trimmed }
        ensures acked { self.new.acked ≡ self.old.acked }
        ensures round { self.new.round ≡ self.old.round }
    {
        let front = self.records.front();
        fill(&mut self.group, self.records.span(self.acked, front));
        self.taken = front;
    }

    // Takes the log out, makes the call, and puts it back.
    fn advance(&mut self) -> Reply
        requires words { is_idle D.Area self.old.log ≡ true
            → self.old.group.words ≡ span_of self.old.records self.old.acked self.old.taken }
        requires some { is_idle D.Area self.old.log ≡ true → self.old.acked < self.old.taken }
        requires free { is_sealed D.Area self.old.log ≡ false }
        ensures steps { StepsTo D.Area self.old.log self.old.group.words self.new.log }
        ensures device { CallsOnce D.Area self.old.log self.new.log }
        ensures reply { result ≡ reply_of D.Area self.new.log self.old.taken }
        ensures room { self.new.words ≡ self.old.words }
        ensures acked { self.new.acked ≡ acked_after D.Area self.new.log self.old.taken self.old.acked }
        ensures records { self.new.records ≡ self.old.records }
        ensures dropped { self.new.dropped ≡ self.old.dropped }
        ensures trimmed { self.new.trimmed ≡ self.old.trimmed }
        ensures taken { self.new.taken ≡ self.old.taken }
        ensures round { self.new.round ≡ self.old.round }
    {
        let log = mem::replace(&mut self.log, Log::Taken);
        self.log = log.flush_step(&self.group);
        self.acked = acked_after(&self.log, self.taken, self.acked);
        reply_of(&self.log, self.taken)
    }
}

// How many are acknowledged where the log has come here.
fn acked_after<D: Area>(log: &Log<D>, taken: u64, acked: u64) -> u64
    ensures { result ≡ acked_after D.Area log.now taken acked }
{
    if log.is_idle() { taken } else { acked }
}

// What is answered where the log has come here.
pub(crate) fn reply_of<D: Area>(log: &Log<D>, taken: u64) -> Reply
    ensures { result ≡ reply_of D.Area log.now taken }
{
    match log {
        Log::Idle(_) => Reply::Acked(taken),
        Log::Written(_) => Reply::Stepped(1),
        Log::Synced(_) => Reply::Stepped(2),
        Log::Opened(_) => Reply::Stepped(3),
        Log::Sealed(_) => Reply::Stepped(1),
        Log::Closing(_) => Reply::Stepped(2),
        Log::Emptied(_) => Reply::Stepped(3),
        Log::Failed(_) | Log::Torn(_) | Log::Taken => Reply::Refused(Refusal::DeviceFault),
    }
}

// The group has these words, and no others.
fn fill(group: &mut Group, words: &[u64])
    requires { length words.now ≤ group.old.room }
    ensures { group.new ≡ record group.old { words = words.now } }
{
    group.clear();
    group.extend(words);
}
