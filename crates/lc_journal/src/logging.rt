//! What a node's log is to take: a record that is reserved, and one that is closed; and what no peer wants any more.
ghost use Rattle.std.specs.Prelude.{◌≡◌, ◌+◌, ◌≤◌, false, length, IfOk, OnErr};
ghost use Rattle.lc_journal.specs.Log.{is_sealed};
ghost use Rattle.lc_journal.specs.Logging.{end_of_records, Forgets, Logs, Shuts, Trims};

use crate::journal::Journal;
use lc_disk::Area;
use std::alloc::AllocError;

impl<D: Area + Drop> Journal<D> {
    /// Where the records end, in words of the present round of the log.
    pub fn end(&self) -> u32
        ensures { result ≡ end_of_records D.Area self.now }
    {
        self.records.span(self.dropped, self.records.count()).len() as u32
    }

    /// Adds a record of these words, which is not closed, and answers its number. Where memory is wanted nothing has
    /// changed. No reset is under way.
    pub fn reserve(&mut self, words: &[u64]) -> Result<u64, AllocError>
        requires room { end_of_records D.Area self.old + length words.now ≤ self.old.group.room }
        requires free { is_sealed D.Area self.old.log ≡ false }
        ensures logs { IfOk result (λ number. Logs D.Area self.old words.now number self.new) }
        ensures end { IfOk result (λ _. end_of_records D.Area self.new
            ≡ end_of_records D.Area self.old + length words.now) }
        ensures log { self.new.log ≡ self.old.log }
        ensures group { self.new.group ≡ self.old.group }
        ensures round { self.new.round ≡ self.old.round }
        ensures err { OnErr result (self.new ≡ self.old) }
    {
        self.records.reserve(words)
    }

    /// Closes the record of this number, where it is kept. It takes no memory.
    pub fn close(&mut self, number: u64)
        ensures shuts { Shuts D.Area self.old number self.new }
        ensures end { end_of_records D.Area self.new ≡ end_of_records D.Area self.old }
        ensures log { self.new.log ≡ self.old.log }
        ensures group { self.new.group ≡ self.old.group }
        ensures round { self.new.round ≡ self.old.round }
    {
        self.records.close(number);
    }

    /// No peer wants so many more of the records. It takes no memory.
    pub fn trim(&mut self, count: u64)
        requires acked { self.old.trimmed + count ≤ self.old.acked }
        ensures trims { Trims D.Area self.old count self.new }
        ensures end { end_of_records D.Area self.new ≡ end_of_records D.Area self.old }
        ensures log { self.new.log ≡ self.old.log }
        ensures group { self.new.group ≡ self.old.group }
        ensures round { self.new.round ≡ self.old.round }
    {
        self.trimmed += count;
        self.forget();
    }

    /// Records that resets have dropped and that no peer wants any more are kept no longer. It takes no memory.
    pub(crate) fn forget(&mut self)
        ensures { Forgets D.Area self.old self.new }
    {
        self.records.forget(self.dropped.min(self.trimmed));
    }
}
