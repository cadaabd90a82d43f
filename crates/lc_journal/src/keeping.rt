//! Records that are kept from words.
ghost use Rattle.std.specs.Prelude.{◌≡◌, ℕ, List, take, IfOk, OnErr};
ghost use Rattle.lc_record.specs.declared.record.Record.{Record};
ghost use Rattle.lc_log.specs.LogText.{IsLogText};
ghost use Rattle.lc_journal.specs.Kept.{kept_behind};

use crate::records::Records;
use lc_record::View;
use std::alloc::AllocError;

impl Records {
    /// Adds the records that these words begin with, one after another, up to the first place where none begins; all of
    /// them are closed. It takes memory for them. Where memory is wanted, as after the last number, some of the first
    /// have been added.
    pub(crate) fn keep_all(&mut self, words: &[u64]) -> Result<(), AllocError>
        ensures kept { IfOk result (λ _. (records : List Record) → IsLogText words.now records
            → self.new ≡ kept_behind records self.old) }
        ensures err { OnErr result ((records : List Record) → IsLogText words.now records
            → (count : ℕ) × (self.new ≡ kept_behind (take count records) self.old)) }
    {
        let mut place = 0;
        while let Some(record) = View::at(words, place) {
            self.keep(record.words())?;
            place += record.len();
        }
        Ok(())
    }
}
