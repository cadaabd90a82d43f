//! How often a service does what.
ghost use Rattle.std.specs.Prelude.{◌↔◌, IsTrue};
ghost use Rattle.lc_committer.specs.Round.{IsDue};

use std::time::Duration;

/// When a service flushes and truncates.
#[derive(Clone, Copy, Debug, PartialEq, Eq)]
pub struct Upkeep {
    /// How long the service waits between two rounds, each of which begins with a flush. So a closed record waits so
    /// long at most, and for what the service does meanwhile.
    pub flush_every: Duration,
    /// The log is truncated where its stable records take at least so many percent of its words. Above 100 it never is.
    pub truncate_at: u8,
}

impl Default for Upkeep {
    /// A flush each 10 milliseconds, and a truncation where half of the log is full.
    fn default() -> Upkeep {
        Upkeep {
            flush_every: Duration::from_millis(10),
            truncate_at: 50,
        }
    }
}

impl Upkeep {
    /// Whether a log of so many words is to be truncated, of which so many are taken.
    pub(crate) fn is_due(&self, taken: usize, words: u32) -> bool
        ensures { IsTrue result ↔ IsDue self.now taken words }
    {
        taken > 0
            && (taken as u64).saturating_mul(100) >= u64::from(words) * u64::from(self.truncate_at)
    }
}
