//! Who holds a segment.
ghost use Rattle.std.specs.Prelude.{◌≡◌, ◌↔◌, ◌<◌, IsTrue};

use crate::Readers;
use crate::lock_mode::LockMode;

/// Whose transactions hold a segment: one thread that may write it, or some that read it, side by side. Idea: two-phase
/// locking with shared and exclusive locks (Gray, 1978).
#[derive(Clone, Copy)]
pub enum Holders {
    /// Nobody.
    Free,
    /// This thread, for writing.
    Writer(u16),
    /// These threads, for reading.
    Readers(Readers),
}

impl Holders {
    ghost use Rattle.lc_tx.specs.Holders.{Leaves, is_free, reads, writer_of};
    ghost use Rattle.lc_tx.specs.LockMode.{Allow, Takes};

    /// The thread that holds it for writing.
    pub fn writer(&self) -> Option<u16>
        ensures { result ≡ writer_of self.now }
    {
        match self {
            Holders::Writer(thread) => Some(*thread),
            Holders::Free | Holders::Readers(_) => None,
        }
    }

    /// Whether a thread holds it for reading.
    pub fn reads(&self, thread: u16) -> bool
        ensures { result ≡ reads self.now thread }
    {
        match self {
            Holders::Readers(readers) => readers.contains(thread),
            Holders::Free | Holders::Writer(_) => false,
        }
    }

    /// Whether nobody holds it.
    pub fn is_free(&self) -> bool
        ensures { result ≡ is_free self.now }
    {
        matches!(self, Holders::Free)
    }

    /// Whether they let one more thread lock it in this mode.
    pub(crate) fn allow(&self, mode: LockMode) -> bool
        ensures { IsTrue result ↔ Allow mode self.now }
    {
        match mode {
            LockMode::Exclusive => self.is_free(),
            LockMode::Shared => self.writer().is_none(),
        }
    }

    /// These where a thread locks it in this mode.
    pub(crate) fn with(self, thread: u16, mode: LockMode) -> Holders
        requires { thread < 16 }
        ensures { Takes mode thread self result }
    {
        match (mode, self) {
            (LockMode::Exclusive, _) => Holders::Writer(thread),
            (LockMode::Shared, Holders::Readers(readers)) => Holders::Readers(readers.with(thread)),
            (LockMode::Shared, _) => Holders::Readers(Readers::one(thread)),
        }
    }

    /// These where a thread gives its lock back.
    pub(crate) fn without(self, thread: u16) -> Holders
        ensures { Leaves thread self result }
    {
        let Holders::Readers(readers) = self else {
            return Holders::Free;
        };
        match readers.without(thread) {
            Some(others) => Holders::Readers(others),
            None => Holders::Free,
        }
    }
}
