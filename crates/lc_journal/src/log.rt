//! A node's log between two steps.
ghost use Rattle.std.specs.Prelude.{◌≡◌, ℕ, true, false, List, length, option_copied};
ghost use Rattle.lc_record.specs.declared.record.Record.{Record};
ghost use Rattle.lc_journal.specs.Log.{Stands, HasReset, StepsTo, ResetsTo, MovesReset, HasRoom, KeepsRoom, MovesOn};
ghost use Rattle.lc_journal.specs.Log.{CallsOnce, Seals, Unseals, area_of, taken_by, is_idle, is_sealed, is_emptied};
ghost use Rattle.lc_journal.specs.Log.{is_failed};

use lc_disk::Area;
use lc_log::{Closing, Failed, Idle, Opened, Synced, Written};
use lc_record::Group;

/// Which call of the device comes next.
#[derive(Drop)]
pub enum Log<D: Area> {
    Idle(Idle<D>),
    Written(Written<D>),
    Synced(Synced<D>),
    Opened(Opened<D>),
    /// A reset is under way: nothing more is reserved.
    Sealed(Idle<D>),
    Closing(Closing<D>),
    /// No record is left in it.
    Emptied(Idle<D>),
    /// Its device failed.
    Failed(Failed<D>),
    /// Its device failed while a reset was under way.
    Torn(Failed<D>),
    /// It is taken out, while a step is made.
    Taken,
}

impl<D: Area> Log<D> {
    /// The next of the four steps of a flush, one call of the device; the first writes the group. A log that failed
    /// stays as it is.
    pub fn flush_step(self, group: &Group) -> Log<D>
        requires room { HasRoom D.Area self (taken_by D.Area self (length group.now.words)) }
        requires free { is_sealed D.Area self ≡ false }
        ensures steps { StepsTo D.Area self group.now.words result }
        ensures room { KeepsRoom D.Area self (length group.now.words) result }
        ensures ends { MovesOn D.Area self (length group.now.words) result }
        ensures device { CallsOnce D.Area self result }
    {
        match self {
            Log::Idle(log) => match log.write_group(group) {
                Ok(log) => Log::Written(log),
                Err(failed) => Log::Failed(failed),
            },
            Log::Written(log) => match log.sync_group() {
                Ok(log) => Log::Synced(log),
                Err(failed) => Log::Failed(failed),
            },
            Log::Synced(log) => match log.open_gate() {
                Ok(log) => Log::Opened(log),
                Err(failed) => Log::Failed(failed),
            },
            Log::Opened(log) => match log.sync_gate() {
                Ok(log) => Log::Idle(log),
                Err(failed) => Log::Failed(failed),
            },
            log => log,
        }
    }

    /// The call that a reset which is under way makes next: it closes the first gate, and then makes that stable.
    pub fn reset_step(self) -> Log<D>
        requires sealed { is_sealed D.Area self ≡ true }
        requires full { is_emptied D.Area self ≡ false }
        ensures steps { ResetsTo D.Area self result }
        ensures ends { MovesReset D.Area self result }
        ensures device { CallsOnce D.Area self result }
    {
        match self {
            Log::Sealed(log) => match log.reset_write() {
                Ok(log) => Log::Closing(log),
                Err(failed) => Log::Torn(failed),
            },
            Log::Closing(log) => match log.reset_sync() {
                Ok(log) => Log::Emptied(log),
                Err(failed) => Log::Torn(failed),
            },
            log => log,
        }
    }

    /// A reset of a log with nothing under way begins. It makes no call.
    pub(crate) fn seal(self) -> Log<D>
        requires idle { is_idle D.Area self ≡ true }
        ensures { Seals D.Area self result }
    {
        match self {
            Log::Idle(log) => Log::Sealed(log),
            log => log,
        }
    }

    /// A log that a reset has emptied is at rest again. It makes no call.
    pub(crate) fn unseal(self) -> Log<D>
        requires emptied { is_emptied D.Area self ≡ true }
        ensures { Unseals D.Area self result }
    {
        match self {
            Log::Emptied(log) => Log::Idle(log),
            log => log,
        }
    }

    /// The log of a node that the fault of another device has halted. It makes no call.
    pub fn give_up(self) -> Log<D>
        ensures stands { (steps : ℕ) (stable group : List Record) → Stands D.Area self steps stable group
            → Stands D.Area result steps stable group }
        ensures reset { (steps : ℕ) → HasReset D.Area self steps → HasReset D.Area result steps }
        ensures area { area_of D.Area result ≡ area_of D.Area self }
        ensures failed { is_failed D.Area result ≡ true }
    {
        match self {
            Log::Idle(log) => Log::Failed(Failed { area: log.area }),
            Log::Written(log) => Log::Failed(Failed { area: log.area }),
            Log::Synced(log) => Log::Failed(Failed { area: log.area }),
            Log::Opened(log) => Log::Failed(Failed { area: log.area }),
            Log::Sealed(log) => Log::Torn(Failed { area: log.area }),
            Log::Closing(log) => Log::Torn(Failed { area: log.area }),
            Log::Emptied(log) => Log::Torn(Failed { area: log.area }),
            log => log,
        }
    }

    /// Its area, where it is not taken out.
    pub fn area(&self) -> Option<&D>
        ensures { option_copied result ≡ area_of D.Area self.now }
    {
        match self {
            Log::Idle(log) => Some(&log.area),
            Log::Written(log) => Some(&log.area),
            Log::Synced(log) => Some(&log.area),
            Log::Opened(log) => Some(&log.area),
            Log::Sealed(log) => Some(&log.area),
            Log::Closing(log) => Some(&log.area),
            Log::Emptied(log) => Some(&log.area),
            Log::Failed(log) => Some(&log.area),
            Log::Torn(log) => Some(&log.area),
            Log::Taken => None,
        }
    }

    /// Whether nothing is under way.
    pub(crate) fn is_idle(&self) -> bool
        ensures { result ≡ is_idle D.Area self.now }
    {
        matches!(self, Log::Idle(_))
    }

    /// Whether a reset is under way.
    pub fn is_sealed(&self) -> bool
        ensures { result ≡ is_sealed D.Area self.now }
    {
        matches!(self, Log::Sealed(_) | Log::Closing(_) | Log::Emptied(_))
    }

    /// Whether a reset has emptied it.
    pub(crate) fn is_emptied(&self) -> bool
        ensures { result ≡ is_emptied D.Area self.now }
    {
        matches!(self, Log::Emptied(_))
    }

    /// Whether its device failed.
    pub fn is_failed(&self) -> bool
        ensures { result ≡ is_failed D.Area self.now }
    {
        matches!(self, Log::Failed(_) | Log::Torn(_) | Log::Taken)
    }
}
