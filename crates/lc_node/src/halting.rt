//! Whether a call of one of a node's devices has failed.
ghost use Rattle.std.specs.Prelude.{◌≡◌, ◌⊎◌, ◌↔◌, true, Err, IfErr, IfOk, IsTrue};
ghost use Rattle.lc_stage.specs.Seats.{IsFlusherOf, IsSeatOf};
ghost use Rattle.lc_log_side.specs.EndedRoom.{LacksRoom};
ghost use Rattle.lc_log_side.specs.Flushes.{Flushes, IsUnflushed};
ghost use Rattle.lc_log_side.specs.Halting.{HasFaults};
ghost use Rattle.lc_log_side.specs.LogView.{LogView};
ghost use Rattle.lc_log_side.specs.Published.{published, Publishes};
ghost use Rattle.lc_log_side.specs.Resets.{CanReset, Empties, IsUnemptied};
ghost use Rattle.lc_node.specs.Resets.{IsSameInRoom};
ghost use Rattle.lc_segments.specs.declared.node_fault.NodeFault.TheVariants.{DeviceFault, Halted, NoMemory};

use crate::node::Node;
use lc_disk::Area;
use lc_log_side::LogSide;
use lc_segments::NodeFault;
use std::marker::PhantomData;
use std::sync::atomic::Ordering::SeqCst;
use std::sync::atomic::Rule;

/// The rule of a node's word that is 0 until a call of a device fails: any other value tells that one has failed.
pub(crate) struct Halting<D> {
    device: PhantomData<D>,
}

impl<D: Area> Rule for Halting<D> {
    ghost use Rattle.lc_node.specs.Halting.{IsHalting};

    ghost invariant = { IsHalting D.Area };
}

// What the word is where a call has failed.
const FAILED: u64 = 1;

impl<D: Area + Drop> Node<D> {
    /// Whether a call of a device has failed, of the log's or of those of the segments' pages: each commit and each
    /// flush is refused then, as `Halted`, until a recovery. One load.
    pub fn is_halted(&self) -> bool
        ensures { IsTrue result → HasFaults D.Area }
    {
        self.halted.load(SeqCst) != 0
    }

    /// Lets all who commit know where a call of a device has failed.
    pub(crate) fn tell_fault<T>(&self, done: &Result<T, NodeFault>)
        requires { done.now ≡ Err DeviceFault → HasFaults D.Area }
    {
        if let Err(NodeFault::DeviceFault) = done {
            self.halted.store(FAILED, SeqCst);
        }
    }

    /// Makes the closed records stable of a log whose lock the caller has, and answers how many became so: see `flush`.
    /// It takes no memory.
    ///
    /// # Errors
    ///
    /// `Halted` exactly where a device failed before, and nothing has changed; `DeviceFault` where it fails now:
    /// nothing more is stable or published, and the node is halted.
    pub fn flush_log(&self, log: &mut LogSide<D>) -> Result<u64, NodeFault>
        requires own { IsFlusherOf self.now.stage log.old.flusher }
        ensures own { IsFlusherOf self.now.stage log.new.flusher × (log.new.probe ≡ log.old.probe)
            × (log.new.round ≡ log.old.round) × (log.new.known ≡ log.old.known) }
        ensures flushed { IfOk result (λ count. Flushes self.now.stage.room log.old count log.new) }
        ensures published { IfOk result (λ count. Publishes log.old count log.new) }
        ensures halted { (result ≡ Err Halted) ↔ (log.old.is_halted ≡ true) }
        ensures refused { IfErr result (λ fault. IsUnflushed D.Area log.old fault log.new) }
    {
        let flushed = log.flush(&self.stage);
        self.tell_fault(&flushed);
        flushed
    }

    /// Empties a log whose lock the caller has, and begins its next round, where its records are known to be on their
    /// segments' pages. Answers the round that it is in then: where it has no stable record, the present one. Nothing
    /// is flushed, and no page is written: `truncate` does all three.
    ///
    /// # Errors
    ///
    /// In this order: `Halted` where a device failed before. `RoundsSpent` where the log is in its last round.
    /// `Unclean` of the least segment and number of a record that is not known to be on its pages. `NoMemory`, where
    /// there is none for the words of the round, which stay published. `Lost` where something is reserved after the
    /// stable records. The log stands as it was then. `DeviceFault` where the device fails: the node is halted.
    pub fn reset_log(&self, log: &mut LogSide<D>) -> Result<u64, NodeFault>
        requires own { IsFlusherOf self.now.stage log.old.flusher × IsSeatOf self.now.stage log.old.probe }
        ensures own { IsFlusherOf self.now.stage log.new.flusher × IsSeatOf self.now.stage log.new.probe
            × (log.new.known ≡ log.old.known) }
        ensures published { published log.new ≡ published log.old }
        ensures emptied { IfOk result (λ round. (roomy : LogView D) × IsSameInRoom log.old roomy
            × Empties roomy round log.new) }
        ensures refused { IfErr result (λ fault. ((fault ≡ NoMemory) × CanReset log.old × LacksRoom log.old log.new)
            ⊎ ((roomy : LogView D) × IsSameInRoom log.old roomy × IsUnemptied roomy fault log.new)) }
    {
        if !log.is_due()? {
            return Ok(log.round());
        }
        let Ok(()) = log.make_room(&self.stage) else {
            return Err(NodeFault::NoMemory);
        };
        let reset = log.reset(&self.stage);
        self.tell_fault(&reset);
        reset
    }
}
