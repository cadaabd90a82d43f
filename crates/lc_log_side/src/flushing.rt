//! The flush of what is staged.
ghost use Rattle.std.specs.Prelude.{◌≡◌, ◌↔◌, ◌+◌, ◌≤◌, ◌++◌, true, length, vec_len, vec_capacity, IfOk, IfErr, Err};
ghost use Rattle.lc_stage.specs.Seats.{IsFlusherOf};
ghost use Rattle.lc_log_side.specs.Flushes.{Flushes, IsUnflushed};
ghost use Rattle.lc_log_side.specs.Halting.{HasFaults};
ghost use Rattle.lc_log_side.specs.Published.{Publishes};
ghost use Rattle.lc_segments.specs.declared.node_fault.NodeFault.TheVariants.{DeviceFault, Halted};

use crate::log_side::LogSide;
use crate::log_state::LogState;
use crate::places::count_in_front;
use lc_disk::Area;
use lc_record::Group;
use lc_segments::NodeFault;
use lc_stage::Stage;
use std::mem;

// Adds the words of the group, for which there is room.
pub(crate) fn keep(stable: &mut Vec<u64>, group: &Group)
    requires { vec_len stable.old + length group.now.words ≤ vec_capacity stable.old }
    ensures words { stable.new.items ≡ stable.old.items ++ group.now.words }
    ensures room { vec_capacity stable.old ≤ vec_capacity stable.new }
{
    for index in 0..group.len() {
        stable.push_reserved(group.word(index));
    }
}

impl<D: Area + Drop> LogSide<D> {
    /// Takes the closed records, makes them stable in the log and publishes their end; answers how many they are. Where
    /// there is none it calls no device. It takes no memory. The stage is that of the log.
    ///
    /// # Errors
    ///
    /// `Halted` exactly where the device failed before, and nothing has changed; `DeviceFault` where it fails now:
    /// nothing more is stable or published, and the log is halted.
    pub fn flush(&mut self, stage: &Stage) -> Result<u64, NodeFault>
        requires own { IsFlusherOf stage.now self.old.flusher }
        ensures own { IsFlusherOf stage.now self.new.flusher × (self.new.probe ≡ self.old.probe)
            × (self.new.round ≡ self.old.round) × (self.new.known ≡ self.old.known) }
        ensures flushed { IfOk result (λ count. Flushes stage.now.room self.old count self.new) }
        ensures published { IfOk result (λ count. Publishes self.old count self.new) }
        ensures halted { (result ≡ Err Halted) ↔ (self.old.is_halted ≡ true) }
        ensures refused { IfErr result (λ fault. IsUnflushed D.Area self.old fault self.new) }
        ensures cause { result ≡ Err DeviceFault → HasFaults D.Area }
    {
        let log = match mem::replace(&mut self.log, LogState::Taken) {
            LogState::Idle(log) => log,
            state => {
                self.log = state;
                return Err(NodeFault::Halted);
            }
        };
        let words = stage.take(&mut self.flusher, &mut self.group);
        if words == 0 {
            stage.publish(&mut self.flusher, &log);
            self.log = LogState::Idle(log);
            return Ok(0);
        }
        match log.flush(&self.group) {
            Ok(log) => {
                stage.publish(&mut self.flusher, &log);
                self.log = LogState::Idle(log);
                let start = self.stable.len();
                keep(&mut self.stable, &self.group);
                let count = count_in_front(&self.stable[start..], words as usize) as u64;
                self.count += count;
                Ok(count)
            }
            Err(failed) => {
                self.log = LogState::Halted(failed);
                Err(NodeFault::DeviceFault)
            }
        }
    }
}
