//! The reset of a log.
ghost use Rattle.std.specs.Prelude.{◌≡◌, ◌↔◌, ℕ, [], false, Err, IfOk, IfErr, MatchBool, OnOk};
ghost use Rattle.lc_model.specs.Merge.{IsLeastPair};
ghost use Rattle.lc_stage.specs.Seats.{IsFlusherOf, IsSeatOf};
ghost use Rattle.lc_token.specs.KnownClean.{known as known_of};
ghost use Rattle.lc_token.specs.Reset.{IsAbove};
ghost use Rattle.lc_log_side.specs.EndedRoom.{HasRoom};
ghost use Rattle.lc_log_side.specs.Halting.{HasFaults};
ghost use Rattle.lc_log_side.specs.Published.{published};
ghost use Rattle.lc_log_side.specs.Resets.{Begins, CanReset, Empties, FailsToBegin, IsReady, IsSealed, IsSpent};
ghost use Rattle.lc_log_side.specs.Resets.{IsUnemptied, IsUnfit, IsUnsealed, Seals};
ghost use Rattle.lc_segments.specs.declared.node_fault.NodeFault.TheVariants.{DeviceFault, RoundsSpent, Unclean};

use crate::log_side::LogSide;
use crate::log_state::LogState;
use lc_disk::Area;
use lc_segments::NodeFault;
use lc_stage::{Stage, StageFault};
use lc_token::may_reset_kept;
use std::mem;

// No round comes after it.
pub(crate) const LAST_ROUND: u64 = (1 << 48) - 1;

impl<D: Area + Drop> LogSide<D> {
    /// Empties the log and begins the next round, and answers which round the log is in then. Where the log has no
    /// stable record nothing is done, and the present round is answered. The stage is sealed while the device is
    /// called, and commits go on in the other row once the next round has begun, before this one's is clear. The
    /// records stay published: their words go after those of the rounds before, where `make_room` has made room for
    /// them. It takes no memory. The stage is that of the log.
    ///
    /// # Errors
    ///
    /// In this order: `Halted` where the device failed before. `RoundsSpent` where the log is in its last round.
    /// `Unclean` of the least segment and number, where a lock of a stable record is above what is known clean. `Lost`
    /// where something is reserved after the stable records. The log stands as it was then. `DeviceFault` where the
    /// device fails: the log is halted, with its stable records and its round, and stays sealed.
    pub fn reset(&mut self, stage: &Stage) -> Result<u64, NodeFault>
        requires own { IsFlusherOf stage.now self.old.flusher × IsSeatOf stage.now self.old.probe }
        requires room { HasRoom self.old }
        ensures own { IsFlusherOf stage.now self.new.flusher × IsSeatOf stage.now self.new.probe
            × (self.new.known ≡ self.old.known) }
        ensures published { published self.new ≡ published self.old }
        ensures emptied { IfOk result (λ round. Empties self.old round self.new) }
        ensures refused { IfErr result (λ fault. IsUnemptied self.old fault self.new) }
        ensures cause { result ≡ Err DeviceFault → HasFaults D.Area }
        ensures spent { (result ≡ Err RoundsSpent) ↔ (IsReady self.old × IsSpent self.old) }
        ensures unclean { (segment seq : ℕ) → (result ≡ Err (Unclean segment seq))
            ↔ (IsReady self.old × ¬ IsSpent self.old
            × IsLeastPair (IsAbove self.old.stable (known_of self.old.known)) segment seq) }
    {
        if !self.is_due()? {
            return Ok(self.round);
        }
        self.seal(stage)?;
        self.begin_round(stage)
    }

    /// Whether the log has a stable record. It is refused where a reset may not take them away.
    pub fn is_due(&self) -> Result<bool, NodeFault>
        ensures due { IfOk result (λ is_due.
            MatchBool is_due (CanReset self.now) ((self.now.is_halted ≡ false) × (self.now.stable ≡ []))) }
        ensures refused { IfErr result (λ fault. IsUnfit self.now fault) }
    {
        let LogState::Idle(_) = &self.log else {
            return Err(NodeFault::Halted);
        };
        if self.stable.is_empty() {
            return Ok(false);
        }
        if self.round == LAST_ROUND {
            return Err(NodeFault::RoundsSpent);
        }
        match may_reset_kept(self.stable.as_slice(), &self.known) {
            Ok(()) => Ok(true),
            Err(unclean) => Err(NodeFault::Unclean {
                segment: unclean.segment,
                seq: unclean.seq,
            }),
        }
    }

    // Seals the stage, where nothing is reserved after the stable records.
    fn seal(&mut self, stage: &Stage) -> Result<(), NodeFault>
        requires own { IsFlusherOf stage.now self.old.flusher × IsSeatOf stage.now self.old.probe }
        requires ready { IsReady self.old }
        ensures own { IsFlusherOf stage.now self.new.flusher × IsSeatOf stage.now self.new.probe }
        ensures published { published self.new ≡ published self.old }
        ensures sealed { OnOk result (Seals self.old self.new) }
        ensures lost { IfErr result (λ fault. IsUnsealed self.old fault self.new) }
    {
        let at = stage.tail(&mut self.probe);
        if at != self.stable_tail() {
            return Err(NodeFault::Lost { seen: at });
        }
        stage.note(&mut self.flusher, &mut self.probe);
        match stage.seal(&mut self.flusher, at) {
            Ok(()) => Ok(()),
            Err(StageFault::Moved { seen }) => Err(NodeFault::Lost { seen }),
            Err(_) => unreachable!(),
        }
    }

    // Closes the sealed log, and begins the next round. What was stable goes after the words of the rounds before.
    fn begin_round(&mut self, stage: &Stage) -> Result<u64, NodeFault>
        requires own { IsFlusherOf stage.now self.old.flusher × IsSeatOf stage.now self.old.probe }
        requires can { CanReset self.old }
        requires sealed { IsSealed self.old }
        requires room { HasRoom self.old }
        ensures own { IsFlusherOf stage.now self.new.flusher × IsSeatOf stage.now self.new.probe
            × (self.new.known ≡ self.old.known) }
        ensures published { published self.new ≡ published self.old }
        ensures begins { IfOk result (λ round. Begins self.old round self.new) }
        ensures fails { IfErr result (λ fault. FailsToBegin self.old fault self.new) }
        ensures cause { IfErr result (λ _. HasFaults D.Area) }
    {
        let LogState::Idle(log) = mem::replace(&mut self.log, LogState::Taken) else {
            unreachable!();
        };
        stage.publish(&mut self.flusher, &log);
        let closing = match log.reset_write() {
            Ok(closing) => closing,
            Err(failed) => {
                self.log = LogState::Halted(failed);
                return Err(NodeFault::DeviceFault);
            }
        };
        match closing.reset_sync() {
            Ok(log) => {
                self.log = LogState::Idle(log);
                match stage.reopen(&mut self.flusher) {
                    Ok(()) => {}
                    Err(_) => unreachable!(),
                }
                stage.clear(&mut self.flusher);
                self.ended.extend(self.stable.as_slice());
                self.stable.clear();
                self.round += 1;
                Ok(self.round)
            }
            Err(failed) => {
                self.log = LogState::Halted(failed);
                Err(NodeFault::DeviceFault)
            }
        }
    }
}
