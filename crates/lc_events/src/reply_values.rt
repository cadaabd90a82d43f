//! What the replies to events are, as values of the calls that have names. An event gets no other reply than those that
//! are told apart here.
ghost use Rattle.std.specs.Prelude.{◌≡◌, ℕ, true, Some};
ghost use Rattle.lc_model.specs.declared.event.Event.TheVariants.{Deliver, FlushStep, PageStep, Reserve, ResetStep};
ghost use Rattle.lc_model.specs.declared.event.Event.TheVariants.{SetRange, Trim};
ghost use Rattle.lc_model.specs.declared.event.Event.{Event as Asked};
ghost use Rattle.lc_events.specs.Answered.{StandsFor, done, emptied, flushed, is_done_or_not, place_taken, range_set};
ghost use Rattle.lc_events.specs.Answered.{received, trimmed, written};

use crate::call_fault::CallFault;
use crate::delivery_outcome::DeliveryOutcome;
use crate::flush_progress::FlushProgress;
use crate::placement::Placement;
use crate::reset_progress::ResetProgress;
use crate::write_progress::WriteProgress;
use lc_model::{Refusal, Reply};

/// Of an event that is done or refused.
pub fn done(reply: &Reply) -> Result<(), Refusal>
    ensures { (event : Asked) → is_done_or_not event ≡ true → StandsFor event (Some (done result)) reply.now }
{
    match reply {
        Reply::Refused(refusal) => Err(*refusal),
        _ => Ok(()),
    }
}

/// Of a range that is to be set.
pub fn range_set(reply: &Reply) -> Result<(), CallFault>
    ensures { (node thread segment offset len : ℕ)
        → StandsFor (SetRange node thread segment offset len) (range_set result) reply.now }
{
    match reply {
        Reply::Refused(refusal) => Err(CallFault::Refused(*refusal)),
        _ => Ok(()),
    }
}

/// Of a place in the log that is asked for.
pub fn placement(reply: &Reply) -> Result<Placement, CallFault>
    ensures { (node thread : ℕ) → StandsFor (Reserve node thread) (place_taken result) reply.now }
{
    match reply {
        Reply::Refused(refusal) => Err(CallFault::Refused(*refusal)),
        Reply::Reserved { place, words } => Ok(Placement::Record {
            place: *place,
            words: *words,
        }),
        _ => Ok(Placement::Empty),
    }
}

/// Of a record that is delivered.
pub fn receipt(reply: &Reply) -> Result<DeliveryOutcome, CallFault>
    ensures { (sender number segment to : ℕ)
        → StandsFor (Deliver sender number segment to) (received result) reply.now }
{
    match reply {
        Reply::Refused(refusal) => Err(CallFault::Refused(*refusal)),
        Reply::Applied(number) => Ok(DeliveryOutcome::Applied(*number)),
        Reply::HeldBack => Ok(DeliveryOutcome::HeldBack),
        _ => Ok(DeliveryOutcome::Ignored),
    }
}

/// Of records that are dropped.
pub fn trimmed(reply: &Reply) -> Result<u64, Refusal>
    ensures { (node : ℕ) → StandsFor (Trim node) (Some (trimmed result)) reply.now }
{
    match reply {
        Reply::Refused(refusal) => Err(*refusal),
        Reply::Trimmed(count) => Ok(*count),
        _ => Ok(0),
    }
}

/// Of a step of a flush.
pub fn flush_progress(reply: &Reply) -> Result<FlushProgress, Refusal>
    ensures { (node : ℕ) → StandsFor (FlushStep node) (Some (flushed result)) reply.now }
{
    match reply {
        Reply::Refused(refusal) => Err(*refusal),
        Reply::Stepped(calls) => Ok(FlushProgress::Stepped(*calls)),
        Reply::Acked(count) => Ok(FlushProgress::Acked(*count)),
        _ => Ok(FlushProgress::Nothing),
    }
}

/// Of a step of a page write.
pub fn write_progress(reply: &Reply) -> Result<WriteProgress, Refusal>
    ensures { (node segment page : ℕ) → StandsFor (PageStep node segment page) (Some (written result)) reply.now }
{
    match reply {
        Reply::Refused(refusal) => Err(*refusal),
        Reply::Stepped(calls) => Ok(WriteProgress::Stepped(*calls)),
        Reply::Written(number) => Ok(WriteProgress::Written(*number)),
        _ => Ok(WriteProgress::Stepped(0)),
    }
}

/// Of a step of a reset.
pub fn reset_progress(reply: &Reply) -> Result<ResetProgress, Refusal>
    ensures { (node : ℕ) → StandsFor (ResetStep node) (Some (emptied result)) reply.now }
{
    match reply {
        Reply::Refused(refusal) => Err(*refusal),
        Reply::Stepped(steps) => Ok(ResetProgress::Stepped(*steps)),
        Reply::Reset => Ok(ResetProgress::Reset),
        _ => Ok(ResetProgress::Nothing),
    }
}
