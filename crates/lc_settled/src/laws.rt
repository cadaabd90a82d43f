//! The laws of the answers that the machine leaves open, each the contract of a function with nothing to do.
ghost use Rattle.std.specs.Prelude.{◌≡◌, ◌≢◌, List};
ghost use Rattle.lc_model.specs.Choices.{AtLeastOne};
ghost use Rattle.lc_model.specs.Machine.{Step, Run};
ghost use Rattle.lc_model.specs.Sound.{Sound};
ghost use Rattle.lc_model.specs.State.{State, Setting};
ghost use Rattle.lc_settled.specs.Numbers.{Numbers};
ghost use Rattle.lc_settled.specs.Runs.{RunsOn};
ghost use Rattle.lc_settled.specs.Settled.{Settled};
ghost use Rattle.lc_settled.specs.Turns.{Turns};

use lc_model::{Event, Refusal, Reply};

/// In every sound state, with any numbers, each event has an answer that is settled and that the machine allows: and,
/// but for faults of devices and for the step at which a recovery ends, one such reply. But for that step the reply
/// determines the next numbers.
pub fn settled_answers()
    ensures some { (m : Setting) (s : State) (x : Numbers) (event : Event) → Sound m.geometry s →
        AtLeastOne (λ reply new. Step m s event reply new × Settled m s x event reply) }
    ensures one { (m : Setting) (s new next : State) (x : Numbers) (event : Event) (reply other : Reply) →
        Step m s event reply new → Settled m s x event reply → Step m s event other next → Settled m s x event other →
        reply ≢ Reply.Refused Refusal.DeviceFault → other ≢ Reply.Refused Refusal.DeviceFault →
        event ≢ Event.RecoverStep → reply ≡ other }
    ensures some_numbers { (m : Setting) (s : State) (x : Numbers) (event : Event) (reply : Reply) →
        (next : Numbers) × Turns m s x event reply next }
    ensures one_numbers { (m : Setting) (s : State) (x next others : Numbers) (event : Event) (reply : Reply) →
        Turns m s x event reply next → Turns m s x event reply others → reply ≢ Reply.Recovered → next ≡ others }
{}

/// A run whose replies are all settled is a run of the plain machine.
pub fn settled_runs()
    ensures { (m : Setting) (s : State) (x : Numbers) (events : List Event) (replies : List Reply) (after : State)
        (next : Numbers) → RunsOn m s x events replies after next → Run m s events replies after }
{}
