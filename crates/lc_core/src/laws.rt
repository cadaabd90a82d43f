//! The laws of a store, each the contract of a function with nothing to do.
ghost use Rattle.std.specs.Prelude.{◌≡◌, ◌+◌, ◌++◌, ℕ, List, [], Some, true, slice_get};
ghost use Rattle.std.specs.Prelude.{sum_by};
ghost use Rattle.lc_record.specs.declared.geometry.Geometry.{Geometry as Shape};
ghost use Rattle.lc_record.specs.Transaction.{effects};
ghost use Rattle.lc_model.specs.State.{State, Setting};
ghost use Rattle.lc_model.specs.History.{Cut, kept, value};
ghost use Rattle.lc_model.specs.Merging.{counted_all, put_on};
ghost use Rattle.lc_rest.specs.Found.{Found, machine_setting, machine_state};
ghost use Rattle.lc_rest.specs.Tested.{IsTested};
ghost use Rattle.lc_recover.specs.Reads.{AreHonest, HaveLengths};
ghost use Rattle.lc_core.specs.Adopting.{IsAdoptedUp, numbers_of};
ghost use Rattle.lc_core.specs.Areas.{AreStopped};
ghost use Rattle.lc_core.specs.Headline.{AllMerge, Cuts, Holds, Leaves};
ghost use Rattle.lc_core.specs.HonestAreas.{HonestUp};
ghost use Rattle.lc_core.specs.World.{FitsUp};
ghost use Rattle.lc_core.specs.declared.up.Up.{Up as ItsUp};
ghost use Rattle.lc_core.specs.declared.world.World.{World as Store};
ghost use Rattle.lc_settled.specs.Numbers.{Numbers};
ghost use Rattle.lc_core.specs.Observed.{observed};
ghost use Rattle.std.specs.Prelude.{Bool, Option, false};
ghost use Rattle.lc_disk.specs.declared.choice.Choice.{Choice};
ghost use Rattle.lc_recover.specs.Recovery.{IsMerged, Recovering};
ghost use Rattle.lc_core.specs.Anew.{StartsAnew};
ghost use Rattle.lc_core.specs.Layers.{StepsUp};
ghost use Rattle.lc_core.specs.Stops.{StopsAll};
ghost use Rattle.lc_core.specs.Truncating.{StepsTo};
ghost use Rattle.lc_core.specs.Calls.{CallsArea};
ghost use Rattle.lc_events.specs.Faults.{SameDevices};
ghost use Rattle.lc_core.specs.Lives.{AnswersOne, FitsLife, Life, Told};
ghost use Rattle.lc_core.specs.Recovering.{ComesUp};
ghost use Rattle.lc_events.specs.Stepping.{FollowsStep, TellsWriting, is_plain};
ghost use Rattle.lc_core.specs.World.{BeginsAnew, FitsPhase, FitsWorld, Leads, LeadsTo};
ghost use Rattle.lc_core.specs.declared.world_phase.WorldPhase.{WorldPhase as Standing};
ghost use Rattle.lc_core.specs.declared.world_phase.WorldPhase.TheVariants.{Down as IsDownNow, Up as IsUpNow};

use lc_disk::Area;
use lc_model::{Event, Reply};

/// What a stop leaves of the areas of a store that has come to the end of a run meets what the headline asks of areas
/// again. It does so with the content of what a cut kept that the stop may make, and with the numbers of that. So
/// another run may begin there.
pub fn next_life<D: Area>()
    ensures { (m : Setting) (numbers : ℕ → ℕ) (events : List Event) (replies : List Reply) (failures : ℕ)
        (w : Store D D.Area)
        (g : Shape) (areas news : List D) (h : Holds D.Area m numbers events replies failures (observed D.Area w))
        → (observed D.Area w).gives g areas → AreStopped D.Area areas news
        → (cut : Cut) × Cuts h.after.phase m.geometry h.after cut × HaveLengths D.Area m.geometry news
        × AreHonest D.Area news
        × AllMerge D.Area m.geometry news (effects (h.after.earlier ++ kept h.after.history cut) m.start)
        (counted_all numbers (h.after.earlier ++ kept h.after.history cut)) }
{}

/// A store that fits a state of the machine, up or down, gives areas of its geometry that keep to the model of a disk.
/// Whatever a stop leaves of them merges to the value of a prefix of a serial order of the committed transactions that
/// has every acknowledged one. It says of each step what the headline says of the end of a run.
pub fn fits_leaves<D: Area>()
    ensures some { (m : Setting) (s : State) (x : Numbers) (w : Store D D.Area) → FitsWorld D.Area m w s x →
        (areas : List D) × (observed D.Area w).gives m.geometry areas }
    ensures leaves { (m : Setting) (s : State) (x : Numbers) (w : Store D D.Area) (numbers : ℕ → ℕ) (g : Shape)
        (areas : List D)
        → FitsWorld D.Area m w s x → x.disks.numbers ≡ counted_all numbers s.earlier → (observed D.Area w).gives g areas
        → (g ≡ m.geometry) × Leaves D.Area m s numbers (sum_by D.failures areas) areas }
{}

/// A store that is built of a cluster at rest that passes the tests fits a state of the machine with nothing open,
/// whose value is what all records make of the pages.
pub fn adopted<D: Area>()
    ensures fits { (f : Found) (up : ItsUp D D.Area) → IsTested f → IsAdoptedUp D.Area f up →
        FitsUp D.Area (machine_setting f) up (machine_state f) (numbers_of f) × HonestUp D.Area up }
    ensures value { (f : Found) → value f.base [] (machine_state f).history ≡ put_on f.records f.base }
{}

/// Whatever the areas of a store are: a recovery brings up a store of what was read, and what is up follows the machine
/// of that content. A call leaves areas as honest as they were, and a stop of honest ones is one of the machine's.
pub(crate) fn any_areas<D: Area>()
    ensures begins { (r : Recovering D) (up : ItsUp D D.Area) → ComesUp D.Area r up → BeginsAnew D.Area r.geometry up }
    ensures runs { (m : Setting) (s : State) (x : Numbers) (up later : ItsUp D D.Area) (event : Event) (reply : Reply)
        (writing : Bool)
        → is_plain event ≡ true → later.segments ≡ up.segments → SameDevices D.Area up.running later.running
        → FollowsStep D.Area writing up.running event reply later.running → TellsWriting m x event writing
        → FitsUp D.Area m up s x → LeadsTo m event s x reply (FitsUp D.Area m later) }
    ensures honest { (up new : ItsUp D D.Area) (event : Event) (reply : Reply)
        → CallsArea D.Area (IsUpNow up) event reply (IsUpNow new) → HonestUp D.Area up → HonestUp D.Area new }
    ensures anew { (new : Recovering D) → AreHonest D.Area new.areas → HaveLengths D.Area new.geometry new.areas
        → IsMerged D.Area new
        → ((k : ℕ) (area : D) → slice_get new.areas k ≡ Some area → (at : ℕ) → D.dirty area at ≡ false)
        → StartsAnew D.Area new.geometry new.steps (IsDownNow new) }
    ensures steps { (old new : Store D D.Area) (up later : ItsUp D D.Area) (event : Event) (reply : Reply)
        → old.phase ≡ IsUpNow up
        → new.phase ≡ IsUpNow later → (event ≡ Event.RecoverStep → ⊥) → StepsUp D.Area up event reply later
        → StepsTo D.Area old event reply new }
    ensures stops { (m : Setting) (s : State) (x : Numbers) (choices : List (List Choice)) (old new : Standing D D.Area)
        → StopsAll D.Area old new
        → FitsPhase D.Area m old s x → Leads D.Area m (Event.Stop choices) s x Reply.Down new }
    ensures lives { (g : Shape) (at : Option Life) (old new : Standing D D.Area) (event : Event) (reply : Reply) →
        FitsLife D.Area g at old → Told D.Area old event reply new →
        (after : Option Life) × AnswersOne g at event reply after × FitsLife D.Area g after new }
{}
