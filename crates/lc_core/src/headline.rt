//! What a store promises of a whole run.
ghost use Rattle.std.specs.Prelude.{◌≡◌, ◌≢◌, ◌⊎◌, ◌<◌, ℕ, List, [], IfErr, IfOk, None, Option, length, map, slice_get};
ghost use Rattle.std.specs.Prelude.{take, true, false};
ghost use Rattle.lc_model.specs.Merge.{IsLeast};
ghost use Rattle.lc_record.specs.declared.geometry.Geometry.{Geometry as TheGeometry};
ghost use Rattle.lc_recover.specs.Reads.{area_len};
ghost use Rattle.lc_recover.specs.declared.fault.RecoverFault.TheVariants.{BadGeometry};
ghost use Rattle.lc_model.specs.State.{first_state};
ghost use Rattle.lc_core.specs.Calls.{CallsEach};
ghost use Rattle.lc_core.specs.Headline.{Headline};
ghost use Rattle.lc_core.specs.Lives.{FitsLife, Life, Lives};
ghost use Rattle.lc_core.specs.Observed.{observed};
ghost use Rattle.lc_core.specs.Runs.{AreSettled, AsksNext, GrowsNext, OnAreas, Settles};

use crate::run_result::RunResult;
use crate::world::World;
use lc_disk::Stoppable;
use lc_model::Event;
use lc_record::Geometry;
use lc_recover::RecoverFault;
use std::alloc::Global;

/// A store of these areas, which begins down, and what it does with these events, one after another, as far as there is
/// memory.
///
/// All that follows holds where the areas keep to the model of a disk, and whatever a stop may have left of them merges
/// to one result. The answers are a run of the machine of plain transactions. Whatever a stop leaves of the areas now
/// merges to the value of a prefix of a serial order of the committed transactions that has every acknowledged commit.
/// Each reply is the settled one, and the store fits where the run has come to. Each event calls an area just where its
/// reply tells of it, and a stop stops each.
///
/// # Errors
///
/// `BadGeometry` with the least index of an area that has not the length of the geometry, is missing, or is too many.
/// The areas come back.
pub fn run_areas<D: Stoppable + Drop>(
    alloc: Global,
    geometry: Geometry,
    areas: Vec<D>,
    events: &[Event],
) -> Result<(World<D>, RunResult), (Vec<D>, RecoverFault)>
    ensures headline { IfOk result (λ ran. Headline D.Area geometry areas.items
        (take (length ran.1.replies.items) events.now) ran.1.replies.items (observed D.Area ran.0)) }
    ensures settled { IfOk result (λ ran. OnAreas D.Area geometry areas.items (λ m x.
        AreSettled m x (take (length ran.1.replies.items) events.now) ran.1.replies.items)) }
    ensures fits { IfOk result (λ ran. OnAreas D.Area geometry areas.items (λ m x.
        Settles D.Area m x (take (length ran.1.replies.items) events.now) ran.1.replies.items ran.0)) }
    // Whatever the areas are: what comes up has the content of a store that was read, and up to the next stop each
    // reply is one of the machine of that content.
    ensures lives { IfOk result (λ ran. (after : Option Life)
        × Lives geometry None (take (length ran.1.replies.items) events.now)
        ran.1.replies.items after × FitsLife D.Area geometry after ran.0.phase) }
    ensures calls { IfOk result (λ ran. (g : TheGeometry) (news : List D) → (observed D.Area ran.0).gives g news
        → CallsEach D.Area D.left geometry
        (take (length ran.1.replies.items) events.now) ran.1.replies.items areas.items news) }
    ensures all { IfOk result (λ ran. ran.1.out_of_memory ≡ false
        → length ran.1.replies.items ≡ length events.now) }
    ensures some { IfOk result (λ ran. ran.1.out_of_memory ≡ true
        → length ran.1.replies.items < length events.now) }
    ensures asks { IfOk result (λ ran. ran.1.out_of_memory ≡ true → (ran.1.replies.items ≡ [])
        ⊎ (GrowsNext events.now ran.1.replies.items × OnAreas D.Area geometry areas.items (λ m x.
        AsksNext D.Area m (first_state geometry) x events.now ran.1.replies.items ran.0))) }
    ensures back { IfErr result (λ back. back.0.items ≡ areas.items) }
    ensures wrong { IfErr result (λ back. (area : ℕ) × (back.1 ≡ BadGeometry area)
        × IsLeast (λ k. slice_get (map (λ d. length (D.now d)) areas.items) k ≢ area_len geometry k) area) }
{
    let mut world = World::new(geometry, areas)?;
    let ran = world.run(alloc, events);
    Ok((world, ran))
}
