//! The laws of pages that are written together.
ghost use Rattle.std.specs.Prelude.{◌≡◌, ℕ, List, Bool, false, true, Some, length, slice_get, slice_set};
ghost use Rattle.lc_record.specs.Content.{Content};
ghost use Rattle.lc_record.specs.declared.geometry.Geometry.{Geometry};
ghost use Rattle.lc_recover.specs.Reads.{AllMergeTo};
ghost use Rattle.lc_rounds.specs.PagesBeside.{PagePlan, PageStage, Unwritten, Written, next_stage, AreFound, ArePlans};
ghost use Rattle.lc_rounds.specs.PagesBeside.{AreBeside, AreReset, IsNextCall};

use lc_disk::Area;

/// The pages that some record is newer than are written into files that are found as a store, each page by its six
/// calls in their order, and the pages in any order beside one another; the files share their syncs. Whatever a stop
/// leaves, before each call, within it and after it, merges to the one result, also where the call failed. Once all
/// pages are written the logs may be reset in any order: whatever a stop leaves merges to the same result.
pub fn pages_beside<D: Area>()
    ensures begins { (g : Geometry) (begins : List D) (plans : List PagePlan) (stages : List PageStage)
        → ((k : ℕ) (area : D) → slice_get begins k ≡ Some area → (at : ℕ) → D.dirty area at ≡ false)
        → length stages ≡ length plans
        → ((k : ℕ) (stage : PageStage) → slice_get stages k ≡ Some stage → stage ≡ Unwritten)
        → AreBeside D.Area g begins plans stages begins }
    ensures goes_on { (g : Geometry) (begins areas : List D) (content : Content) (numbers : ℕ → ℕ)
        (plans : List PagePlan) (stages : List PageStage) (k : ℕ) (p : PagePlan) (stage : PageStage) (old new : D)
        → AreFound D.Area g begins content numbers → ArePlans D.Area g begins content numbers plans
        → AreBeside D.Area g begins plans stages areas
        → slice_get plans k ≡ Some p → slice_get stages k ≡ Some stage → slice_get areas p.place ≡ Some old
        → IsNextCall D.Area stage p old new true
        → AreBeside D.Area g begins plans (slice_set stages k (next_stage stage)) (slice_set areas p.place new) }
    ensures merges { (g : Geometry) (begins areas : List D) (content : Content) (numbers : ℕ → ℕ)
        (plans : List PagePlan) (stages : List PageStage)
        → AreFound D.Area g begins content numbers → ArePlans D.Area g begins content numbers plans
        → AreBeside D.Area g begins plans stages areas
        → AllMergeTo D.Area g areas content numbers }
    ensures failed { (g : Geometry) (begins areas : List D) (content : Content) (numbers : ℕ → ℕ)
        (plans : List PagePlan) (stages : List PageStage) (k : ℕ) (p : PagePlan) (stage : PageStage) (old new : D)
        (ok : Bool)
        → AreFound D.Area g begins content numbers → ArePlans D.Area g begins content numbers plans
        → AreBeside D.Area g begins plans stages areas
        → slice_get plans k ≡ Some p → slice_get stages k ≡ Some stage → slice_get areas p.place ≡ Some old
        → IsNextCall D.Area stage p old new ok
        → AllMergeTo D.Area g (slice_set areas p.place new) content numbers }
    ensures resets { (g : Geometry) (begins areas laters : List D) (content : Content) (numbers : ℕ → ℕ)
        (plans : List PagePlan) (stages : List PageStage)
        → AreFound D.Area g begins content numbers → ArePlans D.Area g begins content numbers plans
        → AreBeside D.Area g begins plans stages areas
        → ((k : ℕ) (stage : PageStage) → slice_get stages k ≡ Some stage → stage ≡ Written)
        → AreReset D.Area g areas laters
        → AllMergeTo D.Area g laters content numbers }
{}
