//! The laws of what a merge of all logs gives, each the contract of a function with nothing to do.
ghost use Rattle.std.specs.Prelude.{◌≡◌, ◌≤◌, ◌⊎◌, ◌++◌, ◌*◌, ℕ, All, Some, length, slice_get};
ghost use Rattle.lc_record.specs.Content.{Content, segment_of};
ghost use Rattle.lc_record.specs.Transaction.{effects};
ghost use Rattle.lc_model.specs.History.{Cut, kept};
ghost use Rattle.lc_model.specs.State.{State, Setting};
ghost use Rattle.lc_model.specs.Merging.{counted_all};
ghost use Rattle.lc_model.specs.Stored.{Disks, Fits, IsImage};
ghost use Rattle.lc_record.specs.declared.geometry.Geometry.{Geometry};
ghost use Rattle.lc_model.specs.Recovered.{HasByte, IsPartlyRenewed, IsPartlyReset, AreStill, zero_store, zero_content};
ghost use Rattle.lc_model.specs.Merge.{Page, StoreText, all_records, MergeFault, Refuses, MergesTo};

/// A store has one outcome at most: it is refused for one reason, or merges to one result.
pub fn one_outcome()
    ensures fault { (store : StoreText) (fault other : MergeFault) → Refuses store fault → Refuses store other →
        fault ≡ other }
    ensures apart { (store : StoreText) (fault : MergeFault) (content : Content) (numbers : ℕ → ℕ) →
        Refuses store fault → MergesTo store content numbers → ⊥ }
    ensures result { (store : StoreText) (content other : Content) (numbers others : ℕ → ℕ) →
        MergesTo store content numbers → MergesTo store other others →
        (content ≡ other)
        × ((segment : ℕ) → 1 ≤ segment → segment ≤ length store.pages → numbers segment ≡ others segment) }
{}

/// A store whose pages have 256 bytes each has an outcome.
pub fn some_outcome()
    ensures outcome { (store : StoreText) →
        ((segment page : ℕ) (text : Page) → slice_get (segment_of segment store.pages) page ≡ Some text →
        length text.bytes ≡ 256) →
        ((fault : MergeFault) × Refuses store fault)
        ⊎ ((content : Content) × (numbers : ℕ → ℕ) × MergesTo store content numbers) }
{}

/// What a stop leaves of a store is not refused, and merges to what the cut keeps.
pub fn no_refusal()
    ensures { (m : Setting) (s : State) (d : Disks) (cut : Cut) (store : StoreText) →
        Fits m s d → IsImage m s d cut store →
        MergesTo store (effects (s.earlier ++ kept s.history cut) m.start)
        (counted_all d.numbers (kept s.history cut)) }
{}

/// Each step of a recovery leaves a store that is not refused either, and merges to the same; a store of zeros is not
/// refused.
pub fn no_later_refusal()
    ensures pages { (store new : StoreText) (content : Content) (numbers : ℕ → ℕ) → MergesTo store content numbers →
        IsPartlyRenewed store new content numbers → MergesTo new content numbers }
    ensures logs { (store new : StoreText) (content : Content) (numbers : ℕ → ℕ) → MergesTo store content numbers →
        AreStill store →
        ((segment : ℕ) → All (HasByte segment (length (segment_of segment store.pages) * 256)) (all_records store)) →
        IsPartlyReset store new → MergesTo new content numbers }
    ensures zeros { (g : Geometry) → MergesTo (zero_store g) (zero_content g) (λ segment. 0) }
{}
