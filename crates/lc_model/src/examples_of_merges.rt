//! What a merge makes of small stores, and which of them it refuses.
ghost use Rattle.std.specs.Prelude.{◌≡◌, ℕ, max, Some, drop, [], ◌∷◌};
ghost use Rattle.lc_record.specs.Content.{Content};
ghost use Rattle.lc_record.specs.Newest.{IsByNumber};
ghost use Rattle.lc_model.specs.Merge.{IsGap, IsTwice, IsMerged, HasBytes, all_records, page_number, record_number};
ghost use Rattle.lc_model.specs.ExamplesOfMerges.{missing, twice, twice_in_one, of_two_segments};
ghost use Rattle.lc_model.specs.ExamplesOfMerges.{above, crossed, uneven, page_of, above_whole, whole_page};

/// A store whose records miss a number is refused at it, and at no other.
pub fn one_is_missing()
    ensures is_gap { IsGap missing 1 2 }
    ensures no_other { (segment seq : ℕ) → IsGap missing segment seq → (segment ≡ 1) × (seq ≡ 2) }
    ensures not_the_first { IsGap missing 1 1 → ⊥ }
    ensures not_the_third { IsGap missing 1 3 → ⊥ }
    ensures not_twice { IsTwice missing 1 1 → ⊥ }
    ensures refused { (content : Content) (numbers : ℕ → ℕ) → IsMerged missing content numbers → ⊥ }
{}

/// A store with two records of one number of one segment is refused at it, in whatever logs they are.
pub fn one_is_there_twice()
    ensures is_twice { IsTwice twice 1 1 }
    ensures no_other { (segment seq : ℕ) → IsTwice twice segment seq → (segment ≡ 1) × (seq ≡ 1) }
    ensures in_one_log { IsTwice twice_in_one 1 1 }
    ensures not_of_two_segments { IsTwice of_two_segments 1 1 → ⊥ }
    ensures no_gap { (seq : ℕ) → IsGap twice 1 seq → ⊥ }
    ensures refused { (content : Content) (numbers : ℕ → ℕ) → IsMerged twice content numbers → ⊥ }
{}

/// A page whose number is above all records stands as it is, and nothing is missing below it.
pub fn page_above_its_records()
    ensures no_gap { (seq : ℕ) → IsGap above 1 seq → ⊥ }
    ensures not_twice { IsTwice above 1 2 → ⊥ }
    ensures stands { HasBytes above ((7 ∷ 8 ∷ []) ∷ []) 1 0 (page_of 5 (7 ∷ 8 ∷ [])) }
    ensures not_the_records { HasBytes above ((12 ∷ 8 ∷ []) ∷ []) 1 0 (page_of 5 (7 ∷ 8 ∷ [])) → ⊥ }
    ensures numbered { max (page_number 1 above) (record_number 1 above) ≡ 5 }
    ensures under_a_lower_page { IsByNumber 1 0 1 (all_records above) (Some 7) (Some 12) }
{}

/// A store of such a page merges to its bytes, and its segment goes on from its number.
pub fn whole_page_above()
    ensures merges { IsMerged above_whole (whole_page ∷ []) (λ segment. 5) }
    ensures not_to_the_record { (numbers : ℕ → ℕ) → IsMerged above_whole ((12 ∷ drop 1 whole_page) ∷ []) numbers → ⊥ }
    ensures under_its_number { (content : Content) (numbers : ℕ → ℕ) →
        IsMerged above_whole content numbers → numbers 1 ≡ 5 }
{}

/// A byte is that of the record with the greatest number, in whatever log it stands.
pub fn newest_in_whatever_log()
    ensures later { IsByNumber 1 0 0 (all_records crossed) (Some 7) (Some 12) }
    ensures not_the_earlier { IsByNumber 1 0 0 (all_records crossed) (Some 7) (Some 11) → ⊥ }
    ensures not_the_page { IsByNumber 1 0 0 (all_records crossed) (Some 7) (Some 7) → ⊥ }
    ensures no_gap { (seq : ℕ) → IsGap crossed 1 seq → ⊥ }
{}

/// Each page of a segment takes the records above its own number only, and what is missing below the greatest is no
/// gap.
pub fn pages_of_two_numbers()
    ensures first_takes_the_second { IsByNumber 1 0 1 (all_records uneven) (Some 7) (Some 12) }
    ensures first_keeps_not { IsByNumber 1 0 1 (all_records uneven) (Some 7) (Some 7) → ⊥ }
    ensures first_takes_the_fourth { IsByNumber 1 1 1 (all_records uneven) (Some 8) (Some 14) }
    ensures second_keeps { IsByNumber 1 256 3 (all_records uneven) (Some 7) (Some 7) }
    ensures second_takes_not { IsByNumber 1 256 3 (all_records uneven) (Some 7) (Some 22) → ⊥ }
    ensures second_takes_the_fourth { IsByNumber 1 257 3 (all_records uneven) (Some 8) (Some 24) }
    ensures second_keeps_not { IsByNumber 1 257 3 (all_records uneven) (Some 8) (Some 8) → ⊥ }
    ensures no_gap { (seq : ℕ) → IsGap uneven 1 seq → ⊥ }
{}
