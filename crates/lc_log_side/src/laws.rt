//! The laws of what is published, and of what is dropped and left of the ended rounds, each the contract of a function
//! with nothing to do.
ghost use Rattle.std.specs.Prelude.{◌≡◌, ◌+◌, ◌++◌, ◌∷◌, ◌≤◌, ℕ, [], All, List, length, map};
ghost use Rattle.lc_log.specs.LogText.{IsWhole, joined};
ghost use Rattle.lc_record.specs.declared.geometry.Geometry.{Geometry};
ghost use Rattle.lc_record.specs.declared.record.Lock.{Lock};
ghost use Rattle.lc_record.specs.declared.record.Record.{Record};
ghost use Rattle.lc_model.specs.Merging.{counted_all};
ghost use Rattle.lc_rest.specs.Adopted.{Follow, IsTaken, transaction_of};
ghost use Rattle.lc_rest.specs.Merge.{number_at};
ghost use Rattle.lc_rest.specs.Parts.{IsKnownClean};
ghost use Rattle.lc_token.specs.KnownClean.{known as known_of};
ghost use Rattle.lc_log_side.specs.Left.{IsLeft};
ghost use Rattle.lc_log_side.specs.Trims.{AreDropped, Trims};
ghost use Rattle.lc_log_side.specs.Published.{IsStart};

/// A place where a record begins stays one, whatever is published later.
pub fn starts_stay()
    ensures { (records more : List (List ℕ)) (count place : ℕ) → IsStart records count place
        → IsStart (records ++ more) count place }
{}

/// What is left of the rounds that have ended: nothing at first; a reset adds its records, which are known clean; what
/// is seen as clean only grows; a trim drops whole records in front, and all may be dropped.
pub fn left()
    ensures none { (known : List ℕ) → IsLeft [] known 0 [] }
    ensures more { (past : List (List ℕ)) (known : List ℕ) (gone : ℕ) (words : List ℕ) (rs : List Record)
        → IsLeft past known gone words → All IsWhole rs → All (IsKnownClean known) rs
        → IsLeft (past ++ joined rs ∷ []) known gone (words ++ joined rs) }
    ensures sees { (past : List (List ℕ)) (known later : List ℕ) (gone : ℕ) (words : List ℕ)
        → IsLeft past known gone words → ((segment : ℕ) → known_of known segment ≤ known_of later segment)
        → IsLeft past later gone words }
    ensures trims { (past : List (List ℕ)) (known : List ℕ) (gone less : ℕ) (words rest applied dropped after : List ℕ)
        (count : ℕ) → IsLeft past known gone words
        → ((rs : List Record) → All IsWhole rs → words ≡ joined rs → Trims applied dropped rs count rest after)
        → less + length rest ≡ gone + length words → IsLeft past known less rest }
    ensures all { (past : List (List ℕ)) (known : List ℕ) (gone : ℕ) (words : List ℕ) → IsLeft past known gone words
        → IsLeft past known (gone + length words) [] }
{}

/// What is dropped, by however many trims of whatever nodes one after another, are records that follow one another,
/// each with the next numbers of its segments. The numbers after them are those that the trims count.
pub fn dropped_follow()
    ensures chain { (g : Geometry) (applied later dropped between after : List ℕ) (rs qs : List Record)
        → All (IsTaken g) rs → All (IsTaken g) qs
        → All (λ (r : Record). All (λ (lock : Lock). (1 ≤ lock.segment) × (lock.segment ≤ length dropped)) r.locks) rs
        → All (λ (r : Record). All (λ (lock : Lock). (1 ≤ lock.segment) × (lock.segment ≤ length dropped)) r.locks) qs
        → AreDropped applied dropped rs between → AreDropped later between qs after
        → Follow g (number_at dropped) (rs ++ qs) }
    ensures follow { (g : Geometry) (applied dropped after : List ℕ) (rs : List Record) → All (IsTaken g) rs
        → All (λ (r : Record). All (λ (lock : Lock). (1 ≤ lock.segment) × (lock.segment ≤ length dropped)) r.locks) rs
        → AreDropped applied dropped rs after → Follow g (number_at dropped) rs }
    ensures counted { (g : Geometry) (applied dropped after : List ℕ) (rs : List Record) → All (IsTaken g) rs
        → All (λ (r : Record). All (λ (lock : Lock). (1 ≤ lock.segment) × (lock.segment ≤ length dropped)) r.locks) rs
        → AreDropped applied dropped rs after
        → number_at after ≡ counted_all (number_at dropped) (map (transaction_of g) rs) }
{}
