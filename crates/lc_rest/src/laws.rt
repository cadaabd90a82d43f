//! The laws of a cluster at rest, each the contract of a function with nothing to do.
ghost use Rattle.std.specs.Prelude.{◌≡◌, ◌≤◌, ℕ, All, List, [], filter, length, map, replicate, slice_index_or, take};
ghost use Rattle.lc_record.specs.Content.{Content, segment_of};
ghost use Rattle.lc_record.specs.Geometry.{segment_len};
ghost use Rattle.lc_record.specs.Recorded.{record_of, records_from};
ghost use Rattle.lc_record.specs.declared.geometry.Geometry.{Geometry};
ghost use Rattle.lc_record.specs.declared.record.Lock.{Lock};
ghost use Rattle.lc_record.specs.declared.record.Record.{Record};
ghost use Rattle.lc_model.specs.History.{value};
ghost use Rattle.lc_model.specs.Merge.{Page};
ghost use Rattle.lc_model.specs.Merging.{counted_all, is_from, put_on};
ghost use Rattle.lc_model.specs.Sound.{Sound};
ghost use Rattle.lc_model.specs.Stored.{Fits};
ghost use Rattle.lc_rest.specs.Adopted.{Follow, IsNext, IsReplayed, IsTaken, transaction_of};
ghost use Rattle.lc_rest.specs.Dropping.{AreDroppable, without};
ghost use Rattle.lc_rest.specs.Found.{Found, IsConsistent, last_number, machine_disks, machine_setting, machine_state};
ghost use Rattle.lc_rest.specs.Merge.{AreKnown, AreTurns, IsStuck, merged_after, number_at, times};
ghost use Rattle.lc_rest.specs.Pages.{as_read};
ghost use Rattle.lc_rest.specs.Passed.{Passes, Read, found_of};
ghost use Rattle.lc_rest.specs.Replay.{IsPlayed, bytes_above, bytes_after, number_after};
ghost use Rattle.lc_rest.specs.Tested.{IsTested};

/// The transaction that a record stands for has this record, and those of records that follow one another have these.
pub fn own_records()
    ensures one { (g : Geometry) (r : Record) (numbers : ℕ → ℕ) (content : Content) → IsTaken g r
        → map length content ≡ replicate g.segments (segment_len g) → IsNext numbers r
        → record_of numbers content (transaction_of g r) ≡ r }
    ensures all { (g : Geometry) (rs : List Record) (numbers : ℕ → ℕ) (content : Content) → All (IsTaken g) rs
        → map length content ≡ replicate g.segments (segment_len g) → Follow g numbers rs
        → records_from numbers content (map (transaction_of g) rs) ≡ rs }
{}

/// What is merged in turns follows one another, and of each node it is what its log has, in that order.
pub fn merged_in_order()
    ensures follow { (g : Geometry) (logs : List (List Record)) (numbers turns : List ℕ)
        → All (IsTaken g) (merged_after logs [] turns)
        → All (λ (r : Record). All (λ (lock : Lock). (1 ≤ lock.segment) × (lock.segment ≤ length numbers)) r.locks)
        (merged_after logs [] turns)
        → AreTurns logs numbers [] turns → Follow g (number_at numbers) (merged_after logs [] turns) }
    ensures each { (logs : List (List Record)) (n : ℕ) (turns : List ℕ)
        → ((k : ℕ) → All (λ (r : Record). r.node ≡ k) (slice_index_or logs k []))
        → ((k : ℕ) → times k turns ≤ length (slice_index_or logs k []))
        → filter (is_from n) (merged_after logs [] turns) ≡ take (times n turns) (slice_index_or logs n []) }
{}

/// Where a merge is stuck there is no order of all records in which each has the next numbers.
pub fn no_order()
    ensures { (logs : List (List Record)) (numbers turns others : List ℕ) (node : ℕ) → AreKnown (length numbers) logs
        → IsStuck logs numbers turns node
        → AreTurns logs numbers [] others → ((n : ℕ) → times n others ≡ length (slice_index_or logs n [])) → ⊥ }
{}

/// A page that is played is replayed; the bytes and the number after a replay are those that all records make.
pub fn played_pages()
    ensures replayed { (g : Geometry) (rs : List Record) (numbers : ℕ → ℕ) (base : Content) (segment page : ℕ)
        (text : Page) → All (IsTaken g) rs
        → IsPlayed segment (numbers segment) rs (segment_of segment base) page (as_read text)
        → IsReplayed g rs numbers base segment page text }
    ensures bytes { (segment : ℕ) (rs : List Record) (base : Content)
        → bytes_after segment rs (segment_of segment base) ≡ segment_of segment (put_on rs base) }
    ensures number { (g : Geometry) (segment : ℕ) (rs : List Record) (numbers : ℕ → ℕ) → All (IsTaken g) rs →
        number_after segment rs (numbers segment) ≡ counted_all numbers (map (transaction_of g) rs) segment }
{}

/// What passes the tests of this crate's code is tested.
pub fn passed()
    ensures { (h : Read) → Passes h → IsTested (found_of h) }
{}

/// What is tested is consistent. The state of the machine that it stands for is sound, what is stored fits that state,
/// and its value is what all records make of the pages.
pub fn stands_for()
    ensures consistent { (f : Found) → IsTested f → IsConsistent f }
    ensures sound { (f : Found) → IsTested f → Sound f.geometry (machine_state f) }
    ensures fits { (f : Found) → IsTested f → Fits (machine_setting f) (machine_state f) (machine_disks f) }
    ensures value { (f : Found) → value f.base [] (machine_state f).history ≡ put_on f.records f.base }
{}

/// Where what is found of a cluster is tested, so is what is left of it without the first records of the order in which
/// all merge, if these are of rounds that have ended. The value and the numbers are the same, and so are the bytes of a
/// node that has applied what was dropped, with the records above that put on.
pub fn dropped_front()
    ensures tested { (f : Found) (front rest : List Record) → IsTested f → AreDroppable f front rest
        → IsTested (without f front rest) }
    ensures value { (f : Found) (front rest : List Record) → AreDroppable f front rest
        → put_on (without f front rest).records (without f front rest).base ≡ put_on f.records f.base }
    ensures number { (f : Found) (front rest : List Record) (segment : ℕ) → AreDroppable f front rest
        → last_number (without f front rest) segment ≡ last_number f segment }
    ensures image { (f : Found) (front rest : List Record) (segment applied : ℕ) (bytes : List ℕ) → IsTested f
        → AreDroppable f front rest → (without f front rest).numbers segment ≤ applied
        → bytes_above segment applied rest bytes ≡ bytes_above segment applied f.records bytes }
{}
