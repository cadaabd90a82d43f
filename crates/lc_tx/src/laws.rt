//! Laws of transactions: what is kept of one stands for a transaction of the model.
ghost use Rattle.std.specs.Prelude.{◌≡◌, ◌≢◌, ◌↔◌, ◌+◌, ◌<◌, ◌≤◌, ◌++◌, ℕ, List, [], None, true, false, map, length};
ghost use Rattle.std.specs.Prelude.{IsSome, IsTrue};
ghost use Rattle.lc_record.specs.Content.{Content, segment_of};
ghost use Rattle.lc_record.specs.Transaction.{Transaction, is_member, all_set};
ghost use Rattle.lc_record.specs.Marks.{is_empty, ranges, ascending, marked, written};
ghost use Rattle.lc_record.specs.Recorded.{record_of};
ghost use Rattle.lc_record.specs.declared.geometry.Geometry.{Geometry};
ghost use Rattle.lc_range.specs.RangeSet.{Has, IsCanonical, NeedsRunsAbove};
ghost use Rattle.lc_range.specs.Undo.{kept};
ghost use Rattle.lc_tx.specs.declared.holders.Holders.{Holders as Held};
ghost use Rattle.lc_tx.specs.declared.holders.Holders.TheVariants.{Free};
ghost use Rattle.lc_tx.specs.declared.tx.Tx.{Tx as Kept};
ghost use Rattle.lc_tx.specs.Holders.{reads, writer_of};
ghost use Rattle.lc_tx.specs.Images.{bytes_of, IsLockable, IsSame, IsSameBut, IsWritten, AreReleased, AreRestored};
ghost use Rattle.lc_tx.specs.Tx.{IsSetOf, Locked, Reads, Holds, AreSet, RunsOn, KeepsLocked, Begins, SetsRange};
ghost use Rattle.lc_tx.specs.Prepared.{final_record};
ghost use Rattle.lc_tx.specs.StandsFor.{StandsFor, Show, AreNumbers, begun_on};

use crate::Images;

/// What nobody writes and nobody reads is free.
pub fn who_is_free()
    ensures { (holders : Held) → writer_of holders ≡ None → ((thread : ℕ) → reads holders thread ≡ false)
        → holders ≡ Free }
{}

/// A transaction that has begun stands for one with nothing set, on the content that its images show.
pub fn begun<I: Images>()
    ensures { (old new : I) (thread node : ℕ) (segments reading : List ℕ) (tx : Kept) (content : Content)
        → Begins I.Images thread segments reading old new tx → Show I.Images old (segments ++ reading) content
        → StandsFor I.Images new tx content (begun_on content node tx) }
{}

/// A set range marks the transaction.
pub fn range_set<I: Images>()
    ensures { (images later : I) (old new : Kept) (segment offset len : ℕ) (content : Content) (t : Transaction)
        → StandsFor I.Images images old content t → Locked old segment
        → SetsRange I.Images images old segment offset len new
        → IsSame I.Images images later → RunsOn I.Images images old → RunsOn I.Images later new
        → StandsFor I.Images later new content (marked t segment offset len) }
{}

/// A write is one of the transaction's.
pub fn bytes_written<I: Images>()
    ensures { (old new : I) (tx : Kept) (segment offset : ℕ) (bytes : List ℕ) (content : Content) (t : Transaction)
        → StandsFor I.Images old tx content t → RunsOn I.Images old tx → Locked tx segment
        → AreSet tx segment offset (length bytes)
        → IsWritten I.Images old segment offset bytes new
        → StandsFor I.Images new tx content (written t segment offset bytes) }
{}

/// What leaves the images as they are leaves what is stood for.
pub fn same_images<I: Images>()
    ensures { (old new : I) (tx : Kept) (content : Content) (t : Transaction)
        → StandsFor I.Images old tx content t → RunsOn I.Images old tx → IsSame I.Images old new
        → StandsFor I.Images new tx content t }
{}

/// What leaves the segments that it locked leaves a transaction its images.
pub fn runs_beside<I: Images>()
    ensures runs { (old new : I) (tx : Kept) → RunsOn I.Images old tx → KeepsLocked I.Images old new tx
        → RunsOn I.Images new tx }
    ensures apart { (old new : I) (segments : List ℕ) (tx : Kept) → RunsOn I.Images old tx
        → IsSameBut I.Images segments old new
        → ((s : ℕ) → Holds tx s → is_member s segments ≡ false) → KeepsLocked I.Images old new tx }
{}

/// What one transaction begins, writes, aborts or releases leaves another its images, that of another thread at the
/// same node.
pub fn keep_beside<I: Images>()
    ensures begin { (old new : I) (thread : ℕ) (segments reading : List ℕ) (tx other : Kept) → RunsOn I.Images old other
        → Begins I.Images thread segments reading old new tx → ((s : ℕ) → IsLockable I.Images old segments reading s)
        → KeepsLocked I.Images old new other }
    ensures write { (old new : I) (segment offset : ℕ) (bytes : List ℕ) (tx other : Kept) → RunsOn I.Images old other
        → RunsOn I.Images old tx → tx.thread ≢ other.thread → Locked tx segment
        → IsWritten I.Images old segment offset bytes new → KeepsLocked I.Images old new other }
    ensures abort { (old new : I) (tx other : Kept) → RunsOn I.Images old other
        → RunsOn I.Images old tx → tx.thread ≢ other.thread
        → AreRestored I.Images tx.undo tx.thread tx.locked.items tx.reading.items old new
        → KeepsLocked I.Images old new other }
    ensures release { (old new : I) (tx other : Kept) → RunsOn I.Images old other
        → RunsOn I.Images old tx → tx.thread ≢ other.thread
        → AreReleased I.Images tx.thread tx.locked.items tx.reading.items old new
        → KeepsLocked I.Images old new other }
{}

/// It leaves what it stands for, on whatever the content has become elsewhere.
pub fn stands_beside<I: Images>()
    ensures { (old new : I) (tx : Kept) (content other : Content) (t : Transaction)
        → StandsFor I.Images old tx content t → RunsOn I.Images old tx → KeepsLocked I.Images old new tx
        → map length other ≡ map length content
        → ((s : ℕ) → Holds tx s → segment_of s other ≡ segment_of s content) → StandsFor I.Images new tx other t }
{}

/// More than 64 runs would stand exactly where the transaction would have more than 64 ranges.
pub fn runs_are_ranges<I: Images>()
    ensures { (images : I) (tx : Kept) (segment offset len : ℕ) (content : Content) (t : Transaction)
        → StandsFor I.Images images tx content t → Locked tx segment
        → offset + len ≤ length (bytes_of I.Images images segment)
        → NeedsRunsAbove 64 tx.set segment offset len ↔ (64 < ranges (marked t segment offset len).marks) }
{}

/// The transaction set nothing exactly where the set is empty.
pub fn nothing_is_set<I: Images>()
    ensures { (images : I) (tx : Kept) (content : Content) (t : Transaction) → IsCanonical tx.set
        → StandsFor I.Images images tx content t → (tx.set ≡ []) ↔ (is_empty t.marks ≡ true) }
{}

/// Positions are set exactly where the transaction's are.
pub fn set_positions<I: Images>()
    ensures { (images : I) (tx : Kept) (segment offset len : ℕ) (content : Content) (t : Transaction)
        → StandsFor I.Images images tx content t → AreSet tx segment offset len
        ↔ (all_set offset len (segment_of segment t.marks) ≡ true) }
{}

/// The record is the transaction's.
pub fn one_record<I: Images>()
    ensures { (images : I) (tx : Kept) (numbers : ℕ → ℕ) (content : Content) (t : Transaction) → IsCanonical tx.set
        → StandsFor I.Images images tx content t → AreNumbers I.Images images tx numbers
        → final_record I.Images images tx t.node ≡ record_of numbers content t }
{}

/// What is kept is of set positions, and of each.
pub fn kept_is_set<I: Images>()
    ensures { (images : I) (tx : Kept) (segment k : ℕ) → RunsOn I.Images images tx
        → IsSome (kept tx.undo segment k) ↔ Has tx.set segment k }
{}

/// What it locked for reading shows the content.
pub fn read_shows_content<I: Images>()
    ensures { (images : I) (tx : Kept) (content : Content) (t : Transaction) (segment : ℕ)
        → StandsFor I.Images images tx content t → RunsOn I.Images images tx → Reads tx segment
        → bytes_of I.Images images segment ≡ segment_of segment content }
{}

/// An abort brings the content back.
pub fn content_is_back<I: Images>()
    ensures { (old new : I) (tx : Kept) (content : Content) (t : Transaction) (segment : ℕ)
        → StandsFor I.Images old tx content t
        → AreRestored I.Images tx.undo tx.thread tx.locked.items tx.reading.items old new → Locked tx segment
        → bytes_of I.Images new segment ≡ segment_of segment content }
{}

/// The segments that a transaction locked for writing, or for reading, of a store of this geometry, are those that were
/// asked for, ascending.
pub fn one_ascending_list()
    ensures { (g : Geometry) (segments set : List ℕ) → IsSetOf segments set
        → ((segment : ℕ) → IsTrue (is_member segment segments) → (1 ≤ segment) × (segment ≤ g.segments))
        → set ≡ ascending g segments }
{}

/// Segments numbered from 1 up to a number are at most so many.
pub fn few_segments()
    ensures { (most : ℕ) (segments set : List ℕ) → IsSetOf segments set
        → ((segment : ℕ) → IsTrue (is_member segment segments) → (1 ≤ segment) × (segment ≤ most)) → length set ≤ most }
{}
