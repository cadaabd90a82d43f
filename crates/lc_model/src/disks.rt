//! The laws of what the disks of a store hold, each the contract of a function with nothing to do.
ghost use Rattle.std.specs.Prelude.{◌≡◌, ◌<◌, ◌≤◌, ◌++◌, ◌*◌, ℕ, Bool, true, false, List, length, Option, Some, All};
ghost use Rattle.std.specs.Prelude.{max, slice_set, drop, ◌+◌, [], map, slice_get, ◌⊎◌};
ghost use Rattle.lc_record.specs.declared.geometry.Geometry.{Geometry};
ghost use Rattle.lc_record.specs.Content.{Content, segment_of};
ghost use Rattle.lc_record.specs.Transaction.{Transaction, effects};
ghost use Rattle.lc_model.specs.History.{History, Cut, transactions, kept, reserved};
ghost use Rattle.lc_model.specs.State.{State, Setting, Place, At, Flush, Phase, Up, fresh};
ghost use Rattle.lc_model.specs.Machine.{Step, appended, acknowledged};
ghost use Rattle.lc_model.specs.Sound.{Sound};
ghost use Rattle.lc_record.specs.declared.record.Record.{Record};
ghost use Rattle.lc_record.specs.Newest.{number_or_zero};
ghost use Rattle.lc_model.specs.Merging.{counted_all};
ghost use Rattle.lc_model.specs.Stops.{MayCut};
ghost use Rattle.lc_model.specs.Merge.{Page, StoreText, all_records, IsMerged};
ghost use Rattle.lc_model.specs.Stored.{Disks, Fits, IsImage, Shows, Stands, IsOnPages, records_of};
ghost use Rattle.lc_model.specs.Recovered.{AreRenewed, IsReadable, IsBehind, IsPartlyRenewed, AreStill, IsPartlyReset};
ghost use Rattle.lc_model.specs.Recovered.{HasByte, recovered_disks, zero_store, zero_content};
ghost use Rattle.lc_model.specs.Moves.{with_begun, with_opened, with_settled, with_reset, with_dropped, page_now};

use crate::{Event, Reply};

/// What a stop leaves of a store merges, without a refusal, to what the cut keeps; and a stop may cut so.
pub fn one_result()
    ensures merged { (m : Setting) (s : State) (d : Disks) (cut : Cut) (store : StoreText) →
        Fits m s d → IsImage m s d cut store →
        MayCut m.geometry s cut
        × IsMerged store (effects (s.earlier ++ kept s.history cut) m.start)
        (counted_all d.numbers (kept s.history cut)) }
    ensures one { (store : StoreText) (content other : Content) (numbers others : ℕ → ℕ) →
        IsMerged store content numbers → IsMerged store other others →
        (content ≡ other)
        × ((segment : ℕ) → 1 ≤ segment → segment ≤ length store.pages → numbers segment ≡ others segment) }
{}

/// The moves of a store keep its disks fitting the machine's state.
pub fn kept_by_moves()
    ensures aside { (m : Setting) (s : State) (d : Disks) (running : List Transaction) (place : ℕ → Place)
        (halted : ℕ → Bool) (flush : ℕ → Flush) (phase : Phase) → Fits m s d →
        Sound m.geometry (record s { running = running; place = place; halted = halted; flush = flush; phase = phase })
        → Fits m (record s { running = running; place = place; halted = halted; flush = flush; phase = phase }) d }
    ensures marks { (m : Setting) (s : State) (d : Disks) (history : History) → Fits m s d →
        Sound m.geometry (record s { history = history }) → transactions history ≡ transactions s.history →
        Fits m (record s { history = history }) d }
    ensures reserved { (m : Setting) (s : State) (d : Disks) (t : Transaction) → Fits m s d →
        Sound m.geometry (appended s t) → d.resetting t.node ≡ false → Fits m (appended s t) d }
    ensures acked { (m : Setting) (s : State) (d : Disks) (node count : ℕ) → Fits m s d →
        Sound m.geometry (acknowledged s node count) → s.ack node ≤ count → Fits m (acknowledged s node count) d }
    ensures step { (m : Setting) (s new : State) (d : Disks) (event : Event) (reply : Reply) → Fits m s d →
        s.phase ≡ Up →
        ((node thread place words : ℕ) → event ≡ Event.Reserve node thread → reply ≡ Reply.Reserved place words →
        d.resetting node ≡ false) →
        Step m s event reply new → Fits m new d }
    ensures page_begun { (m : Setting) (s : State) (d : Disks) (segment page : ℕ) (text : Page) → Fits m s d →
        Stands m s d segment page text → (d.page segment page).sequence ≤ text.sequence →
        Fits m s (with_begun d segment page text) }
    ensures page_opened { (m : Setting) (s : State) (d : Disks) (segment page : ℕ) (text : Page) → Fits m s d →
        1 ≤ segment → segment ≤ m.geometry.segments → page < m.geometry.pages → d.begun segment page ≡ Some text →
        Fits m s (with_opened d segment page text) }
    ensures page_settled { (m : Setting) (s : State) (d : Disks) (segment page : ℕ) (text : Page) → Fits m s d →
        d.opened segment page ≡ Some text → Fits m s (with_settled d segment page text) }
    ensures page_now { (m : Setting) (s : State) (d : Disks) (segment page node : ℕ) → Sound m.geometry s →
        s.place segment ≡ At node → s.ack node ≡ reserved node s.history →
        Stands m s d segment page (page_now m s d segment page) }
    ensures reset_written { (m : Setting) (s : State) (d : Disks) (node : ℕ) → Fits m s d →
        All (IsOnPages m.geometry d) (records_of m s d node) → length (records_of m s d node) ≤ s.ack node →
        Fits m s (with_reset d node) }
    ensures reset_done { (m : Setting) (s : State) (d : Disks) (node : ℕ) → Fits m s d → node < m.geometry.nodes →
        d.resetting node ≡ true → Fits m s (with_dropped d node (s.ack node)) }
{}

/// What a recovery leaves of an image fits the machine's next state, also where it began again midway, and what the
/// first recovery leaves its first.
pub fn behind_recovery()
    ensures next { (m : Setting) (s : State) (d : Disks) (cut : Cut) (store : StoreText) (pages : ℕ → ℕ → Page) →
        1 ≤ m.geometry.pages → Fits m s d → IsImage m s d cut store →
        AreRenewed store (effects (s.earlier ++ kept s.history cut) m.start)
        (counted_all d.numbers (kept s.history cut)) pages →
        Fits m (fresh m.geometry (s.earlier ++ kept s.history cut) Up)
        (recovered_disks (counted_all d.numbers (kept s.history cut)) pages) }
    ensures any { (m : Setting) (earlier : List Transaction) (store : StoreText) (numbers : ℕ → ℕ)
        (pages : ℕ → ℕ → Page) → 1 ≤ m.geometry.pages → Sound m.geometry (fresh m.geometry earlier Up) →
        IsReadable m.geometry store → IsMerged store (effects earlier m.start) numbers →
        AreRenewed store (effects earlier m.start) numbers pages →
        Fits m (fresh m.geometry earlier Up) (recovered_disks numbers pages) }
    ensures readable { (m : Setting) (s : State) (d : Disks) (cut : Cut) (store : StoreText) → Fits m s d →
        IsImage m s d cut store → IsReadable m.geometry store }
    ensures first { (m : Setting) (store : StoreText) (numbers : ℕ → ℕ) (pages : ℕ → ℕ → Page) →
        1 ≤ m.geometry.pages → IsReadable m.geometry store → IsMerged store m.start numbers →
        AreRenewed store m.start numbers pages →
        Fits m (fresh m.geometry [] Up) (recovered_disks numbers pages) }
{}

/// Each step of a recovery keeps the result, in each image: while pages are written, and, once no record comes on top
/// of a page, while logs are reset.
pub fn within_recovery()
    ensures pages { (store new : StoreText) (content : Content) (numbers : ℕ → ℕ) → IsMerged store content numbers →
        IsPartlyRenewed store new content numbers → IsMerged new content numbers }
    ensures still { (store new : StoreText) (content : Content) (numbers : ℕ → ℕ) → IsMerged store content numbers →
        new.logs ≡ store.logs → map length new.pages ≡ map length store.pages →
        ((segment page : ℕ) (text : Page) → slice_get (segment_of segment new.pages) page ≡ Some text →
        (text.sequence ≡ numbers segment)
        ⊎ ((slice_get (segment_of segment store.pages) page ≡ Some text)
        × (IsBehind store segment page text → ⊥))) →
        AreStill new }
    ensures logs { (store new : StoreText) (content : Content) (numbers : ℕ → ℕ) → IsMerged store content numbers →
        AreStill store →
        ((segment : ℕ) → All (HasByte segment (length (segment_of segment store.pages) * 256)) (all_records store)) →
        IsPartlyReset store new → IsMerged new content numbers }
{}

/// A store of zeros can be read, and merges to zeros under no numbers: so some disks fit.
pub fn zeros()
    ensures readable { (g : Geometry) → IsReadable g (zero_store g) }
    ensures merged { (g : Geometry) → IsMerged (zero_store g) (zero_content g) (λ segment. 0) }
{}
