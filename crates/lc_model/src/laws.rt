//! The laws of the plain machine, each the contract of a function with nothing to do.
ghost use Rattle.std.specs.Prelude.{◌≡◌, ◌≢◌, ◌<◌, ◌≤◌, ◌+◌, ℕ, IsTrue, Option, Some, None};
ghost use Rattle.std.specs.Prelude.{List, ◌++◌, length, filter, take, slice_index, if◌then◌else◌};
ghost use Rattle.std.specs.Prelude.{All, AllPairs, Contains, IsPermutation};
ghost use Rattle.lc_record.specs.declared.geometry.Geometry.{Geometry};
ghost use Rattle.lc_record.specs.declared.record.Record.{Record};
ghost use Rattle.lc_record.specs.Content.{Content, segment_of};
ghost use Rattle.lc_record.specs.Transaction.{Transaction, IsWellFormed, all_set};
ghost use Rattle.lc_record.specs.Transaction.{effect, effects};
ghost use Rattle.lc_model.specs.History.{History, transactions, numbered, value, is_of, reserved};
ghost use Rattle.lc_model.specs.History.{Cut, is_kept, kept, rest, IsClosed, KeepsOrder};
ghost use Rattle.lc_model.specs.State.{State, Setting, DownAt, first_state, running_of};
ghost use Rattle.lc_record.specs.Marks.{is_empty, counting};
ghost use Rattle.lc_model.specs.Machine.{Step, Run};
ghost use Rattle.lc_record.specs.Recorded.{record_of, records_from};
ghost use Rattle.lc_model.specs.Merging.{put_on, kept_records, is_from, byte_at, sets};
ghost use Rattle.lc_record.specs.Newest.{byte_of, IsNewest, IsByNumber};
ghost use Rattle.lc_model.specs.Merging.{numbers_in, counted_all, Rises};
ghost use Rattle.lc_disk.specs.declared.choice.Choice.{Choice};
ghost use Rattle.lc_model.specs.Stops.{MayCutAt, MayCut};
ghost use Rattle.lc_model.specs.Sound.{Sound};
ghost use Rattle.lc_model.specs.Choices.{AtLeastOne, ExactlyOne, Beside, leaves_no_choice};

use crate::{Event, Refusal, Reply};

/// What a closed cut keeps, followed by the rest, has the value of the whole history and has each
/// transaction once. Any two that meet, also one that read and one that wrote, are in it in the order in
/// which they stood. So what is kept is a prefix of a serial order.
pub fn closed_cut()
    ensures same_value { (start : Content) (earlier : List Transaction) (history : History) (cut : Cut) →
        All IsWellFormed (transactions history) → IsClosed history cut →
        effects (earlier ++ (kept history cut ++ rest history cut)) start
        ≡ value start earlier history }
    ensures same_order { (history : History) (cut : Cut) → IsClosed history cut →
        KeepsOrder (transactions history) (kept history cut ++ rest history cut) }
    ensures each_once { (history : History) (cut : Cut) →
        IsPermutation (transactions history) (kept history cut ++ rest history cut) }
    ensures first_of_each_node { (history : History) (cut : Cut) (node : ℕ) →
        filter (is_of node) (kept history cut)
        ≡ take (slice_index cut node) (filter (is_of node) (transactions history)) }
{}

/// The first state is sound, and each step of the machine from a sound state ends in a sound one.
pub fn soundness()
    ensures first { (g : Geometry) → Sound g (first_state g) }
    ensures step { (m : Setting) (s new : State) (event : Event) (reply : Reply) →
        Sound m.geometry s → Step m s event reply new → Sound m.geometry new }
    ensures run { (m : Setting) (s new : State) (events : List Event) (replies : List Reply) →
        Sound m.geometry s → Run m s events replies new → Sound m.geometry new }
    ensures acked_reserved { (g : Geometry) (s : State) (node : ℕ) → Sound g s →
        s.ack node ≤ reserved node s.history }
{}

/// In a sound state every cut whose number a stop allows at each node by itself is closed, so a stop
/// may make it.
pub fn every_cut()
    ensures closed { (g : Geometry) (s : State) (cut : Cut) → Sound g s →
        ((node : ℕ) → node < g.nodes → MayCutAt s node (slice_index cut node)) →
        IsClosed s.history cut }
    ensures allowed { (g : Geometry) (s : State) (cut : Cut) → Sound g s → length cut ≡ g.nodes →
        ((node : ℕ) → node < g.nodes → MayCutAt s node (slice_index cut node)) →
        MayCut g s cut }
{}

/// A record holds the final bytes of all that its transaction set, at its reservation.
///
/// Put on in order, the records of a history leave what the writes leave; so do the records of what
/// a closed cut keeps, which are those that these transactions alone would have made. The numbers of
/// each segment rise without a gap, and tell the same of each byte: it is that of the one record with
/// the greatest number that has one. The records up to any number may be left out in favor of the
/// content that they made.
pub fn records_and_writes()
    ensures final_bytes { (numbers : ℕ → ℕ) (content : Content) (t : Transaction) (segment place : ℕ) →
        byte_of segment place (record_of numbers content t).ranges
        ≡ (if all_set place 1 (segment_of segment t.marks)
        then byte_at segment place (effect t content) else None) }
    ensures in_order { (numbers : ℕ → ℕ) (content : Content) (ts : List Transaction) →
        All IsWellFormed ts → put_on (records_from numbers content ts) content ≡ effects ts content }
    ensures of_a_cut { (numbers : ℕ → ℕ) (content : Content) (history : History) (cut : Cut) →
        All IsWellFormed (transactions history) → IsClosed history cut →
        kept_records (is_kept cut) numbers content (numbered history)
        ≡ records_from numbers content (kept history cut) }
    ensures cut_in_order { (numbers : ℕ → ℕ) (content : Content) (history : History) (cut : Cut) →
        All IsWellFormed (transactions history) → IsClosed history cut →
        put_on (kept_records (is_kept cut) numbers content (numbered history)) content
        ≡ effects (kept history cut) content }
    ensures cut_of_a_node { (numbers : ℕ → ℕ) (content : Content) (history : History) (cut : Cut) (node : ℕ) →
        filter (is_from node) (kept_records (is_kept cut) numbers content (numbered history))
        ≡ take (slice_index cut node)
        (filter (is_from node) (records_from numbers content (transactions history))) }
    ensures no_gap { (numbers : ℕ → ℕ) (content : Content) (ts : List Transaction) (segment : ℕ) →
        numbers_in segment (records_from numbers content ts)
        ≡ counting (numbers segment + 1) (length (filter (sets segment) ts)) }
    ensures numbers_rise { (numbers : ℕ → ℕ) (content : Content) (segment : ℕ) (ts : List Transaction) →
        AllPairs (Rises segment) (records_from numbers content ts) }
    ensures counted { (numbers : ℕ → ℕ) (ts : List Transaction) (segment : ℕ) →
        counted_all numbers ts segment ≡ numbers segment + length (filter (sets segment) ts) }
    ensures of_a_segment { (content : Content) (ts : List Transaction) (segment : ℕ) →
        All IsWellFormed ts →
        segment_of segment (effects ts content)
        ≡ segment_of segment (effects (filter (sets segment) ts) content) }
    ensures by_number { (numbers : ℕ → ℕ) (content : Content) (us vs : List Transaction) (segment place : ℕ) →
        All IsWellFormed vs →
        IsByNumber segment place (counted_all numbers us segment)
        (records_from numbers content (us ++ vs))
        (byte_at segment place (effects us content))
        (byte_at segment place (effects (us ++ vs) content)) }
    ensures one_newest { (numbers : ℕ → ℕ) (content : Content) (ts : List Transaction) (segment place floor : ℕ)
        (byte other : Option ℕ) (r q : Record) →
        IsNewest segment place floor (records_from numbers content ts) byte r →
        IsNewest segment place floor (records_from numbers content ts) other q → byte ≡ other }
    ensures any_order { (segment place floor : ℕ) (records others : List Record) (before after : Option ℕ) →
        ((r : Record) → Contains records r → Contains others r) →
        ((r : Record) → Contains others r → Contains records r) →
        IsByNumber segment place floor records before after →
        IsByNumber segment place floor others before after }
{}

/// Each event has some answer in every sound state, and a refusal other than a fault changes nothing.
///
/// Where a row leaves no choice there is one answer and no other; so there is to a reservation of nothing, to a flush's
/// step beside a fault, and to a token that leaves beside a page's write. A store that is down refuses all but a stop
/// and a recovery's step. Of what the other rows allow, no more is said here: the runs show it.
pub fn no_row_is_loose()
    ensures some_answer { (m : Setting) (s : State) (event : Event) →
        Sound m.geometry s → AtLeastOne (Step m s event) }
    ensures one_answer { (m : Setting) (s : State) (event : Event) →
        IsTrue (leaves_no_choice event) → ExactlyOne (Step m s event) }
    ensures refusals_change_nothing { (m : Setting) (s new : State) (event : Event) (refusal : Refusal) →
        refusal ≢ Refusal.DeviceFault → Step m s event (Reply.Refused refusal) new → new ≡ s }
    ensures down { (m : Setting) (s new : State) (cut : Cut) (event : Event) (reply : Reply) →
        s.phase ≡ DownAt cut → event ≢ Event.RecoverStep →
        ((choices : List (List Choice)) → event ≢ Event.Stop choices) → Step m s event reply new →
        (reply ≡ Reply.Refused Refusal.Down) × (new ≡ s) }
    ensures reserve_nothing { (m : Setting) (s : State) (node thread : ℕ) (t : Transaction) →
        running_of node thread s ≡ Some t → IsTrue (is_empty t.marks) →
        ExactlyOne (Step m s (Event.Reserve node thread)) }
    ensures flush_step { (m : Setting) (s : State) (node : ℕ) →
        ExactlyOne (Beside (Reply.Refused Refusal.DeviceFault) (Step m s (Event.FlushStep node))) }
    ensures leave { (m : Setting) (s : State) (node segment : ℕ) →
        s.ack node ≤ reserved node s.history →
        ExactlyOne (Beside (Reply.Refused Refusal.Writing) (Step m s (Event.Leave node segment))) }
    ensures leave_ok { (m : Setting) (s new : State) (node segment : ℕ) →
        Step m s (Event.Leave node segment) Reply.Ok new → s.ack node ≡ reserved node s.history }
    ensures leave_unflushed { (m : Setting) (s new : State) (node segment : ℕ) →
        Step m s (Event.Leave node segment) (Reply.Refused Refusal.Unflushed) new →
        s.ack node < reserved node s.history }
{}
