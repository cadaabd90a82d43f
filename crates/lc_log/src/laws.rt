//! Laws of a log's text, and of what a stop leaves of a log.
ghost use Rattle.std.specs.Prelude.{◌≡◌, ℕ, Bool, List, Some, drop, slice_get};
ghost use Rattle.lc_record.specs.Words.{words_of};
ghost use Rattle.lc_record.specs.Record.{record_len};
ghost use Rattle.lc_record.specs.Codec.{BeginsWith};
ghost use Rattle.lc_record.specs.declared.record.Record.{Record};
ghost use Rattle.lc_log.specs.LogText.{IsLogText};
ghost use Rattle.lc_log.specs.InPlace.{spans_from, spans_in};
ghost use Rattle.lc_log.specs.NodeLog.{IsAtRest, IsOpening, IsWithOrWithout, EachImage};

/// A list of words is the text of one list of records at most.
pub fn one_text()
    ensures { (words : List ℕ) (rs qs : List Record) → IsLogText words rs → IsLogText words qs → rs ≡ qs }
{}

/// Every list of words is the text of some records, be there none.
pub fn some_text()
    ensures { (words : List ℕ) → (records : List Record) × IsLogText words records }
{}

/// Where records stand in a list of words follows from the records.
pub fn same_spans()
    ensures { (words : List ℕ) (records : List Record) → IsLogText words records
        → spans_in words ≡ spans_from 0 records }
{}

/// Each record of a log stands at its place, and takes as many words as it says.
pub fn each_span()
    ensures span { (words : List ℕ) (records : List Record) → IsLogText words records
        → (i place len : ℕ) → slice_get (spans_from 0 records) i ≡ Some (place, len)
        → (r : Record) × (slice_get records i ≡ Some r) × (len ≡ record_len r)
        × BeginsWith (drop place words) r (record_len r) }

    ensures record { (words : List ℕ) (records : List Record) → IsLogText words records
        → (i : ℕ) (r : Record) → slice_get records i ≡ Some r
        → (place : ℕ) × (slice_get (spans_from 0 records) i ≡ Some (place, record_len r))
        × BeginsWith (drop place words) r (record_len r) }
{}

/// The words of a log at rest are the text of its stable records.
pub fn begins_at_rest()
    ensures { (now : List ℕ) (dirty : ℕ → Bool) (end : ℕ) (stable : List Record) → IsAtRest now dirty end stable
        → IsLogText (words_of now) stable }
{}

/// A stop leaves of a log at rest its stable records.
pub fn images_at_rest()
    ensures { (now : List ℕ) (dirty : ℕ → Bool) (end : ℕ) (stable : List Record) → IsAtRest now dirty end stable
        → EachImage now dirty (λ words. IsLogText words stable) }
{}

/// A stop leaves of a log whose gate is being opened, or closed, the group after it or not.
pub fn images_at_gate()
    ensures { (gate : ℕ) (now : List ℕ) (dirty : ℕ → Bool) (end words : ℕ) (stable group : List Record)
        → IsOpening gate now dirty end words stable group → EachImage now dirty (IsWithOrWithout stable group) }
{}
