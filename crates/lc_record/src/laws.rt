//! Laws of the grammar.
ghost use Rattle.std.specs.Prelude.{◌≡◌, ◌≢◌, ◌/◌, ◌^◌, ◌++◌, ℕ, List, length, get_or, map};
ghost use Rattle.lc_record.specs.Codec.{BeginsWith};
ghost use Rattle.lc_record.specs.Record.{header, IsRecord};
ghost use Rattle.lc_record.specs.Spans.{placed_spans, range_in};
ghost use Rattle.lc_record.specs.declared.record.Record.{Record};

/// No record is a prefix of another, so what was written is read again whatever follows it.
pub fn one_reading()
    ensures { (r q : Record) (a b x y : List ℕ) → IsRecord r a → IsRecord q b → a ++ x ≡ b ++ y → (r ≡ q) × (a ≡ b) }
{}

/// The first word of a record tells how many words it has, and is not zero.
pub fn header_tells_length()
    ensures { (r : Record) (words : List ℕ) → IsRecord r words
        → (get_or words 0 0 ≡ header r) × (get_or words 0 0 / 2 ^ 32 ≡ length words) × (get_or words 0 0 ≢ 0) }
{}

/// The ranges of a record are those whose bytes stand at the places of its spans, whatever follows it.
pub fn spans_give_ranges()
    ensures { (r : Record) (words : List ℕ) (len : ℕ) → BeginsWith words r len
        → map (range_in words) (placed_spans r) ≡ r.ranges }
{}
