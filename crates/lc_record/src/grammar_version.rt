//! The versions of the grammar of records.
ghost use Rattle.std.specs.Prelude.{◌≡◌};
ghost use Rattle.lc_record.specs.GrammarVersion.{later, number, of_number, place_words, version_to};

use crate::limits::FIRST_END;

/// Which grammar a record is written in. It follows from where the record's ranges end. This project's own.
#[derive(Clone, Copy, PartialEq, Eq)]
pub enum GrammarVersion {
    /// Each range ends at or before 16,384, so that one word has its segment and its offset.
    First,
    /// Some range ends beyond 16,384.
    Second,
}

impl GrammarVersion {
    /// The version's number in a record.
    pub fn number(self) -> u8
        ensures { result ≡ number self }
    {
        match self {
            GrammarVersion::First => 1,
            GrammarVersion::Second => 2,
        }
    }

    /// The version of this number, or None exactly where there is none.
    pub fn of_number(number: u8) -> Option<GrammarVersion>
        ensures { result ≡ of_number number }
    {
        match number {
            1 => Some(GrammarVersion::First),
            2 => Some(GrammarVersion::Second),
            _ => None,
        }
    }

    /// The words of a range before its bytes.
    pub fn place_words(self) -> usize
        ensures { result ≡ place_words self }
    {
        match self {
            GrammarVersion::First => 2,
            GrammarVersion::Second => 3,
        }
    }

    /// The version of a record whose only range ends here.
    pub fn ending_at(end: u64) -> GrammarVersion
        ensures { result ≡ version_to end }
    {
        if end <= FIRST_END {
            return GrammarVersion::First;
        }
        GrammarVersion::Second
    }

    /// The later of the two.
    pub fn later(self, other: GrammarVersion) -> GrammarVersion
        ensures { result ≡ later self other }
    {
        match self {
            GrammarVersion::First => other,
            GrammarVersion::Second => GrammarVersion::Second,
        }
    }
}
