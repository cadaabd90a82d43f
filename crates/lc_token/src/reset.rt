//! Whether a log may be reset.
ghost use Rattle.std.specs.Prelude.{◌≡◌, ◌↔◌, ℕ, Err, IsOk};
ghost use Rattle.lc_model.specs.Merge.{IsLeastPair};
ghost use Rattle.lc_token.specs.KnownClean.{known as known_of};
ghost use Rattle.lc_token.specs.Reset.{AreKnown, AreRecords, IsAbove, IsAboveIn, IsLeastOf, above, is_before, lesser};

use crate::{KnownClean, Unclean};
use lc_record::{Lock, View};

/// Whether the pages are known to have all that the records of a log say: of each lock, the number is at most what is
/// known clean of its segment. The records are those with which the words begin, one after another; what comes after
/// the last has no lock. It takes no memory.
///
/// # Errors
///
/// Of the locks that are above what is known, the one of the least segment, and of that the one with the least number.
pub fn may_reset(words: &[u64], known: &KnownClean) -> Result<(), Unclean>
    ensures unclean { (segment seq : ℕ) → (result ≡ Err (record { segment = segment; seq = seq }))
        ↔ IsLeastPair (IsAbove words.now (known_of known.now)) segment seq }
    ensures clean { IsOk result ↔ AreKnown words.now (known_of known.now) }
{
    let mut place = 0;
    let mut least = None;
    while let Some(record) = View::at(words, place) {
        least = lesser(least, least_in(&record, known));
        place += record.len();
    }
    match least {
        Some(unclean) => Err(unclean),
        None => Ok(()),
    }
}

/// The same of words that are known to be those of whole records, one after another, as a log keeps them: of each
/// record only the length and the locks are read. It takes no memory.
///
/// # Errors
///
/// Those of `may_reset`.
pub fn may_reset_kept(words: &[u64], known: &KnownClean) -> Result<(), Unclean>
    requires { AreRecords words.now }
    ensures unclean { (segment seq : ℕ) → (result ≡ Err (record { segment = segment; seq = seq }))
        ↔ IsLeastPair (IsAbove words.now (known_of known.now)) segment seq }
    ensures clean { IsOk result ↔ AreKnown words.now (known_of known.now) }
{
    if let Some(least) = least_kept(words, known) {
        return Err(least);
    }
    Ok(())
}

// The least lock of these records that is above what is known.
fn least_kept(words: &[u64], known: &KnownClean) -> Option<Unclean>
    requires { AreRecords words.now }
    ensures { IsLeastOf (IsAbove words.now (known_of known.now)) result }
{
    let mut place = 0;
    let mut least = None;
    while place < words.len() {
        let record = View::kept_at(words, place);
        let own = least_in(&record, known);
        least = lesser(least, own);
        place += record.len();
    }
    least
}

// The least lock of the record that is above what is known.
fn least_in(view: &View<'_>, known: &KnownClean) -> Option<Unclean>
    ensures { IsLeastOf (IsAboveIn view.now.locks (known_of known.now)) result }
{
    let mut least = None;
    for index in 0..view.lock_count() {
        let Some(lock) = view.lock(index) else {
            break;
        };
        least = lesser(least, above(lock, known));
    }
    least
}

/// The lock, where its number is above what is known clean of its segment. It takes no memory.
pub fn above(lock: Lock, known: &KnownClean) -> Option<Unclean>
    ensures { result ≡ above (known_of known.now) lock }
{
    let Lock { segment, seq } = lock;
    (known.known_clean(segment) < seq).then_some(Unclean { segment, seq })
}

/// Of two locks the one of the lesser segment, and of the same segment the one with the lesser number; where there is
/// but one, that one. It takes no memory.
pub fn lesser(one: Option<Unclean>, other: Option<Unclean>) -> Option<Unclean>
    ensures { result ≡ lesser one other }
{
    match (one, other) {
        (Some(one), Some(other)) if is_before(other, one) => Some(other),
        (None, other) => other,
        (one, _) => one,
    }
}

// Of an earlier segment, or of the same under a lower number.
fn is_before(one: Unclean, other: Unclean) -> bool
    ensures { result ≡ is_before one other }
{
    (one.segment, one.seq) < (other.segment, other.seq)
}
