//! The records that a node reserved, in the order of their reservations.
ghost use Rattle.std.specs.Prelude.{◌≡◌, ◌+◌, ◌-◌, ◌<◌, ◌≤◌, ◌^◌, List, [], ◌∷◌, ◌++◌, map, length, take, drop};
ghost use Rattle.std.specs.Prelude.{true, false, Some, IfOk, OnErr, All, slice_get, count_by};
ghost use Rattle.lc_model.specs.History.{leading};
ghost use Rattle.lc_journal.specs.Records.{Lie, Spelled, all_words, closed_from, count_of, front_of, span_of};
ghost use Rattle.lc_journal.specs.Records.{places_of};
ghost use Rattle.lc_journal.specs.Records.{shifted, closed_at};

use crate::record_end::RecordEnd;
use std::alloc::{AllocError, Global};
use std::marker::Model;

// The number of the last record, and one.
const MOST_RECORDS: u64 = (1 << 63) - 1;

/// The records of a node since the last recovery, as one list of words, with the place of each. Those in front may have
/// been dropped; a record keeps its number, which counts all that were reserved before it. What is dropped is moved out
/// only where it is more than half of the words, so that a word is moved once for each that goes at most.
#[derive(Drop)]
pub struct Records {
    pub words: Vec<u64>,
    places: Vec<RecordEnd>,
    // The number of the record at the first place.
    first: u64,
    // How many of the places, from the first, are of records that were dropped.
    gone: usize,
    // How many places stand in front of the first record that is not closed.
    leading: usize,
}

impl Model for Records {
    ghost use Rattle.std.specs.Prelude.{◌+◌, drop};
    ghost use Rattle.lc_journal.specs.Records.{KeptRecords, spelled, AreKept};

    ghost Value = { KeptRecords };

    ghost view = { λ r.
        record { before = r.first + r.gone; records = drop r.gone (spelled 0 r.words.items r.places.items) } };

    ghost invariant = { λ r. AreKept r.first r.words.items r.places.items r.gone r.leading };
}

impl Records {
    /// None. It takes no memory.
    pub fn new(alloc: Global) -> Records
        ensures { result ≡ record { before = 0; records = [] } }
    {
        Records {
            words: Vec::new(alloc),
            places: Vec::new(alloc),
            first: 0,
            gone: 0,
            leading: 0,
        }
    }

    /// None, after so many that were dropped: the next has their number. It takes no memory.
    pub(crate) fn behind(alloc: Global, dropped: u64) -> Records
        requires { dropped < 2 ^ 63 }
        ensures { result ≡ record { before = dropped; records = [] } }
    {
        Records {
            words: Vec::new(alloc),
            places: Vec::new(alloc),
            first: dropped,
            gone: 0,
            leading: 0,
        }
    }

    /// How many were dropped.
    pub(crate) fn dropped_count(&self) -> u64
        ensures { result ≡ self.now.before }
    {
        self.first + self.gone as u64
    }

    /// How many were reserved.
    pub fn count(&self) -> u64
        ensures { result ≡ count_of self.now }
    {
        self.first + self.places.len() as u64
    }

    /// How many stand in front of the first that is not closed.
    pub(crate) fn front(&self) -> u64
        ensures { result ≡ front_of self.now }
    {
        self.first + self.leading as u64
    }

    /// How many are closed from this number on.
    pub(crate) fn closed_from(&self, number: u64) -> u64
        requires { self.now.before ≤ number }
        ensures { result ≡ closed_from number self.now }
    {
        let from = (number - self.first) as usize;
        closed_among(self.places.as_slice(), from) as u64
    }

    /// Adds a record of these words, which is not closed, and answers its number. It takes memory for each, and where
    /// memory is wanted, as after the last number, 2^63 - 2, nothing has changed.
    pub fn reserve(&mut self, words: &[u64]) -> Result<u64, AllocError>
        ensures number { IfOk result (λ number. number ≡ count_of self.old) }
        ensures added { IfOk result (λ _. self.new ≡ record self.old {
          records = self.old.records ++ record { words = words.now; closed = false } ∷ [];
        }) }
        ensures err { OnErr result (self.new ≡ self.old) }
    {
        let number = self.count();
        if number >= MOST_RECORDS {
            return Err(AllocError);
        }
        self.places.reserve(1)?;
        self.words.extend_from_slice(words)?;
        let place = RecordEnd {
            end: self.words.len(),
            closed: false,
        };
        self.places.push(place).unwrap();
        Ok(number)
    }

    /// Adds a record of these words, which is closed. It takes memory for them, and where memory is wanted, as after
    /// the last number, 2^63 - 2, nothing has changed.
    pub(crate) fn keep(&mut self, words: &[u64]) -> Result<(), AllocError>
        ensures kept { IfOk result (λ _. self.new ≡ record self.old {
          records = self.old.records ++ record { words = words.now; closed = true } ∷ [];
        }) }
        ensures err { OnErr result (self.new ≡ self.old) }
    {
        let number = self.reserve(words)?;
        self.close(number);
        Ok(())
    }

    /// Closes the record of this number, where it is kept.
    pub fn close(&mut self, number: u64)
        ensures { self.new ≡ closed_at number self.old }
    {
        if number < self.first + self.gone as u64 || number >= self.count() {
            return;
        }
        let place = (number - self.first) as usize;
        self.places[place].closed = true;
        self.leading = leading_from(self.places.as_slice(), self.leading);
    }

    /// The words of a record.
    pub fn words(&self, number: u64) -> &[u64]
        requires kept { self.now.before ≤ number }
        requires reserved { number < count_of self.now }
        ensures { (r : Spelled) → slice_get self.now.records (number - self.now.before) ≡ Some r
            → result.now ≡ r.words }
    {
        let place = (number - self.first) as usize;
        between(
            self.words.as_slice(),
            self.places.as_slice(),
            place,
            place + 1,
        )
    }

    /// The words of the records from one number up to another, one after another.
    pub(crate) fn span(&self, from: u64, to: u64) -> &[u64]
        requires kept { self.now.before ≤ from }
        requires order { from ≤ to }
        requires reserved { to ≤ count_of self.now }
        ensures { result.now ≡ span_of self.now from to }
    {
        between(
            self.words.as_slice(),
            self.places.as_slice(),
            (from - self.first) as usize,
            (to - self.first) as usize,
        )
    }

    /// Drops the records below this number, which are closed. It takes no memory, and over many calls the time of what
    /// is dropped.
    pub(crate) fn forget(&mut self, number: u64)
        requires kept { self.old.before ≤ number }
        requires closed { number ≤ front_of self.old }
        ensures { self.new ≡ record { before = number; records = drop (number - self.old.before) self.old.records } }
    {
        self.gone = (number - self.first) as usize;
        self.move_up();
    }

    // Moves what is kept to the front, where more than half of the words are of records that were dropped.
    fn move_up(&mut self)
        ensures { self.new ≡ self.old }
    {
        let gone = self.gone;
        let cut = start_of(self.places.as_slice(), gone);
        if cut <= self.words.len() / 2 {
            return;
        }
        self.words.drain(..cut);
        self.places.drain(..gone);
        shift(self.places.as_mut_slice(), cut);
        self.leading -= gone;
        self.first += gone as u64;
        self.gone = 0;
    }
}

// The words of the records from one place up to another.
fn between<'a>(words: &'a [u64], places: &[RecordEnd], from: usize, to: usize) -> &'a [u64]
    requires order { from ≤ to }
    requires within { to ≤ length places.now }
    requires lie { Lie words.now places.now }
    ensures { (rs : List Spelled) → places.now ≡ places_of 0 rs → words.now ≡ all_words rs
        → result.now ≡ all_words (take (to - from) (drop from rs)) }
{
    let start = start_of(places, from);
    let end = start_of(places, to);
    &words[start..end]
}

// Where the words begin of the record at this place, or those end of the last.
fn start_of(places: &[RecordEnd], place: usize) -> usize
    requires { place ≤ length places.now }
    ensures { (rs : List Spelled) → places.now ≡ places_of 0 rs → result ≡ length (all_words (take place rs)) }
{
    if place == 0 {
        return 0;
    }
    places[place - 1].end
}

// How many places stand in front of the first that is not closed, from so many that do.
fn leading_from(places: &[RecordEnd], known: usize) -> usize
    requires within { known ≤ length places.now }
    requires known { known + leading (drop known (map (λ p. p.closed) places.now))
        ≡ leading (map (λ p. p.closed) places.now) }
    ensures { result ≡ leading (map (λ p. p.closed) places.now) }
{
    let mut count = known;
    while count < places.len() && places[count].closed {
        count += 1;
    }
    count
}

// How many of the places from this one on are of records that are closed.
fn closed_among(places: &[RecordEnd], from: usize) -> usize
    ensures { result ≡ count_by (λ p. p.closed) (drop from places.now) }
{
    places.iter().skip(from).filter(|p| p.closed).count()
}

// The places are moved to the front by so many words.
fn shift(places: &mut [RecordEnd], cut: usize)
    requires { All (λ p. cut ≤ p.end) places.old }
    ensures { places.new ≡ map (shifted cut) places.old }
{
    for place in places.iter_mut() {
        place.end -= cut;
    }
}
