//! What a seat knows, and the rule of the staging words.
use atomic_table::TableRule;
use std::collections::LinkedList;

/// A run of places that one seat has reserved in a round. Its header, the first of its words, is 0 until it is closed.
/// No value of it is made.
pub struct Reservation {
    pub round: u64,
    pub place: u64,
    pub words: LinkedList<u64>,
    pub closed: bool,
    /// How many loads of places the flusher had made when it was closed.
    pub after: u64,
}

/// A place that the flusher loaded, and the word that it found there.
pub struct Load {
    pub place: u64,
    pub word: u64,
}

/// What a seat at the table knows. No value of it is made.
pub struct StageView {
    /// The number of places.
    pub room: u64,
    /// The tail that this seat saw last.
    pub seen: u64,
    /// The durable end that it saw last.
    pub durable: u64,
    /// Its reservations, the newest first.
    pub mine: LinkedList<Reservation>,
    /// Those of which it has a receipt, the newest receipt first.
    pub receipts: LinkedList<Reservation>,
    /// Whether the seat is the flusher's.
    pub flushes: bool,
    /// The words that the flusher has taken in each round that has ended.
    pub past: LinkedList<LinkedList<u64>>,
    /// The words that it has taken in this round.
    pub taken: LinkedList<u64>,
    /// The places of this round below it are cleared.
    pub cleared: u64,
    /// Whether the flusher has sealed this round.
    pub sealed: bool,
    /// The offset at which it has sealed it.
    pub sealed_at: u64,
    /// The offset at which it sealed the round before.
    pub ended: u64,
    /// The places of the round before below it are cleared.
    pub ended_cleared: u64,
    /// The loads of places that it has made.
    pub loads: LinkedList<Load>,
    /// The durable end that it stored last.
    pub published: u64,
    /// The greatest tail of which it was told.
    pub heard: u64,
}

/// Word 0 is the tail, word 1 the durable end, and after them stand two rows of places: of W places, the place p of the
/// round r is the word 2 + (r mod 2) * W + p.
pub struct Staging;

impl TableRule<(), StageView, u64> for Staging {
    ghost use Rattle.lc_stage.specs.Staging.{Staged, flusher};

    ghost holds = { Staged };

    ghost first = { flusher };
}
