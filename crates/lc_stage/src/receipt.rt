//! What tells that a record is durable.
use crate::layout::ROUNDS;

/// A record that is durable: its round, its place and how many words it has. `durable` alone makes one.
#[derive(Clone, Copy, Debug)]
pub struct Receipt {
    pub(crate) round: u64,
    pub(crate) place: u32,
    pub(crate) words: u32,
}

// The receipt of no record.
pub(crate) const NONE: Receipt = Receipt {
    round: 0,
    place: 0,
    words: 0,
};

impl Receipt {
    ghost use Rattle.std.specs.Prelude.{◌≡◌, ◌<◌, ◌+◌, ◌*◌, ◌^◌, nat_lt, true, false};
    ghost use Rattle.lc_stage.specs.Receipts.{rank_in};

    /// The round in which it was reserved.
    pub fn round(&self) -> u64
        ensures { result ≡ self.now.round }
    {
        self.round
    }

    /// The place of its header.
    pub fn place(&self) -> u32
        ensures { result ≡ self.now.place }
    {
        self.place
    }

    /// How many words it has.
    pub fn words(&self) -> u32
        ensures { result ≡ self.now.words }
    {
        self.words
    }

    // The durable end at which it is durable.
    pub(crate) fn end(&self) -> u64
        requires { (self.now.round < 2 ^ 48) × (self.now.place + self.now.words < 32768) }
        ensures { result ≡ self.now.round * 65536 + self.now.place + self.now.words }
    {
        self.round * ROUNDS + self.place as u64 + self.words as u64
    }

    // Whether it is later by round and place than another, and has words.
    pub(crate) fn is_after(&self, other: &Receipt) -> bool
        requires { (self.now.round < 2 ^ 48) × (other.now.round < 2 ^ 48) × (self.now.place < 32768)
            × (other.now.place < 32768) }
        ensures { result ≡ nat_lt (rank_in other.now) (rank_in self.now) }
    {
        let mine = self.round * ROUNDS + self.place as u64;
        let theirs = other.round * ROUNDS + other.place as u64;
        self.words != 0 && (other.words == 0 || theirs < mine)
    }

    // The later of the two by round and place, or the other where they are at one place.
    pub(crate) fn or_later(self, other: Receipt) -> Receipt
        requires { (self.round < 2 ^ 48) × (other.round < 2 ^ 48) × (self.place < 32768) × (other.place < 32768) }
        ensures mine { nat_lt (rank_in other) (rank_in self) ≡ true → result ≡ self }
        ensures theirs { nat_lt (rank_in other) (rank_in self) ≡ false → result ≡ other }
    {
        if self.is_after(&other) { self } else { other }
    }
}
