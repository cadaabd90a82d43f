//! Where the shared words stand, and what a tail and a durable end are made of.

// The word of the tail: a round, whether it is sealed, and an offset.
pub(crate) const TAIL: usize = 0;

// The word of the durable end: a round and a place.
pub(crate) const DURABLE: usize = 1;

// How many words stand in front of the two rows of places.
pub(crate) const PLACES: usize = 2;

// A tail's offset lies below this, which a sealed tail has more.
pub(crate) const OFFSETS: u64 = 32768;

// From one round to the next.
pub(crate) const ROUNDS: u64 = 65536;

// No round comes after it.
pub(crate) const LAST_ROUND: u64 = 0xffff_ffff_ffff;
