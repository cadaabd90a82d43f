//! The word of a lock: in its high half the next ticket to be drawn, in its low half the one that is served.
//! Each half wraps by itself.
ghost use Rattle.std.specs.Prelude.{◌≡◌, ◌≢◌, ℕ, ◌+◌, ◌-◌, ◌*◌, ◌/◌, ◌%◌, ◌^◌, ◌<◌, ◌↔◌, IsTrue};

// One drawn ticket more.
pub(crate) const DRAWN: u64 = 1 << 32;

// One served ticket more, where the low half does not wrap.
const SERVED: u64 = 1;

// The next ticket to be drawn.
pub(crate) fn next_in(word: u64) -> u32
    ensures { result ≡ word / 2 ^ 32 }
{
    (word / DRAWN) as u32
}

// The ticket that is served.
pub(crate) fn served_in(word: u64) -> u32
    ensures { result ≡ word % 2 ^ 32 }
{
    (word % DRAWN) as u32
}

// Whether all tickets but one are out. With one more the halves would be equal again, as where none is out.
pub(crate) fn is_full(word: u64) -> bool
    ensures { IsTrue result ↔ ((word / 2 ^ 32 + 1) % 2 ^ 32 ≡ word % 2 ^ 32) }
{
    next_in(word).wrapping_add(1) == served_in(word)
}

// How many tickets are out.
pub(crate) fn out_in(word: u64) -> u32
    ensures { result ≡ (word / 2 ^ 32 + 2 ^ 32 - word % 2 ^ 32) % 2 ^ 32 }
{
    next_in(word).wrapping_sub(served_in(word))
}

// How many tickets are served before this one is, where that one is served now.
pub(crate) fn ahead_of(ticket: u32, served: u32) -> u32
    ensures { result ≡ (ticket + 2 ^ 32 - served) % 2 ^ 32 }
{
    ticket.wrapping_sub(served)
}

// Whether somebody waits after the holder of a ticket, by the word as the holder found it: the next ticket to be drawn
// is then not the one after the holder's.
pub(crate) fn has_waiters(found: u64, ticket: u32) -> bool
    ensures { IsTrue result ↔ (found / 2 ^ 32 ≢ (ticket + 1) % 2 ^ 32) }
{
    next_in(found) != ticket.wrapping_add(1)
}

// What serves the next ticket where it is added to the word, which wraps at 2^64.
pub(crate) fn to_next(served: u32) -> u64
    ensures { (next : ℕ) → next < 2 ^ 32
        → (next * 2 ^ 32 + served + result) % 2 ^ 64 ≡ next * 2 ^ 32 + (served + 1) % 2 ^ 32 }
{
    if served == u32::MAX {
        SERVED.wrapping_sub(DRAWN)
    } else {
        SERVED
    }
}
