//! The bells of a lock, at which those sleep who wait long: words beside that of the tickets. A bell's low bit says
//! that somebody may sleep at it, and above that it counts how often it rang. While a ticket waits its bell rings for
//! tickets before it alone, far too seldom to come round to what it was.
ghost use Rattle.std.specs.Prelude.{◌≡◌, ◌+◌, ◌%◌, ◌^◌, ◌↔◌, ◌∷◌, IsTrue, replicate};
ghost use Rattle.lc_lock.specs.TicketQueue.{word_of};
ghost use Rattle.lc_lock.specs.Bells.{IsAwaited, IsBell, awaited, bell_at};

use crate::tickets::DRAWN;
use crate::turn::WORD;

// How many bells a lock has. Who sleeps is woken with those alone whose tickets are so many apart, or a multiple of it.
const BELLS: usize = 16;

// How many words a lock has: that of the tickets, and its bells.
pub(crate) const WORDS: usize = 1 + BELLS;

// The bit which says that somebody may sleep at a bell.
pub(crate) const SLEEPER: u64 = 1;

// One ring more, where that bit is set: it is carried into the count.
pub(crate) const RING: u64 = 1;

// A thread sleeps on the low bits of a word, which are below this.
const SLEPT_ON: u64 = 1 << 32;

// The words of a lock whose maker has the first ticket, and where nobody sleeps.
pub(crate) fn first_words() -> [u64; WORDS]
    ensures { result ≡ word_of 1 0 ∷ replicate BELLS 0 }
{
    let mut words = [0; WORDS];
    words[WORD] = DRAWN;
    words
}

// The place of the bell at which who has this ticket sleeps.
pub(crate) fn bell_of(ticket: u32) -> usize
    ensures place { result ≡ bell_at ticket }
    ensures bell { IsBell result }
{
    1 + ticket as usize % BELLS
}

// The place of the bell at which who has the ticket after this one sleeps.
pub(crate) fn bell_behind(ticket: u32) -> usize
    ensures place { result ≡ bell_at ((ticket + 1) % 2 ^ 32) }
    ensures bell { IsBell result }
{
    bell_of(ticket.wrapping_add(1))
}

// Whether somebody may sleep at a bell.
pub(crate) fn is_awaited(bell: u64) -> bool
    ensures { IsTrue result ↔ IsAwaited bell }
{
    bell & SLEEPER != 0
}

// What to sleep on at a bell that is found so: the low bits of what it is once its bit is set.
#[tactic(auto, using(crate::proofs::LowBit::sets_bit))]
pub(crate) fn heard_at(found: u64) -> u32
    ensures { result ≡ awaited found % 2 ^ 32 }
{
    ((found | SLEEPER) % SLEPT_ON) as u32
}
