//! The calls of a lock.
ghost use Rattle.std.specs.Prelude.{◌≡◌, ◌%◌, ◌^◌, ◌<◌, [], IfNone, IfSome};
ghost use Rattle.lc_lock.specs.declared.turn.TicketState.TheVariants.{Idle};
ghost use Rattle.lc_lock.specs.TicketQueue.{IsWaiting, IsServed, holding, ticket_of};
ghost use Rattle.lc_lock.specs.Loans.{key_of, IsLoanOf};

use crate::bells::bell_behind;
use crate::patience::{Pause, pause_after};
use crate::plays::{Come, Draw, Serve, Take};
use crate::tickets::{DRAWN, ahead_of, has_waiters, is_full, next_in, out_in, served_in, to_next};
use crate::turn::{QueueSeat, SLOT, WORD};
use crate::{Keyed, Loan, TicketLock};
use std::sync::Wait;
use std::{hint, thread};

impl<T: Keyed<K>, K> TicketLock<T, K> {
    /// Waits until all who drew a ticket before have had the value and have given one back, and takes it. Who has the
    /// value and locks again waits for ever. It takes no memory. At most 2^32 - 1 tickets are out at a time: who comes
    /// then draws one once another is served.
    pub fn lock<R: Wait>(&self, rt: &R) -> (T, Loan<T, K>)
        ensures fits { T.fits (key_of self.now) result.0 }
        ensures loan { IsLoanOf self.now result.1 }
    {
        let (mut seat, ticket) = self.draw(rt);
        self.wait_for_turn(rt, &mut seat, ticket);
        let Some(value) = self.table.shared.exchange(&mut seat, SLOT, None) else {
            unreachable!();
        };
        (value, Loan { seat, ticket })
    }

    /// Gives a value back, which need not be the one that was lent, and serves the next ticket. It never waits, and
    /// takes no memory.
    pub fn unlock(&self, value: T, loan: Loan<T, K>)
        requires fits { T.fits (key_of self.now) value }
        requires loan { IsLoanOf self.now loan }
    {
        let Loan { mut seat, ticket } = loan;
        let found = self.give_back(&mut seat, ticket, value);
        if has_waiters(found, ticket) {
            self.ring(&mut seat, bell_behind(ticket));
        }
    }

    /// How many tickets are out at the moment of one load: that of the holder, and those of all who wait. It is a
    /// number to look at: nothing is said of it, since others draw and serve meanwhile.
    pub fn tickets_out(&self) -> u32 {
        out_in(self.table.shared.peek(WORD))
    }

    // A new seat with the next ticket. A plain addition could not be refused where all tickets are out, so it
    // exchanges.
    fn draw<R: Wait>(&self, rt: &R) -> (QueueSeat<T, K>, u32)
        ensures own { result.0.table_id ≡ self.now.table.shared.table_id }
        ensures waits { IsWaiting (key_of self.now) result.1 result.0.me }
    {
        let shared = &self.table.shared;
        let (mut word, mut seat) = shared.load_new_seat::<Come>(WORD);
        for _ in rt.forever() {
            if is_full(word) {
                thread::yield_now();
                word = shared.peek(WORD);
                continue;
            }
            let found = shared.compare_exchange::<Draw>(
                &mut seat,
                WORD,
                word,
                word.wrapping_add(DRAWN),
            );
            if found == word {
                return (seat, next_in(word));
            }
            word = found;
        }
        unreachable!()
    }

    // Waits until the seat's ticket is served, and takes the slot.
    fn wait_for_turn<R: Wait>(&self, rt: &R, seat: &mut QueueSeat<T, K>, ticket: u32)
        requires own { seat.old.table_id ≡ self.now.table.shared.table_id }
        requires waits { IsWaiting (key_of self.now) ticket seat.old.me }
        ensures own { seat.new.table_id ≡ self.now.table.shared.table_id }
        ensures served { IsServed T.fits (key_of self.now) ticket seat.new.me }
    {
        let mut looks = 0u32;
        for _ in rt.forever() {
            let Some(ahead) = self.look(seat, ticket) else {
                return;
            };
            match pause_after(looks, ahead) {
                Pause::Spin => hint::spin_loop(),
                Pause::Yield => thread::yield_now(),
                Pause::Sleep => {
                    if self.sleep(rt, seat, ticket) {
                        return;
                    }
                }
            }
            looks = looks.saturating_add(1);
        }
        unreachable!()
    }

    // Looks once whether the seat's ticket is served, and takes the slot where it is. Else it answers how many tickets
    // are served before.
    pub(crate) fn look(&self, seat: &mut QueueSeat<T, K>, ticket: u32) -> Option<u32>
        requires own { seat.old.table_id ≡ self.now.table.shared.table_id }
        requires waits { IsWaiting (key_of self.now) ticket seat.old.me }
        ensures own { seat.new.table_id ≡ self.now.table.shared.table_id }
        ensures served { IfNone result (IsServed T.fits (key_of self.now) ticket seat.new.me) }
        ensures waits { IfSome result (λ ahead. (0 < ahead) × IsWaiting (key_of self.now) ticket seat.new.me) }
    {
        let shared = &self.table.shared;
        let served = served_in(shared.load::<Take>(seat, WORD));
        if served == ticket {
            return None;
        }
        Some(ahead_of(ticket, served))
    }

    // Puts the value into the slot, which is empty, and serves the next ticket. It answers the word as it was before,
    // in which this ticket is the one that is served.
    fn give_back(&self, seat: &mut QueueSeat<T, K>, ticket: u32, value: T) -> u64
        requires own { seat.old.table_id ≡ self.now.table.shared.table_id }
        requires holds { seat.old ≡ holding seat.old }
        requires ticket { ticket ≡ ticket_of seat.old.me.0.turn % 2 ^ 32 }
        requires fits { T.fits (key_of self.now) value }
        ensures own { seat.new.table_id ≡ self.now.table.shared.table_id }
        ensures idle { (seat.new.me.0.turn ≡ Idle) × (seat.new.me.1 ≡ []) }
        ensures found { result % 2 ^ 32 ≡ ticket }
    {
        let shared = &self.table.shared;
        let before = shared.exchange(seat, SLOT, Some(value));
        let None = before else { unreachable!() };
        shared.fetch_add::<Serve>(seat, WORD, to_next(ticket))
    }
}
