//! What the thread of a transaction does at a desk.
ghost use Rattle.std.specs.Prelude.{◌≡◌, ◌<◌, ℕ, vec_len, IfOk, OnErr, true, ◌↔◌, ◌+◌, ◌≤◌, ◌||◌, IfErr, IsTrue, drop};
ghost use Rattle.std.specs.Prelude.{length, take, [], None, Some, slice_get};
ghost use Rattle.lc_model.specs.declared.event.Event.TheVariants.{Begin, SetRange, Write, Read};
ghost use Rattle.lc_desk.specs.FollowsDesk.{FollowsOpen, StillFits};
ghost use Rattle.lc_desk.specs.Here.{the_images};
ghost use Rattle.lc_desk.specs.MayReply.{done_or, may_refuse_begin, may_refuse_range, may_refuse_write, may_read};
ghost use Rattle.lc_desk.specs.MayReply.{may_refuse_read, may_end};
ghost use Rattle.lc_desk.specs.Growing.{MayReadSome};
ghost use Rattle.lc_record.specs.Transaction.{is_member};
ghost use Rattle.lc_model.specs.declared.reply.Reply.TheVariants.{Bytes, Refused};
ghost use Rattle.lc_desk.specs.Prepares.{HasRoom, IsShort, IsUnsealed, Keeps, Prepares, WantsRecord};
ghost use Rattle.lc_tx.specs.declared.tx.Tx.{Tx as Kept};
ghost use Rattle.lc_desk.specs.Seat.{Seat as Sitting, Open, open_of, reserved_of, open_in};
ghost use Rattle.lc_desk.specs.Counts.{is_on, names_page};
ghost use Rattle.lc_desk.specs.Reserves.{Reserves, ClosesSeat, EndsEmpty};
ghost use Rattle.lc_desk.specs.OpenTransactions.{open_at};
ghost use Rattle.lc_desk.specs.Uncommitted.{HasSeatOn, SetsPage};

use crate::desk::Desk;
use crate::ending::Ending;
use crate::here::Here;
use crate::log_end::LogEnd;
use crate::refused::{refusal_of, refused};
use crate::seat::Seat;
use lc_model::{Refusal, Reply};
use lc_page::PAGE_BYTES;
use lc_range::Range;
use lc_record::Items;
use lc_tx::{Image, Tx};
use std::alloc::{AllocError, Global};
use std::mem;

impl Desk {
    ghost use Rattle.lc_desk.specs.FollowsDesk.{FollowsOpen, StillFits};
    ghost use Rattle.lc_desk.specs.Growing.{MaySetMore};
    ghost use Rattle.lc_desk.specs.FollowsDesk.{FollowsOpen};

    /// A thread begins a transaction: it locks `segments` for writing and `reading` for reading. No more than 16 can be
    /// locked, so it takes no memory.
    pub fn begin(
        &mut self,
        thread: u16,
        segments: &[u32],
        reading: &[u32],
    ) -> Result<Reply, AllocError>
        requires seat { thread < vec_len self.old.seats }
        ensures follows { IfOk result (λ reply. (node : ℕ)
            → FollowsOpen node self.old (Begin node thread segments.now reading.now) reply self.new) }
        ensures beside { the_images.IsSameBeside self.old.here self.new.here }
        ensures err { OnErr result (StillFits self.old self.new) }
        ensures memory { OnErr result ⊥ }
        ensures seats { vec_len self.new.seats ≡ vec_len self.old.seats }
        ensures names { IfOk result (λ reply. done_or may_refuse_begin reply ≡ true) }
    {
        let seat = &mut self.seats[thread as usize];
        if !seat.is_free() {
            return Ok(Reply::Refused(Refusal::OutOfTurn));
        }
        match seat.begin(&mut self.here, thread, segments, reading) {
            Ok(()) => Ok(Reply::Ok),
            Err(fault) => refused(fault),
        }
    }

    /// A thread is about to change `len` bytes of a segment from `offset` on, in its open transaction. It takes memory
    /// only where it is not refused and a position is not set yet.
    pub fn set_range(
        &mut self,
        thread: u16,
        segment: u32,
        offset: u32,
        len: u32,
    ) -> Result<Reply, AllocError>
        requires seat { thread < vec_len self.old.seats }
        ensures follows { IfOk result (λ reply. (node : ℕ)
            → FollowsOpen node self.old (SetRange node thread segment offset len) reply self.new) }
        ensures beside { the_images.IsSameBeside self.old.here self.new.here }
        ensures err { OnErr result (StillFits self.old self.new) }
        ensures memory { OnErr result (MaySetMore thread segment offset len self.old) }
        ensures seats { vec_len self.new.seats ≡ vec_len self.old.seats }
        ensures names { IfOk result (λ reply. done_or may_refuse_range reply ≡ true) }
    {
        let seat = &mut self.seats[thread as usize];
        if !seat.is_open() {
            return Ok(Reply::Refused(Refusal::OutOfTurn));
        }
        match seat.set_range(&mut self.here, segment, offset, len) {
            Ok(()) => Ok(Reply::Ok),
            Err(fault) => refused(fault),
        }
    }

    /// A thread writes bytes inside the ranges that its open transaction set. It takes no memory.
    pub fn write(&mut self, thread: u16, segment: u32, offset: u32, bytes: &[u8]) -> Reply
        requires seat { thread < vec_len self.old.seats }
        ensures follows { (node : ℕ) → FollowsOpen node self.old
            (Write node thread segment offset bytes.now) result self.new }
        ensures beside { the_images.IsSameBeside self.old.here self.new.here }
        ensures seats { vec_len self.new.seats ≡ vec_len self.old.seats }
        ensures names { done_or may_refuse_write result ≡ true }
    {
        let Some(tx) = self.seats[thread as usize].open() else {
            return Reply::Refused(Refusal::OutOfTurn);
        };
        match tx.write(&mut self.here, segment, offset, bytes) {
            Ok(()) => Reply::Ok,
            Err(fault) => Reply::Refused(refusal_of(fault)),
        }
    }

    /// A thread reads bytes of a segment that it locked. It takes memory only where it is not refused; no bytes take
    /// none.
    pub fn read(
        &mut self,
        alloc: Global,
        thread: u16,
        segment: u32,
        offset: u32,
        len: u32,
    ) -> Result<Reply, AllocError>
        requires seat { thread < vec_len self.old.seats }
        ensures follows { IfOk result (λ reply. (node : ℕ)
            → FollowsOpen node self.old (Read node thread segment offset len) reply self.new) }
        ensures beside { the_images.IsSameBeside self.old.here self.new.here }
        ensures err { OnErr result (StillFits self.old self.new) }
        ensures memory { OnErr result (MayReadSome thread segment offset len self.old) }
        ensures seats { vec_len self.new.seats ≡ vec_len self.old.seats }
        ensures names { IfOk result (λ reply. may_read reply ≡ true) }
    {
        let Some(tx) = self.seats[thread as usize].open() else {
            return Ok(Reply::Refused(Refusal::OutOfTurn));
        };
        match tx.read(alloc, &mut self.here, segment, offset, len) {
            Ok(bytes) => Ok(Reply::Bytes(Items::new(bytes))),
            Err(fault) => refused(fault),
        }
    }

    /// The bytes of a segment that a thread's open transaction locked. It takes no memory.
    ///
    /// # Errors
    ///
    /// `OutOfTurn`, `NotLocked` and `OutOfSegment`, looked at in this order.
    pub fn bytes(
        &self,
        thread: u16,
        segment: u32,
        offset: u32,
        len: usize,
    ) -> Result<&[u8], Refusal>
        requires seat { thread < vec_len self.now.seats }
        ensures bytes { IfOk result (λ bytes. (node : ℕ)
            → FollowsOpen node self.now (Read node thread segment offset len) (Bytes bytes.now) self.now) }
        ensures refused { IfErr result (λ refusal. (node : ℕ)
            → FollowsOpen node self.now (Read node thread segment offset len) (Refused refusal) self.now) }
        ensures len { IfOk result (λ bytes. length bytes.now ≡ len) }
        ensures names { IfErr result (λ refusal. may_refuse_read refusal ≡ true) }
    {
        let Some(tx) = self.seats[thread as usize].open() else {
            return Err(Refusal::OutOfTurn);
        };
        if !holds(tx, segment) {
            return Err(Refusal::NotLocked);
        }
        let bytes = self.here.shown(segment).bytes();
        if !lies_within(bytes, offset, len) {
            return Err(Refusal::OutOfSegment { area: None });
        }
        Ok(window(bytes, offset, len))
    }

    /// The record of a thread's open transaction at the end of the node's log, if there is room for it. It takes memory
    /// only for the record's words, and only where that of the desk, which it uses up, has no room for them.
    pub fn prepare(
        &mut self,
        alloc: Global,
        node: u16,
        thread: u16,
        log: LogEnd,
    ) -> Result<Ending, AllocError>
        requires seat { thread < vec_len self.old.seats }
        requires node { node ≤ 7 }
        requires end { log.end ≤ log.room }
        ensures prepares { IfOk result (λ ending. Prepares node thread log self.old ending self.new) }
        ensures still { IfOk result (λ ending. Keeps self.old ending self.new) }
        ensures room { IfOk result (λ ending. HasRoom log ending) }
        ensures unsealed { IfOk result (λ ending. IsUnsealed log ending) }
        ensures beside { the_images.IsSameBeside self.old.here self.new.here }
        ensures memory { OnErr result (WantsRecord node thread log self.old) }
        ensures kept { OnErr result (IsShort node thread self.old) }
        ensures err { OnErr result (StillFits self.old self.new) }
        ensures seats { vec_len self.new.seats ≡ vec_len self.old.seats }
        ensures names { IfOk result (λ ending. may_end ending ≡ true) }
    {
        let Some(tx) = self.seats[thread as usize].open() else {
            return Ok(Ending::Refused(Refusal::OutOfTurn));
        };
        let layout = match tx.layout(&self.here) {
            Ok(Some(layout)) => layout,
            Ok(None) => {
                self.end_empty(thread);
                return Ok(Ending::Empty);
            }
            Err(fault) => return Ok(Ending::Refused(refusal_of(fault))),
        };
        if log.sealed {
            return Ok(Ending::Refused(Refusal::Sealed));
        }
        let need = layout.words() as u32;
        if need > log.room - log.end {
            return Ok(Ending::Refused(Refusal::Full {
                tail: log.end,
                need,
            }));
        }
        let memory = mem::replace(&mut self.memory, Vec::new(alloc));
        let words = tx.spell_end(memory, &mut self.here, node, &layout)?;
        Ok(Ending::Record(words))
    }

    /// The thread's open transaction is the node's record of this number, from 0, and is not closed yet. Where the
    /// thread has none, nothing changes. It takes no memory.
    pub fn reserve(&mut self, thread: u16, number: u64)
        requires seat { thread < vec_len self.old.seats }
        ensures reserves { Reserves thread number self.old self.new }
        ensures none { (seat : Sitting) → slice_get self.old.seats.items thread ≡ Some seat → open_of seat ≡ None
            → self.new.seats.items ≡ self.old.seats.items }
        ensures here { self.new.here ≡ self.old.here }
        ensures seats { vec_len self.new.seats ≡ vec_len self.old.seats }
    {
        self.seats[thread as usize].reserve(number);
    }

    /// The thread's reservation is closed, and its number answered: the tokens of its segments count the record, under
    /// whose next numbers its pages are changed, and its locks are free. Where the thread has none, nothing changes. It
    /// takes no memory.
    pub fn close(&mut self, thread: u16) -> Option<u64>
        requires seat { thread < vec_len self.old.seats }
        ensures closes { ClosesSeat thread self.old result self.new }
        ensures seats { vec_len self.new.seats ≡ vec_len self.old.seats }
    {
        let seat = &mut self.seats[thread as usize];
        let number = seat.number()?;
        self.here.count(seat.ranges());
        seat.release(&mut self.here);
        Some(number)
    }

    /// The thread's open transaction, which has set nothing, is over: its locks are free. Where the thread has none,
    /// nothing changes. It takes no memory.
    pub(crate) fn end_empty(&mut self, thread: u16)
        requires seat { thread < vec_len self.old.seats }
        requires empty { (tx : Kept) → slice_get self.old.seats.items thread ≡ Some (Open tx) → tx.set ≡ [] }
        ensures ends { EndsEmpty thread self.old self.new }
        ensures none { (seat : Sitting) → slice_get self.old.seats.items thread ≡ Some seat → open_of seat ≡ None
            → (self.new.here ≡ self.old.here) × (self.new.seats.items ≡ self.old.seats.items) }
        ensures beside { the_images.IsSameBeside self.old.here self.new.here }
        ensures seats { vec_len self.new.seats ≡ vec_len self.old.seats }
    {
        let seat = &mut self.seats[thread as usize];
        if seat.is_open() {
            seat.release(&mut self.here);
        }
    }

    /// The transaction that a thread has open, if it has one.
    pub fn open_transaction(&self, thread: u16) -> Option<&Tx>
        ensures { open_in result ≡ open_at (slice_get self.now.seats.items thread) }
    {
        match self.seats.get(thread as usize) {
            Some(seat) => seat.open(),
            None => None,
        }
    }

    /// Whether a transaction of this node that is open, or reserved and not closed, has set a position on a page. It
    /// takes no memory.
    pub fn is_uncommitted(&self, segment: u32, page: u32) -> bool
        ensures { IsTrue result ↔ HasSeatOn segment page self.now.seats.items }
    {
        for seat in self.seats.iter() {
            if sets_page(seat, segment, page) {
                return true;
            }
        }
        false
    }
}

impl Here {
    // The image of a segment, from 1, whether its token is here or not; of any other the spare one.
    fn shown(&self, segment: u32) -> &Image
        ensures { result.now ≡ the_images.image_of self.now segment }
    {
        let Some(place) = (segment as usize).checked_sub(1) else {
            return &self.spare;
        };
        match self.slots.get(place) {
            Some(slot) => &slot.image,
            None => &self.spare,
        }
    }
}

// Whether the transaction has locked the segment, for writing or for reading.
fn holds(tx: &Tx, segment: u32) -> bool
    ensures { result ≡ (is_member segment tx.now.locked.items || is_member segment tx.now.reading.items) }
{
    if tx.locked().contains(&segment) {
        return true;
    }
    tx.reading().contains(&segment)
}

// Whether so many bytes from an offset on lie among these.
fn lies_within(bytes: &[u8], offset: u32, len: usize) -> bool
    ensures { IsTrue result ↔ (offset + len ≤ length bytes.now) }
{
    len <= bytes.len() && offset as usize <= bytes.len() - len
}

// So many bytes of these from an offset on.
fn window(bytes: &[u8], offset: u32, len: usize) -> &[u8]
    requires within { offset + len ≤ length bytes.now }
    ensures window { result.now ≡ take len (drop offset bytes.now) }
    ensures len { length result.now ≡ len }
{
    let start = offset as usize;
    &bytes[start..start + len]
}

// Whether what holds locks for the thread has set a position on the page.
fn sets_page(seat: &Seat, segment: u32, page: u32) -> bool
    ensures { IsTrue result ↔ SetsPage segment page seat.now }
{
    names_page(seat.ranges(), segment, page)
}

// Whether one of these ranges has a position on the page.
fn names_page(ranges: &[Range], segment: u32, page: u32) -> bool
    ensures { result ≡ names_page segment page ranges.now }
{
    ranges
        .iter()
        .any(|range| range.segment == segment && is_on(range, page))
}

// Whether the range has a position on this page of its segment.
fn is_on(range: &Range, page: u32) -> bool
    ensures { result ≡ is_on range.now.offset range.now.len page }
{
    let start = page as usize * PAGE_BYTES;
    let offset = range.offset as usize;
    offset < start + PAGE_BYTES && start < offset + range.len as usize
}
