//! The calls of a store that have names of their own.
ghost use Rattle.std.specs.Prelude.{◌≡◌, IfErr, IfOk, length, true, slice_get};
ghost use Rattle.lc_model.specs.declared.event.Event.TheVariants.{Abort, Begin, Close, Read, Reserve, SetRange, Write};
ghost use Rattle.lc_model.specs.declared.event.Event.TheVariants.{Arrive, Deliver, Leave, Trim, FlushStep, PageStep};
ghost use Rattle.lc_model.specs.declared.event.Event.TheVariants.{ResetStep};
ghost use Rattle.lc_model.specs.declared.reply.Reply.TheVariants.{Bytes, Refused};
ghost use Rattle.lc_core.specs.Answered.{ComesTo, Ends, Tries, takes_none};
ghost use Rattle.lc_events.specs.Answered.{done, place_taken, range_set, received, trimmed, emptied, flushed, written};
ghost use Rattle.lc_events.specs.Answered.{is_done_or_not};
ghost use Rattle.lc_core.specs.Truncating.{StepsTo, Repeats};
ghost use Rattle.lc_core.specs.OpenTransactions.{open_in_node, open_transaction, threads_of};
ghost use Rattle.lc_desk.specs.Seat.{open_in};
ghost use Rattle.lc_core.specs.Rounds.{ShowsRound, round_in};

use crate::up::Up;
use crate::world::World;
use crate::world_phase::WorldPhase;
use lc_disk::{Area, Stoppable};
use lc_events::reply_values::{
    done, flush_progress, placement, range_set, receipt, reset_progress, trimmed, write_progress,
};
use lc_events::{
    CallFault, DeliveryOutcome, FlushProgress, Placement, ResetProgress, WriteProgress,
};
use lc_model::{Event, Refusal, Reply};
use lc_tx::Tx;
use std::alloc::{AllocError, Global};

impl<D: Stoppable + Drop> World<D> {
    /// A thread of a node begins a transaction: it locks the segments `writing`, from 1, for writing and `reading` for
    /// reading, each taken as a set; a segment in both is locked for writing. It takes no memory.
    ///
    /// # Errors
    ///
    /// `Down`, `Unknown`, `Halted`, `OutOfTurn` where the thread has a transaction, and of the first segment that
    /// cannot be locked `NotHere` or `Busy`. Nothing has changed then.
    pub fn begin(
        &mut self,
        node: u16,
        thread: u16,
        writing: &[u32],
        reading: &[u32],
    ) -> Result<(), Refusal>
        ensures { StepsTo D.Area self.old (Begin node thread writing.now reading.now) (done result) self.new }
    {
        let reply = self.begin_reply(node, thread, writing, reading);
        done(&reply)
    }

    fn begin_reply(&mut self, node: u16, thread: u16, writing: &[u32], reading: &[u32]) -> Reply
        ensures { StepsTo D.Area self.old (Begin node thread writing.now reading.now) result self.new }
    {
        match &mut self.phase {
            WorldPhase::Up(up) => up.begin(node, thread, writing, reading),
            _ => Reply::Refused(Refusal::Down),
        }
    }

    /// The open transaction of a thread is about to change `len` bytes of a segment, from 1, from `offset` on. It takes
    /// memory only for positions that are not set yet.
    ///
    /// # Errors
    ///
    /// `Down`, `Unknown`, `Halted`, `OutOfTurn` without an open transaction, `NotLocked`, `ReadOnly`, `EmptyRange`,
    /// `OutOfSegment`, `TooManyRanges`, and `NoMemory`. Nothing has changed then.
    pub fn set_range(
        &mut self,
        _alloc: Global,
        node: u16,
        thread: u16,
        segment: u32,
        offset: u32,
        len: u32,
    ) -> Result<(), CallFault>
        ensures { ComesTo D.Area self.old (SetRange node thread segment offset len) (range_set result) self.new }
    {
        let reply = self.set_range_reply(node, thread, segment, offset, len)?;
        range_set(&reply)
    }

    fn set_range_reply(
        &mut self,
        node: u16,
        thread: u16,
        segment: u32,
        offset: u32,
        len: u32,
    ) -> Result<Reply, AllocError>
        ensures { Tries D.Area self.old (SetRange node thread segment offset len) result self.new }
    {
        match &mut self.phase {
            WorldPhase::Up(up) => up.set_range(node, thread, segment, offset, len),
            _ => Ok(Reply::Refused(Refusal::Down)),
        }
    }

    /// The open transaction of a thread writes bytes over those of a segment, from 1, from `offset` on, each at a
    /// position that it set. It takes no memory.
    ///
    /// # Errors
    ///
    /// `Down`, `Unknown`, `Halted`, `OutOfTurn` without an open transaction, `NotLocked`, `ReadOnly`, `OutOfSegment`
    /// and `NoRange`. Nothing has changed then.
    pub fn write(
        &mut self,
        node: u16,
        thread: u16,
        segment: u32,
        offset: u32,
        bytes: &[u8],
    ) -> Result<(), Refusal>
        ensures { StepsTo D.Area self.old (Write node thread segment offset bytes.now) (done result) self.new }
    {
        let reply = self.write_reply(node, thread, segment, offset, bytes);
        done(&reply)
    }

    fn write_reply(
        &mut self,
        node: u16,
        thread: u16,
        segment: u32,
        offset: u32,
        bytes: &[u8],
    ) -> Reply
        ensures { StepsTo D.Area self.old (Write node thread segment offset bytes.now) result self.new }
    {
        match &mut self.phase {
            WorldPhase::Up(up) => up.write(node, thread, segment, offset, bytes),
            _ => Reply::Refused(Refusal::Down),
        }
    }

    /// The `len` bytes of a segment, from 1, from `offset` on, which the open transaction of a thread locked for
    /// writing or for reading. It changes nothing and copies nothing, and takes no memory.
    ///
    /// # Errors
    ///
    /// `Down`, `Unknown`, `Halted`, `OutOfTurn` without an open transaction, `NotLocked` and `OutOfSegment`.
    pub fn bytes(
        &self,
        node: u16,
        thread: u16,
        segment: u32,
        offset: u32,
        len: usize,
    ) -> Result<&[u8], Refusal>
        ensures bytes { IfOk result (λ bytes.
            StepsTo D.Area self.now (Read node thread segment offset len) (Bytes bytes.now) self.now) }
        ensures refused { IfErr result (λ refusal.
            StepsTo D.Area self.now (Read node thread segment offset len) (Refused refusal) self.now) }
        ensures len { IfOk result (λ bytes. length bytes.now ≡ len) }
    {
        match &self.phase {
            WorldPhase::Up(up) => up.bytes(node, thread, segment, offset, len),
            _ => Err(Refusal::Down),
        }
    }

    /// Fills the buffer with the bytes of a segment, from 1, from `offset` on, which the open transaction of a thread
    /// locked for writing or for reading. It changes nothing of the store, and takes no memory.
    ///
    /// # Errors
    ///
    /// As of `bytes`. The buffer is then as before.
    pub fn read(
        &self,
        node: u16,
        thread: u16,
        segment: u32,
        offset: u32,
        buffer: &mut [u8],
    ) -> Result<(), Refusal>
        ensures bytes { IfOk result (λ _.
            StepsTo D.Area self.now (Read node thread segment offset (length buffer.old)) (Bytes buffer.new) self.now) }
        ensures refused { IfErr result (λ refusal.
            StepsTo D.Area self.now (Read node thread segment offset (length buffer.old)) (Refused refusal) self.now) }
        ensures kept { IfErr result (λ _. buffer.new ≡ buffer.old) }
        ensures len { length buffer.new ≡ length buffer.old }
    {
        match self.bytes(node, thread, segment, offset, buffer.len()) {
            Ok(bytes) => {
                buffer.copy_from_slice(bytes);
                Ok(())
            }
            Err(refusal) => Err(refusal),
        }
    }

    /// The open transaction of a thread is dropped: the segments have the bytes that they had, and its locks are free.
    /// It takes no memory.
    ///
    /// # Errors
    ///
    /// `Down`, `Unknown`, `Halted`, and `OutOfTurn` without an open transaction. Nothing has changed then.
    pub fn abort(&mut self, _alloc: Global, node: u16, thread: u16) -> Result<(), Refusal>
        ensures { StepsTo D.Area self.old (Abort node thread) (done result) self.new }
    {
        let reply = self.abort_reply(node, thread);
        done(&reply)
    }

    fn abort_reply(&mut self, node: u16, thread: u16) -> Reply
        ensures { StepsTo D.Area self.old (Abort node thread) result self.new }
    {
        match &mut self.phase {
            WorldPhase::Up(up) => up.abort(node, thread),
            _ => Reply::Refused(Refusal::Down),
        }
    }

    /// The open transaction of a thread gets its place in the log of its node; one that set nothing is over. Its locks
    /// are free once it is closed. It takes memory only for a record for which there is room.
    ///
    /// # Errors
    ///
    /// `Down`, `Unknown`, `Halted`, `OutOfTurn` without an open transaction, `SequenceSpent`, `TooLong`, `Sealed` while
    /// the log is being reset, `Full`, and `NoMemory`. Nothing has changed then, and the transaction is still open.
    pub fn reserve(&mut self, alloc: Global, node: u16, thread: u16) -> Result<Placement, CallFault>
        ensures { ComesTo D.Area self.old (Reserve node thread) (place_taken result) self.new }
    {
        let reply = self.reserve_reply(alloc, node, thread)?;
        placement(&reply)
    }

    fn reserve_reply(&mut self, alloc: Global, node: u16, thread: u16) -> Result<Reply, AllocError>
        ensures { Tries D.Area self.old (Reserve node thread) result self.new }
    {
        match &mut self.phase {
            WorldPhase::Up(up) => up.reserve(alloc, node, thread),
            _ => Ok(Reply::Refused(Refusal::Down)),
        }
    }

    /// The record that a thread reserved is complete: a flush may take it, and its locks are free. It takes no memory.
    ///
    /// # Errors
    ///
    /// `Down`, `Unknown`, `Halted`, and `OutOfTurn` where the thread has reserved none. Nothing has changed then.
    pub fn close(&mut self, _alloc: Global, node: u16, thread: u16) -> Result<(), Refusal>
        ensures { StepsTo D.Area self.old (Close node thread) (done result) self.new }
    {
        let reply = self.close_reply(node, thread);
        done(&reply)
    }

    fn close_reply(&mut self, node: u16, thread: u16) -> Reply
        ensures { StepsTo D.Area self.old (Close node thread) result self.new }
    {
        match &mut self.phase {
            WorldPhase::Up(up) => up.close(node, thread),
            _ => Reply::Refused(Refusal::Down),
        }
    }

    /// The open transaction of a thread ends (RVM's end_transaction): it gets its place in the log, and is closed
    /// there, so that its locks are free; one that set nothing is over. Its record is stable once a flush that took it
    /// is acknowledged. It takes memory as `reserve` does.
    ///
    /// # Errors
    ///
    /// As of `reserve`. Nothing has changed then, and the transaction is still open.
    pub fn end(&mut self, alloc: Global, node: u16, thread: u16) -> Result<Placement, CallFault>
        ensures { Ends D.Area node thread self.old result self.new }
    {
        match &mut self.phase {
            WorldPhase::Up(up) => up.end(alloc, node, thread),
            _ => Err(CallFault::Refused(Refusal::Down)),
        }
    }

    /// The token of a segment, from 1, leaves a node. It takes no memory.
    ///
    /// # Errors
    ///
    /// `Down`, `Unknown`, `Halted`, `NotHere`, `Held` by a transaction, `Writing` while a page of the segment is
    /// written, and `Unflushed`. Nothing has changed then.
    pub fn leave(&mut self, alloc: Global, node: u16, segment: u32) -> Result<(), Refusal>
        ensures { StepsTo D.Area self.old (Leave node segment) (done result) self.new }
    {
        self.carry_out(alloc, &Event::Leave { node, segment })
    }

    /// The token of a segment, from 1, that is on its way arrives at a node. It takes no memory.
    ///
    /// # Errors
    ///
    /// `Down`, `Unknown`, `Halted`, `OutOfTurn` where the token is not on its way, and `Behind` where the node has not
    /// applied all that the token has seen. Nothing has changed then.
    pub fn arrive(&mut self, alloc: Global, node: u16, segment: u32) -> Result<(), Refusal>
        ensures { StepsTo D.Area self.old (Arrive node segment) (done result) self.new }
    {
        self.carry_out(alloc, &Event::Arrive { node, segment })
    }

    /// The node `to` receives, for one segment from 1, the record of this number of those that the node `sender` has
    /// reserved, counted from 1. It takes memory only for a record that is new to the receiver.
    ///
    /// # Errors
    ///
    /// `Down`, `Unknown`, also where the sender has no such record, `Halted`, and `NoMemory`. Nothing has changed then.
    pub fn deliver(
        &mut self,
        alloc: Global,
        sender: u16,
        number: u64,
        segment: u32,
        to: u16,
    ) -> Result<DeliveryOutcome, CallFault>
        ensures { ComesTo D.Area self.old (Deliver sender number segment to) (received result) self.new }
    {
        let event = Event::Deliver {
            sender,
            number,
            segment,
            to,
        };
        let reply = self.step(alloc, &event)?;
        receipt(&reply)
    }

    /// A node drops the published records that all nodes have applied; how many, up to the first that some node has
    /// not. It takes no memory.
    ///
    /// # Errors
    ///
    /// `Down`, `Unknown` and `Halted`. Nothing has changed then.
    pub fn trim(&mut self, alloc: Global, node: u16) -> Result<u64, Refusal>
        ensures { StepsTo D.Area self.old (Trim node) (trimmed result) self.new }
    {
        let reply = self.call(alloc, &Event::Trim { node });
        trimmed(&reply)
    }

    /// One of the four device calls that make the closed records of a node stable. It takes no memory.
    ///
    /// # Errors
    ///
    /// `Down`, `Unknown`, `Halted`: nothing has changed then. `DeviceFault`: the node is halted from then on.
    pub fn flush_step(&mut self, alloc: Global, node: u16) -> Result<FlushProgress, Refusal>
        ensures { StepsTo D.Area self.old (FlushStep node) (flushed result) self.new }
    {
        let reply = self.call(alloc, &Event::FlushStep { node });
        flush_progress(&reply)
    }

    /// One of the six device calls that write a page, from 0, of a segment, from 1, whose token is at the node. It
    /// takes no memory.
    ///
    /// # Errors
    ///
    /// `Down`, `Unknown`, `Halted`, `NotHere`, `Uncommitted`, `Unflushed`, `NotNewer`: nothing has changed then.
    /// `DeviceFault`: the node is halted from then on.
    pub fn page_step(
        &mut self,
        alloc: Global,
        node: u16,
        segment: u32,
        page: u32,
    ) -> Result<WriteProgress, Refusal>
        ensures { StepsTo D.Area self.old (PageStep node segment page) (written result) self.new }
    {
        let event = Event::PageStep {
            node,
            segment,
            page,
        };
        let reply = self.call(alloc, &event);
        write_progress(&reply)
    }

    /// One of the four steps that empty the log of a node. It takes no memory.
    ///
    /// # Errors
    ///
    /// `Down`, `Unknown`, `Halted`, `Unflushed`, `Unclean`, `RoundsSpent`: nothing has changed then. `DeviceFault`: the
    /// node is halted from then on.
    pub fn reset_step(&mut self, alloc: Global, node: u16) -> Result<ResetProgress, Refusal>
        ensures { StepsTo D.Area self.old (ResetStep node) (emptied result) self.new }
    {
        let reply = self.call(alloc, &Event::ResetStep { node });
        reset_progress(&reply)
    }

    /// Makes the closed records of a node stable, as `flush_step` again and again, as long as more is to come: `Acked`
    /// with how many records of the node are acknowledged then, or `Nothing` where there was none to flush. It takes no
    /// memory.
    ///
    /// # Errors
    ///
    /// Those of `flush_step`.
    ///
    /// Idea: flush (RVM: Satyanarayanan et al., TOCS 1994).
    pub fn flush(&mut self, alloc: Global, node: u16) -> Result<FlushProgress, Refusal>
        ensures { Repeats D.Area 3 (FlushStep node) self.old (flushed result) self.new }
    {
        for _ in 1..CALLS {
            match self.flush_step(alloc, node)? {
                FlushProgress::Stepped(_) => {}
                ended => return Ok(ended),
            }
        }
        self.flush_step(alloc, node)
    }

    /// An event that is done or refused.
    pub(crate) fn carry_out(&mut self, alloc: Global, event: &Event) -> Result<(), Refusal>
        requires { is_done_or_not event.now ≡ true }
        ensures { StepsTo D.Area self.old event.now (done result) self.new }
    {
        let reply = self.call(alloc, event);
        done(&reply)
    }

    /// An event that wants no memory.
    pub(crate) fn call(&mut self, alloc: Global, event: &Event) -> Reply
        requires { takes_none event.now ≡ true }
        ensures { StepsTo D.Area self.old event.now result self.new }
    {
        match self.step(alloc, event) {
            Ok(reply) => reply,
            Err(_) => unreachable!(),
        }
    }
}

// The device calls of a flush.
const CALLS: u32 = 4;

impl<D: Area + Drop> World<D> {
    /// The transaction that a thread of a node has open: begun, and neither reserved nor over. None where the store is
    /// down, or has no such node or thread. It changes nothing and takes no memory.
    pub fn open_transaction(&self, node: u16, thread: u16) -> Option<&Tx>
        ensures { open_in result ≡ open_transaction D.Area self.now.phase node thread }
    {
        match &self.phase {
            WorldPhase::Up(up) => up.open_transaction(node, thread),
            _ => None,
        }
    }

    /// How many threads each node of a store that is up has, from 1 to 16; 0 where it is down.
    pub fn threads(&self) -> u16
        ensures { result ≡ threads_of D.Area self.now.phase }
    {
        match &self.phase {
            WorldPhase::Up(up) => up.running.geometry.threads,
            _ => 0,
        }
    }

    /// The round of a node's log, from 0: how many resets have ended since the store came up. It is 0 while the store
    /// is down, and where its geometry has no such node. It takes no memory, and nothing is read.
    pub fn round(&self, node: u16) -> u64
        ensures stands { result ≡ round_in D.Area self.now.phase node }
        ensures shows { ShowsRound D.Area self.now node result }
    {
        let WorldPhase::Up(up) = &self.phase else {
            return 0;
        };
        match up.running.nodes.get(node as usize) {
            Some(node) => node.journal.round,
            None => 0,
        }
    }
}

impl<D: Area + Drop> Up<D> {
    fn open_transaction(&self, node: u16, thread: u16) -> Option<&Tx>
        ensures { open_in result ≡ open_in_node thread (slice_get self.now.running.nodes.items node) }
    {
        match self.running.nodes.get(node as usize) {
            Some(node) => node.desk.open_transaction(thread),
            None => None,
        }
    }
}
