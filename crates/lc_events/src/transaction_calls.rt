//! The calls of a transaction, at a node and at all nodes.
ghost use Rattle.std.specs.Prelude.{◌≡◌, ◌<◌, ◌≤◌, ℕ, Ok, vec_len, IfErr, IfOk, length};
ghost use Rattle.lc_model.specs.declared.event.Event.TheVariants.{Begin, SetRange, Write, Read, Abort, Close, Reserve};
ghost use Rattle.lc_model.specs.declared.reply.Reply.TheVariants.{Refused, Bytes};
ghost use Rattle.lc_events.specs.Layers.{StepsRunning, TriesRunning};
ghost use Rattle.lc_events.specs.NodeSteps.{StepsNode};
ghost use Rattle.lc_events.specs.EndCalls.{EndsNode, EndsRunning};

use crate::call_fault::CallFault;
use crate::named::{is_seat, knows_begin, knows_place};
use crate::node_state::NodeState;
use crate::placement::Placement;
use crate::reply_values::{done, placement};
use crate::running::Running;
use lc_disk::Area;
use lc_model::{Refusal, Reply};
use std::alloc::{AllocError, Global};

impl<D: Area + Drop> NodeState<D> {
    /// One of its threads begins. It takes no memory.
    pub fn begin(&mut self, thread: u16, segments: &[u32], reading: &[u32]) -> Reply
        requires seat { thread < vec_len self.old.desk.seats }
        ensures { (node : ℕ) → StepsNode D.Area node (Begin node thread segments.now reading.now) self.old
            (Ok result) self.new }
    {
        match self.desk.begin(thread, segments, reading) {
            Ok(reply) => reply,
            Err(_) => unreachable!(),
        }
    }

    /// One of its threads sets a range. It takes memory only for positions that are not set yet.
    pub fn set_range(
        &mut self,
        thread: u16,
        segment: u32,
        offset: u32,
        len: u32,
    ) -> Result<Reply, AllocError>
        requires seat { thread < vec_len self.old.desk.seats }
        ensures { (node : ℕ) → StepsNode D.Area node
            (SetRange node thread segment offset len) self.old result self.new }
    {
        self.desk.set_range(thread, segment, offset, len)
    }

    /// One of its threads writes. It takes no memory.
    pub fn write(&mut self, thread: u16, segment: u32, offset: u32, bytes: &[u8]) -> Reply
        requires seat { thread < vec_len self.old.desk.seats }
        ensures { (node : ℕ) → StepsNode D.Area node (Write node thread segment offset bytes.now) self.old
            (Ok result) self.new }
    {
        self.desk.write(thread, segment, offset, bytes)
    }

    /// One of its threads reads. It takes memory for the bytes.
    pub fn read(
        &mut self,
        alloc: Global,
        thread: u16,
        segment: u32,
        offset: u32,
        len: u32,
    ) -> Result<Reply, AllocError>
        requires seat { thread < vec_len self.old.desk.seats }
        ensures { (node : ℕ) → StepsNode D.Area node (Read node thread segment offset len) self.old result self.new }
    {
        self.desk.read(alloc, thread, segment, offset, len)
    }

    /// One of its threads drops its transaction. It takes no memory.
    pub fn abort(&mut self, thread: u16) -> Reply
        requires seat { thread < vec_len self.old.desk.seats }
        ensures { (node : ℕ) → StepsNode D.Area node (Abort node thread) self.old (Ok result) self.new }
    {
        self.desk.abort(thread)
    }

    /// One of its threads ends its transaction: it gets its place in the log, and its record is closed there. It
    /// takes memory as `reserve` does.
    pub fn end(&mut self, alloc: Global, node: u16, thread: u16) -> Result<Placement, CallFault>
        requires seat { thread < vec_len self.old.desk.seats }
        requires node { node ≤ 7 }
        ensures { EndsNode D.Area node thread self.old result self.new }
    {
        let reply = self.reserve(alloc, node, thread)?;
        let Placement::Record { place, words } = placement(&reply)? else {
            return Ok(Placement::Empty);
        };
        let closed = self.close(thread);
        done(&closed)?;
        Ok(Placement::Record { place, words })
    }
}

impl<D: Area + Drop> Running<D> {
    /// A thread of a node begins. It takes no memory.
    pub fn begin(&mut self, node: u16, thread: u16, segments: &[u32], reading: &[u32]) -> Reply
        ensures { StepsRunning D.Area self.old (Begin node thread segments.now reading.now) result self.new }
    {
        let known = knows_begin(&self.geometry, node, thread, segments, reading);
        if let Some(refusal) = self.refusal(node, known) {
            return Reply::Refused(refusal);
        }
        self.nodes[node as usize].begin(thread, segments, reading)
    }

    /// A thread of a node sets a range. It takes memory only for positions that are not set yet.
    pub fn set_range(
        &mut self,
        node: u16,
        thread: u16,
        segment: u32,
        offset: u32,
        len: u32,
    ) -> Result<Reply, AllocError>
        ensures { TriesRunning D.Area self.old (SetRange node thread segment offset len) result self.new }
    {
        let known = knows_place(&self.geometry, node, thread, segment);
        if let Some(refusal) = self.refusal(node, known) {
            return Ok(Reply::Refused(refusal));
        }
        self.nodes[node as usize].set_range(thread, segment, offset, len)
    }

    /// A thread of a node writes. It takes no memory.
    pub fn write(
        &mut self,
        node: u16,
        thread: u16,
        segment: u32,
        offset: u32,
        bytes: &[u8],
    ) -> Reply
        ensures { StepsRunning D.Area self.old (Write node thread segment offset bytes.now) result self.new }
    {
        let known = knows_place(&self.geometry, node, thread, segment);
        if let Some(refusal) = self.refusal(node, known) {
            return Reply::Refused(refusal);
        }
        self.nodes[node as usize].write(thread, segment, offset, bytes)
    }

    /// The bytes that a thread of a node reads. It takes no memory, and changes nothing.
    pub fn bytes(
        &self,
        node: u16,
        thread: u16,
        segment: u32,
        offset: u32,
        len: usize,
    ) -> Result<&[u8], Refusal>
        ensures bytes { IfOk result (λ bytes.
            StepsRunning D.Area self.now (Read node thread segment offset len) (Bytes bytes.now) self.now) }
        ensures refused { IfErr result (λ refusal.
            StepsRunning D.Area self.now (Read node thread segment offset len) (Refused refusal) self.now) }
        ensures len { IfOk result (λ bytes. length bytes.now ≡ len) }
    {
        let known = knows_place(&self.geometry, node, thread, segment);
        if let Some(refusal) = self.refusal(node, known) {
            return Err(refusal);
        }
        self.nodes[node as usize]
            .desk
            .bytes(thread, segment, offset, len)
    }

    /// A thread of a node reads bytes. It takes memory for them where it is not refused; no bytes take none.
    pub fn read(
        &mut self,
        alloc: Global,
        node: u16,
        thread: u16,
        segment: u32,
        offset: u32,
        len: u32,
    ) -> Result<Reply, AllocError>
        ensures { TriesRunning D.Area self.old (Read node thread segment offset len) result self.new }
    {
        let known = knows_place(&self.geometry, node, thread, segment);
        if let Some(refusal) = self.refusal(node, known) {
            return Ok(Reply::Refused(refusal));
        }
        self.nodes[node as usize].read(alloc, thread, segment, offset, len)
    }

    /// A thread of a node drops its transaction. It takes no memory.
    pub fn abort(&mut self, node: u16, thread: u16) -> Reply
        ensures { StepsRunning D.Area self.old (Abort node thread) result self.new }
    {
        if let Some(refusal) = self.refusal(node, is_seat(&self.geometry, node, thread)) {
            return Reply::Refused(refusal);
        }
        self.nodes[node as usize].abort(thread)
    }

    /// A thread of a node asks for the place of its transaction in the log. It takes memory only for a record for
    /// which there is room.
    pub fn reserve(&mut self, alloc: Global, node: u16, thread: u16) -> Result<Reply, AllocError>
        ensures { TriesRunning D.Area self.old (Reserve node thread) result self.new }
    {
        if let Some(refusal) = self.refusal(node, is_seat(&self.geometry, node, thread)) {
            return Ok(Reply::Refused(refusal));
        }
        self.nodes[node as usize].reserve(alloc, node, thread)
    }

    /// A thread of a node closes the record that it reserved. It takes no memory.
    pub fn close(&mut self, node: u16, thread: u16) -> Reply
        ensures { StepsRunning D.Area self.old (Close node thread) result self.new }
    {
        if let Some(refusal) = self.refusal(node, is_seat(&self.geometry, node, thread)) {
            return Reply::Refused(refusal);
        }
        self.nodes[node as usize].close(thread)
    }

    /// A thread of a node ends its transaction: it gets its place in the log, and its record is closed there. It
    /// takes memory as `reserve` does.
    pub fn end(&mut self, alloc: Global, node: u16, thread: u16) -> Result<Placement, CallFault>
        ensures { EndsRunning D.Area node thread self.old result self.new }
    {
        if let Some(refusal) = self.refusal(node, is_seat(&self.geometry, node, thread)) {
            return Err(CallFault::Refused(refusal));
        }
        self.nodes[node as usize].end(alloc, node, thread)
    }
}
