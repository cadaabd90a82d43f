//! The calls of a store that is up, and its events.
ghost use Rattle.std.specs.Prelude.{◌≡◌, ℕ, IfErr, IfOk, length, true};
ghost use Rattle.lc_model.specs.State.{Setting};
ghost use Rattle.lc_model.specs.declared.event.Event.TheVariants.{Begin, SetRange, Write, Read, Abort, Close, Reserve};
ghost use Rattle.lc_model.specs.declared.event.Event.TheVariants.{FlushStep, Leave, Arrive, Deliver, Trim};
ghost use Rattle.lc_model.specs.declared.event.Event.TheVariants.{PageStep, ResetStep};
ghost use Rattle.lc_model.specs.declared.reply.Reply.TheVariants.{Bytes, Refused};
ghost use Rattle.lc_settled.specs.Numbers.{Numbers};
ghost use Rattle.lc_desk.specs.Pages.{FitsPages};
ghost use Rattle.lc_events.specs.Stepping.{TellsWriting};
ghost use Rattle.lc_core.specs.EndCalls.{EndsUp};
ghost use Rattle.lc_core.specs.Layers.{StepsUp, TriesUp};
ghost use Rattle.lc_core.specs.Stepping.{works_up};

use crate::up::Up;
use lc_disk::Area;
use lc_events::{CallFault, Placement};
use lc_model::{Event, Refusal, Reply};
use std::alloc::{AllocError, Global};

impl<D: Area + Drop> Up<D> {
    /// A thread of a node begins. It takes no memory.
    pub(crate) fn begin(
        &mut self,
        node: u16,
        thread: u16,
        segments: &[u32],
        reading: &[u32],
    ) -> Reply
        ensures { StepsUp D.Area self.old (Begin node thread segments.now reading.now) result self.new }
    {
        self.running.begin(node, thread, segments, reading)
    }

    /// A thread of a node sets a range. It takes memory only for positions that are not set yet.
    pub(crate) fn set_range(
        &mut self,
        node: u16,
        thread: u16,
        segment: u32,
        offset: u32,
        len: u32,
    ) -> Result<Reply, AllocError>
        ensures { TriesUp D.Area self.old (SetRange node thread segment offset len) result self.new }
    {
        self.running.set_range(node, thread, segment, offset, len)
    }

    /// A thread of a node writes. It takes no memory.
    pub(crate) fn write(
        &mut self,
        node: u16,
        thread: u16,
        segment: u32,
        offset: u32,
        bytes: &[u8],
    ) -> Reply
        ensures { StepsUp D.Area self.old (Write node thread segment offset bytes.now) result self.new }
    {
        self.running.write(node, thread, segment, offset, bytes)
    }

    /// The bytes that a thread of a node reads. It takes no memory, and changes nothing.
    pub(crate) fn bytes(
        &self,
        node: u16,
        thread: u16,
        segment: u32,
        offset: u32,
        len: usize,
    ) -> Result<&[u8], Refusal>
        ensures bytes { IfOk result (λ bytes.
            StepsUp D.Area self.now (Read node thread segment offset len) (Bytes bytes.now) self.now) }
        ensures refused { IfErr result (λ refusal.
            StepsUp D.Area self.now (Read node thread segment offset len) (Refused refusal) self.now) }
        ensures len { IfOk result (λ bytes. length bytes.now ≡ len) }
    {
        self.running.bytes(node, thread, segment, offset, len)
    }

    /// A thread of a node reads bytes. It takes memory for them where it is not refused; no bytes take none.
    pub(crate) fn read(
        &mut self,
        alloc: Global,
        node: u16,
        thread: u16,
        segment: u32,
        offset: u32,
        len: u32,
    ) -> Result<Reply, AllocError>
        ensures { TriesUp D.Area self.old (Read node thread segment offset len) result self.new }
    {
        self.running.read(alloc, node, thread, segment, offset, len)
    }

    /// A thread of a node drops its transaction. It takes no memory.
    pub(crate) fn abort(&mut self, node: u16, thread: u16) -> Reply
        ensures { StepsUp D.Area self.old (Abort node thread) result self.new }
    {
        self.running.abort(node, thread)
    }

    /// A thread of a node asks for the place of its transaction in the log. It takes memory only for a record for
    /// which there is room.
    pub(crate) fn reserve(
        &mut self,
        alloc: Global,
        node: u16,
        thread: u16,
    ) -> Result<Reply, AllocError>
        ensures { TriesUp D.Area self.old (Reserve node thread) result self.new }
    {
        self.running.reserve(alloc, node, thread)
    }

    /// A thread of a node closes the record that it reserved. It takes no memory.
    pub(crate) fn close(&mut self, node: u16, thread: u16) -> Reply
        ensures { StepsUp D.Area self.old (Close node thread) result self.new }
    {
        self.running.close(node, thread)
    }

    /// A thread of a node ends its transaction: it gets its place in the log, and its record is closed there. It
    /// takes memory as `reserve` does.
    pub(crate) fn end(
        &mut self,
        alloc: Global,
        node: u16,
        thread: u16,
    ) -> Result<Placement, CallFault>
        ensures { EndsUp D.Area node thread self.old result self.new }
    {
        self.running.end(alloc, node, thread)
    }

    /// One step of a flush of a node's log. It takes no memory.
    pub(crate) fn flush_step(&mut self, node: u16) -> Reply
        ensures { StepsUp D.Area self.old (FlushStep node) result self.new }
    {
        self.running.flush_step(node)
    }

    /// One of the four steps that empty a node's log. It takes no memory.
    pub(crate) fn reset_step(&mut self, node: u16) -> Reply
        ensures { StepsUp D.Area self.old (ResetStep node) result self.new }
    {
        self.running.reset_step(node)
    }

    /// The token of a segment leaves a node, unless a page of the segment is being written. It takes no memory.
    pub(crate) fn leave(&mut self, node: u16, segment: u32) -> Reply
        ensures { StepsUp D.Area self.old (Leave node segment) result self.new }
    {
        let writing = self.is_writing(segment);
        self.running.leave(node, segment, writing)
    }

    /// The token of a segment that is on its way arrives at a node. It takes no memory.
    pub(crate) fn arrive(&mut self, node: u16, segment: u32) -> Reply
        ensures { StepsUp D.Area self.old (Arrive node segment) result self.new }
    {
        self.running.arrive(node, segment)
    }

    /// A record of a node comes to another, for one segment.
    pub(crate) fn deliver(
        &mut self,
        alloc: Global,
        sender: u16,
        number: u64,
        segment: u32,
        to: u16,
    ) -> Result<Reply, AllocError>
        ensures { TriesUp D.Area self.old (Deliver sender number segment to) result self.new }
    {
        self.running.deliver(alloc, sender, number, segment, to)
    }

    /// A node drops of its published records those in front that every node has applied. It takes no memory.
    pub(crate) fn trim(&mut self, node: u16) -> Reply
        ensures { StepsUp D.Area self.old (Trim node) result self.new }
    {
        self.running.trim(node)
    }

    /// One of the six device calls of a page write. It takes no memory.
    pub(crate) fn page_step(&mut self, node: u16, segment: u32, page: u32) -> Reply
        ensures { StepsUp D.Area self.old (PageStep node segment page) result self.new }
    {
        if let Some(refusal) = self.running.page_refusal(node, segment, page) {
            return Reply::Refused(refusal);
        }
        let place = segment as usize - 1;
        let pages = &mut self.segments[place];
        self.running.page_step(node, segment, page, pages)
    }

    /// An event that is no stop and no step of a recovery. Where memory is wanted nothing has changed.
    pub(crate) fn step(&mut self, alloc: Global, event: &Event) -> Result<Reply, AllocError>
        requires up { works_up event.now ≡ true }
        ensures { TriesUp D.Area self.old event.now result self.new }
    {
        match event {
            Event::Begin {
                node,
                thread,
                segments,
                reading,
            } => Ok(self.begin(*node, *thread, segments.as_slice(), reading.as_slice())),
            Event::SetRange {
                node,
                thread,
                segment,
                offset,
                len,
            } => self.set_range(*node, *thread, *segment, *offset, *len),
            Event::Write {
                node,
                thread,
                segment,
                offset,
                bytes,
            } => Ok(self.write(*node, *thread, *segment, *offset, bytes.as_slice())),
            Event::Read {
                node,
                thread,
                segment,
                offset,
                len,
            } => self.read(alloc, *node, *thread, *segment, *offset, *len),
            Event::Abort { node, thread } => Ok(self.abort(*node, *thread)),
            Event::Reserve { node, thread } => self.reserve(alloc, *node, *thread),
            Event::Close { node, thread } => Ok(self.close(*node, *thread)),
            Event::FlushStep { node } => Ok(self.flush_step(*node)),
            Event::Leave { node, segment } => Ok(self.leave(*node, *segment)),
            Event::Arrive { node, segment } => Ok(self.arrive(*node, *segment)),
            Event::Deliver {
                sender,
                number,
                segment,
                to,
            } => self.deliver(alloc, *sender, *number, *segment, *to),
            Event::Trim { node } => Ok(self.trim(*node)),
            Event::PageStep {
                node,
                segment,
                page,
            } => Ok(self.page_step(*node, *segment, *page)),
            Event::ResetStep { node } => Ok(self.reset_step(*node)),
            Event::Stop { .. } | Event::RecoverStep => unreachable!(),
        }
    }

    // Whether a page is being written of this segment.
    fn is_writing(&self, segment: u32) -> bool
        ensures { (m : Setting) (x : Numbers) (node : ℕ) → FitsPages D.Area m self.now.segments.items x
            → TellsWriting m x (Leave node segment) result }
    {
        let Some(place) = (segment as usize).checked_sub(1) else {
            return false;
        };
        match self.segments.get(place) {
            Some(pages) => pages.is_writing(),
            None => false,
        }
    }
}
