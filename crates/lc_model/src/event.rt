//! What may be asked of the system: each event is one atomic step.
use lc_disk::Choice;
use lc_record::Items;

/// One atomic step of a thread, a node or the whole store.
#[derive(Drop)]
pub enum Event {
    /// A thread begins a transaction. It locks `segments` for writing and `reading` for reading, each taken as a set; a
    /// segment in both is locked for writing.
    Begin {
        node: u16,
        thread: u16,
        segments: Items<u32>,
        reading: Items<u32>,
    },
    /// The open transaction is about to change `len` bytes from `offset` on (RVM's set_range).
    SetRange {
        node: u16,
        thread: u16,
        segment: u32,
        offset: u32,
        len: u32,
    },
    /// It writes bytes inside the ranges that it set.
    Write {
        node: u16,
        thread: u16,
        segment: u32,
        offset: u32,
        bytes: Items<u8>,
    },
    /// It reads bytes of a segment that it locked.
    Read {
        node: u16,
        thread: u16,
        segment: u32,
        offset: u32,
        len: u32,
    },
    /// It is dropped.
    Abort {
        node: u16,
        thread: u16,
    },
    /// It gets its place in the log.
    Reserve {
        node: u16,
        thread: u16,
    },
    /// Its record is complete, and its locks are free.
    Close {
        node: u16,
        thread: u16,
    },
    /// One of the four device calls of a node's flush.
    FlushStep {
        node: u16,
    },
    /// A segment's token leaves a node.
    Leave {
        node: u16,
        segment: u32,
    },
    /// A travelling token arrives at a node.
    Arrive {
        node: u16,
        segment: u32,
    },
    /// A node receives a published record for one segment; `number` counts the sender's records from 1.
    Deliver {
        sender: u16,
        number: u64,
        segment: u32,
        to: u16,
    },
    /// A node drops published records that all nodes have applied.
    Trim {
        node: u16,
    },
    /// One of the six device calls that write a page into its area.
    PageStep {
        node: u16,
        segment: u32,
        page: u32,
    },
    /// One of the four steps that empty a node's log.
    ResetStep {
        node: u16,
    },
    /// All nodes stop. A store that is up is then down at some cut that a stop may make, and one that is down stays as
    /// it is: the machine does not look at the choices. A store stops each area by the list at its place in the order
    /// of the store, and by an empty one where there is none. What an honest area reads then, `Stoppable` says. An area
    /// in memory takes one choice for each dirty position, ascending; the last one holds for the rest, and with none
    /// all is kept.
    Stop {
        choices: Items<Items<Choice>>,
    },
    /// One step of a recovery.
    RecoverStep,
}
