//! What a script line asks for.
use lc_model::Event;

/// What is done for one line.
#[derive(Drop)]
pub enum Command {
    /// One step of the store.
    Step(Event),
    /// A thread's transaction is reserved, and closed where it was.
    End { node: u16, thread: u16 },
    /// A node is flushed, step by step.
    Flush { node: u16 },
    /// A node is flushed, its pages are written, and its log is emptied.
    Truncate { node: u16 },
    /// The store is recovered, step by step.
    Recover,
    /// The words of a node's log are shown.
    Log { node: u16 },
    /// The records of a node's log are shown.
    Inspect { node: u16 },
    /// The bytes of a page are shown as the node has them.
    Show { node: u16, segment: u32, page: u32 },
}

/// What a line is.
#[derive(Drop)]
pub enum Line {
    /// Empty, or a comment.
    Skipped,
    /// A command.
    Command(Command),
    /// Neither.
    NotUnderstood,
}
