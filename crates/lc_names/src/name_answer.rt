//! What the table answers to a command.

/// What the table answers to a command that it does not refuse.
#[derive(Drop)]
pub enum NameAnswer {
    /// The name is created, renamed or removed.
    Done,
    /// The attributes of the name.
    Attributes(Vec<u8>),
    /// Each name once, in the order of the table.
    Names(Vec<Vec<u8>>),
}
