//! Why the table refuses a command.

/// Why the table refuses a command.
#[derive(Clone, Copy, Debug, PartialEq, Eq)]
pub enum NameFault {
    /// The table has the name already.
    Exists,
    /// The table has no such name.
    NoName,
    /// No entry is free.
    Full,
    /// The bytes hold no table.
    NoTable,
    /// The name has no byte, or more than 31.
    BadName,
    /// The attributes have more than 31 bytes.
    BadAttributes,
}
