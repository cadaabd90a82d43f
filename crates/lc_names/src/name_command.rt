//! What is asked of a table of names.

/// What is asked of a table of names. A name has 1 to 31 bytes, attributes have at most 31.
#[derive(Clone, Copy)]
pub enum NameCommand<'a> {
    /// Puts a new name, with these attributes.
    Create(&'a [u8], &'a [u8]),
    /// Gives the attributes of a name to another, and removes the first.
    Rename(&'a [u8], &'a [u8]),
    /// Removes a name.
    Remove(&'a [u8]),
    /// Asks for the attributes of a name.
    Find(&'a [u8]),
    /// Asks for all names.
    List,
}
