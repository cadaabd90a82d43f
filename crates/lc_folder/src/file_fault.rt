//! What failed in a folder, and why.
use crate::store_name::StoreName;
use std::io;

/// Where in a folder something failed.
#[derive(Clone, Copy, PartialEq, Eq)]
pub enum FaultPlace {
    /// The folder itself.
    Folder,
    /// The folder that it stands in.
    Parent,
    /// A name that the store gives in it.
    Name(StoreName),
}

/// A fault in a folder, with the system's reason.
#[derive(Clone, Copy)]
pub struct FileFault {
    /// Where it was met.
    pub place: FaultPlace,
    /// Why.
    pub error: io::Error,
}
