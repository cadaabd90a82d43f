//! Where the token of a segment is.

/// The node where the token of a segment is, or the node that it left when it was sent.
#[derive(Clone, Copy, Debug, PartialEq, Eq)]
pub enum Holder {
    /// It is at this node.
    Here(u16),
    /// It left this node, and is on its way.
    Left(u16),
}
