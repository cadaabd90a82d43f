//! Where the area of a segment's pages is.
/// The area of a segment's pages, which goes with the segment's token.
#[derive(Drop)]
pub enum PageArea<D> {
    /// It is at another node.
    Elsewhere,
    /// It serves.
    Serves(D),
    /// A call of it failed: only a recovery reads it again.
    Failed(D),
}
