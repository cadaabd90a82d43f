//! Which tokens stand at a node as a store comes up.
ghost use Rattle.std.specs.Prelude.{◌≡◌, ◌<◌, ◌≤◌, None, if◌then◌else◌};
ghost use Rattle.lc_node.specs.Shares.{has_token};

/// The share of a node in the tokens of a store: those of the segments whose numbers are the node's modulo the number
/// of nodes.
#[derive(Clone, Copy)]
pub(crate) struct Share {
    pub(crate) number: u32,
    pub(crate) nodes: u32,
    ghost one_of: { number < nodes },
    ghost few: { nodes ≤ 8 },
}

impl Share {
    /// That of a node, from 0, of so many.
    pub(crate) fn new(number: u32, nodes: u32) -> Share
        requires one_of { number < nodes }
        requires few { nodes ≤ 8 }
        ensures number { result.number ≡ number }
        ensures nodes { result.nodes ≡ nodes }
    {
        Share { number, nodes }
    }

    /// Whether the token of a segment stands at the node.
    pub(crate) fn has(self, segment: u32) -> bool
        ensures { result ≡ has_token self.number self.nodes segment }
    {
        segment % self.nodes == self.number
    }

    /// Takes what stands at the place of a segment's area, where the node has the segment's token.
    pub(crate) fn take<D>(self, segment: u32, place: &mut Option<D>) -> Option<D>
        ensures taken { result ≡ (if has_token self.number self.nodes segment then place.old else None) }
        ensures left { place.new ≡ (if has_token self.number self.nodes segment then None else place.old) }
    {
        if self.has(segment) {
            place.take()
        } else {
            None
        }
    }
}
