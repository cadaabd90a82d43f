//! A range of a segment's positions.
ghost use Rattle.std.specs.Prelude.{◌≡◌, ◌+◌, ◌^◌, ◌<◌};

/// `len` positions of a segment, which is called by a number, from `offset` on.
/// Idea: RVM's ranges (Satyanarayanan et al., TOCS 1994).
#[derive(Clone, Copy, Default, PartialEq, Eq)]
pub struct Range {
    /// The segment's number.
    pub segment: u32,
    /// The first position.
    pub offset: u32,
    /// How many positions, in bytes.
    pub len: u32,
}

impl Range {
    ghost use Rattle.lc_range.specs.Walk.{is_before, is_continued, is_holding, joined};

    /// Whether it lies in an earlier segment, or in the same with a gap between.
    pub(crate) fn is_before(&self, other: &Range) -> bool
        ensures { result ≡ is_before self.now other.now }
    {
        self.segment < other.segment
            || self.segment == other.segment
                && u64::from(self.offset) + u64::from(self.len) < u64::from(other.offset)
    }

    /// Whether the other begins in its segment, right where it ends.
    pub(crate) fn is_continued(&self, other: &Range) -> bool
        ensures { result ≡ is_continued self.now other.now }
    {
        self.segment == other.segment
            && u64::from(self.offset) + u64::from(self.len) == u64::from(other.offset)
    }

    /// Whether it has each position of the other.
    pub(crate) fn is_holding(&self, other: &Range) -> bool
        ensures { result ≡ is_holding self.now other.now }
    {
        self.segment == other.segment
            && self.offset <= other.offset
            && u64::from(other.offset) + u64::from(other.len)
                <= u64::from(self.offset) + u64::from(self.len)
    }

    /// The least range with the positions of both, which are of one segment.
    pub(crate) fn joined(&self, other: &Range) -> Range
        requires fits { self.now.offset + self.now.len < 2 ^ 32 }
        requires other_fits { other.now.offset + other.now.len < 2 ^ 32 }
        ensures { result ≡ joined self.now other.now }
    {
        let offset = self.offset.min(other.offset);
        let end = (self.offset + self.len).max(other.offset + other.len);
        Range {
            segment: self.segment,
            offset,
            len: end - offset,
        }
    }
}
