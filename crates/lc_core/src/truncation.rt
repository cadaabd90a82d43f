//! A truncation of a node's log between two of its steps.
ghost use Rattle.std.specs.Prelude.{◌≡◌};
ghost use Rattle.lc_core.specs.Truncation.{segment_of, whole};

use crate::truncation_stage::TruncationStage;

/// A truncation of a node's log, as far as it has come. `World::truncate_step` makes its next device call. What else
/// happens to the store between two steps is allowed: the truncation goes on from what it finds.
///
/// Idea: truncation a device call at a time, as recovery is (RVM: Satyanarayanan et al., TOCS 1994, truncates in the
/// background).
#[derive(Clone, Copy)]
pub struct Truncation {
    pub(crate) node: u16,
    pub(crate) stage: TruncationStage,
}

// The calls of a flush after the first.
const MORE_CALLS: u32 = 3;

impl Truncation {
    /// One of this node's log that has made no step.
    pub fn new(node: u16) -> Truncation
        ensures { result ≡ whole node }
    {
        Truncation {
            node,
            stage: TruncationStage::Flushes { more: MORE_CALLS },
        }
    }

    /// The node whose log it empties.
    pub fn node(&self) -> u16
        ensures { result ≡ self.now.node }
    {
        self.node
    }

    /// The segment, from 1, a page of which made the last call; None where the log made it, or none was made yet.
    pub fn segment(&self) -> Option<u32>
        ensures { result ≡ segment_of self.now }
    {
        match self.stage {
            TruncationStage::Writes(cursor) => Some(cursor.segment()),
            _ => None,
        }
    }
}
