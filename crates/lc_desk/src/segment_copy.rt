//! One segment at a node.
ghost use Rattle.std.specs.Prelude.{◌≡◌, ◌||◌, false, true, is_some, MatchOption};
ghost use Rattle.lc_token.specs.Backlog.{is_known};
ghost use Rattle.lc_desk.specs.Counts.{countable, counting, TouchesSlot};
ghost use Rattle.lc_desk.specs.Receives.{CatchesUp};

use lc_page::PAGE_BYTES;
use lc_record::MAX_SEQ;
use lc_token::{HoldBack, TokenPlace};
use lc_tx::Image;

/// A segment's bytes at a node, the place of its token, and what the node has of its records from peers.
#[derive(Drop)]
pub struct SegmentCopy {
    pub image: Image,
    pub token: TokenPlace,
    pub parts: HoldBack,
}

impl SegmentCopy {
    /// Counts a record of the segment that is closed here, and answers whether it can: a token stands here that has not
    /// used its last number, and the node has applied all that it has seen. The token has the next number then, which
    /// the node has applied; else nothing changes. It takes no memory.
    pub fn count(&mut self) -> bool
        ensures { MatchOption (countable self.old)
            ((result ≡ false) × (self.new ≡ self.old))
            (λ token. (result ≡ true) × (self.new ≡ counting token self.old)) }
    {
        let Some(token) = self.token.token() else {
            return false;
        };
        let seq = token.seq();
        if seq >= MAX_SEQ || seq != self.parts.applied() {
            return false;
        }
        self.token.count_record();
        self.parts.own(seq + 1);
        true
    }

    /// Notes that these positions are changed under the number of the token, where one stands here; positions beyond
    /// the last page are left out. It takes no memory.
    pub(crate) fn touch(&mut self, offset: u32, len: u32)
        ensures { MatchOption self.old.token.token (self.new ≡ self.old) (λ token.
            TouchesSlot offset len token self.old self.new) }
    {
        let Some(token) = self.token.token() else {
            return;
        };
        let end = offset as usize + len as usize;
        let behind = end.div_ceil(PAGE_BYTES).min(token.pages().len());
        for page in offset as usize / PAGE_BYTES..behind {
            self.token.touch(page as u32);
        }
    }

    /// Whether a record of the segment with this number, which is closed, has come here; where the token stands, all of
    /// them have. It takes no memory.
    pub fn knows(&self, seq: u64) -> bool
        ensures { result ≡ (is_some self.now.token.token || is_known self.now.parts seq) }
    {
        !self.token.is_empty() || self.parts.knows(seq)
    }

    /// Puts the parts that are due on the image, in the order of their numbers. It takes no memory.
    pub(crate) fn catch_up(&mut self)
        ensures { CatchesUp self.old self.new }
    {
        while let Some(part) = self.parts.next() {
            self.image.put(&part);
        }
    }
}
