//! Records that peers published are put on the image of a segment whose token is elsewhere.
ghost use Rattle.std.specs.Prelude.{◌≡◌, ◌+◌, ◌++◌, ◌∷◌, [], ◌≤◌, ◌<◌, false, OnErr, OnOk, None, IsSome, IsSomeAnd};
ghost use Rattle.std.specs.Prelude.{length};
ghost use Rattle.lc_token.specs.Backlog.{counted, forgetting, is_known, keeping, HandsOutKept};
ghost use Rattle.lc_tx.specs.Image.{laid_over};
ghost use Rattle.lc_tx.specs.declared.holders.Holders.TheVariants.{Free};
ghost use Rattle.lc_segments.specs.Applying.{applying, caught_up, ready_in};
ghost use Rattle.lc_applied.specs.AppliedParts.{laid_parts};

use crate::growing::size_of_part;
use crate::seg_side::SegSide;
use lc_disk::Area;
use lc_record::Part;
use lc_tx::Image;
use std::alloc::AllocError;

impl<D: Area + Drop> SegSide<D> {
    /// Whether a number was applied here, or is held back. It takes no memory.
    pub(crate) fn knows(&self, seq: u64) -> bool
        ensures { result ≡ is_known self.now.backlog seq }
    {
        self.hold_back.knows(seq)
    }

    /// The number up to which all are applied.
    pub fn applied_number(&self) -> u64
        ensures { result ≡ self.now.backlog.applied }
    {
        self.hold_back.applied()
    }

    /// Holds back a part that is not known, until the numbers before it have come. Fails for want of memory alone, and
    /// then changes nothing.
    pub(crate) fn keep(&mut self, part: Part) -> Result<(), AllocError>
        requires { is_known self.old.backlog part.seq ≡ false }
        ensures kept { OnOk result (self.new ≡ record self.old { backlog = keeping self.old.backlog part }) }
        ensures err { OnErr result (self.new ≡ self.old) }
    {
        self.hold_back.keep(part)
    }

    /// Holds back the part with this number no more, if there is one. Where a `keep` has just put it there all is then
    /// as it was. It takes no memory.
    pub(crate) fn forget(&mut self, seq: u64)
        ensures { self.new ≡ record self.old { backlog = forgetting self.old.backlog seq } }
    {
        self.hold_back.forget(seq);
    }

    /// Makes room for one more applied part, and for all that are held back.
    pub(crate) fn make_room_for(&mut self) -> Result<(), AllocError>
        ensures same { self.new ≡ record self.old { room = self.new.room } }
        ensures room { OnOk result (length self.new.applied + 1 + length self.new.backlog.kept ≤ self.new.room) }
    {
        let more = 1 + self.hold_back.kept_len();
        self.applied.reserve(more)
    }

    /// Applies the part of a record that a peer published, which has the next number, and then those that are held back
    /// and follow on it without a hole. The token is elsewhere. It takes no memory.
    pub(crate) fn apply(&mut self, part: Part)
        requires here { IsSome self.old.image }
        requires elsewhere { self.old.standing.token ≡ None }
        requires next { part.seq ≡ self.old.backlog.applied + 1 }
        requires room { length self.old.applied + 1 + length self.old.backlog.kept ≤ self.old.room }
        ensures applied { self.new ≡ record (applying part self.old) { image = self.new.image } }
        ensures shows { IsSomeAnd self.new.image (λ image. image.bytes.items
            ≡ laid_parts self.new.applied self.new.base) }
        ensures free { IsSomeAnd self.new.image (λ image. image.holders ≡ Free) }
    {
        let mut image = self.take_image();
        self.count_peer(part.seq);
        self.lay_part(&mut image, part);
        self.catch_up(&mut image);
        self.put_back(image);
    }

    // Counts a record of a peer's as applied, which has the next number.
    fn count_peer(&mut self, seq: u64)
        requires elsewhere { self.old.standing.token ≡ None }
        requires next { seq ≡ self.old.backlog.applied + 1 }
        ensures { self.new ≡ record self.old { backlog = counted self.old.backlog seq } }
    {
        self.hold_back.own(seq);
    }

    // Puts a part on the image, which is out, after those that are applied.
    fn lay_part(&mut self, image: &mut Image, part: Part)
        requires lent { self.old.image ≡ None }
        requires elsewhere { self.old.standing.token ≡ None }
        requires room { length self.old.applied < self.old.room }
        ensures laid { self.new ≡ record self.old { applied = self.old.applied ++ part ∷ [] } }
        ensures bytes { image.new.bytes.items ≡ laid_over part.ranges image.old.bytes.items }
        ensures holders { image.new.holders ≡ image.old.holders }
    {
        image.put(&part);
        let size = size_of_part(&part);
        self.stored = self.stored.saturating_add(size);
        self.applied.push(part);
    }

    // Puts the parts on the image, which is out, that are held back and follow on what is applied.
    fn catch_up(&mut self, image: &mut Image)
        requires lent { self.old.image ≡ None }
        requires elsewhere { self.old.standing.token ≡ None }
        requires room { length self.old.applied + length self.old.backlog.kept ≤ self.old.room }
        requires shows { image.old.bytes.items ≡ laid_parts self.old.applied self.old.base }
        ensures applied { self.new ≡ record self.old {
          applied = self.old.applied ++ ready_in self.old.backlog;
          backlog = caught_up self.old.backlog;
        } }
        ensures shows { image.new.bytes.items ≡ laid_parts self.new.applied self.new.base }
        ensures holders { image.new.holders ≡ image.old.holders }
    {
        while let Some(part) = self.take_kept() {
            self.lay_part(image, part);
        }
    }

    // Takes the part that is held back with the next number, and counts it.
    fn take_kept(&mut self) -> Option<Part>
        requires elsewhere { self.old.standing.token ≡ None }
        ensures handed { HandsOutKept self.old.backlog result self.new.backlog }
        ensures same { self.new ≡ record self.old { backlog = self.new.backlog } }
    {
        self.hold_back.take_next()
    }
}
