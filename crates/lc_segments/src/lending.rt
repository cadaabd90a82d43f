//! The image of a segment goes out to a transaction and comes back; applied records are folded into the base.
ghost use Rattle.std.specs.Prelude.{◌≡◌, ◌↔◌, IsTrue, ◌<◌, ◌≤◌, OnOk, [], None, Some, IsSome, length};
ghost use Rattle.lc_tx.specs.declared.holders.Holders.TheVariants.{Free};
ghost use Rattle.lc_range.specs.RangeSet.{EndWithin};
ghost use Rattle.lc_applied.specs.AppliedParts.{laid_parts, part_of_runs, runs_of, HasRoomFor};
ghost use Rattle.lc_segments.specs.SegView.{applied_in};
ghost use Rattle.lc_segments.specs.Sides.{counting, number_in, part_for, Counts, IsNext, MayCount};

use crate::growing::size_of_runs;
use crate::scratch::Scratch;
use crate::seg_side::SegSide;
use crate::touching::touch_runs;
use lc_disk::Area;
use lc_range::Range;
use lc_tx::Image;
use std::alloc::{AllocError, Global};

// Whether one of these runs is of a segment.
fn has_run(segment: u32, runs: &[Range]) -> bool
    ensures { IsTrue result ↔ (0 < length (runs_of segment runs.now)) }
{
    for run in runs {
        if run.segment == segment {
            return true;
        }
    }
    false
}

impl<D: Area + Drop> SegSide<D> {
    /// The segment, from 1.
    pub fn segment(&self) -> u32
        ensures segment { result ≡ self.now.segment }
        ensures first { 1 ≤ result }
        ensures last { result ≤ 16 }
    {
        self.segment
    }

    /// The number of the segment's token, if it is here.
    pub fn number(&self) -> Option<u64>
        ensures { result ≡ number_in self.now.standing.token }
    {
        let token = self.token.token()?;
        Some(token.seq())
    }

    /// Takes the image out, for a transaction. It takes no memory.
    pub fn take_image(&mut self) -> Image
        requires here { IsSome self.old.image }
        ensures image { self.old.image ≡ Some result }
        ensures shows { result.bytes.items ≡ laid_parts self.old.applied self.old.base }
        ensures free { result.holders ≡ Free }
        ensures short { length result.bytes.items ≤ 262144 }
        ensures lent { self.new ≡ record self.old { image = None } }
    {
        self.image.take().unwrap()
    }

    /// Puts the image back, which shows the base with the applied records put on in order. It takes no memory.
    pub fn put_back(&mut self, image: Image)
        requires lent { self.old.image ≡ None }
        requires shows { image.bytes.items ≡ laid_parts self.old.applied self.old.base }
        requires free { image.holders ≡ Free }
        ensures back { self.new ≡ record self.old { image = Some image } }
    {
        self.image = Some(image);
    }

    /// Makes room for the part that these runs have of the segment.
    pub fn make_room_for_runs(&mut self, runs: &[Range]) -> Result<(), AllocError>
        ensures same { self.new ≡ record self.old { room = self.new.room; runs_room = self.new.runs_room } }
        ensures room { OnOk result (HasRoomFor self.new.segment runs.now (applied_in self.new)) }
    {
        self.applied.reserve_runs(self.segment, runs)
    }

    /// Counts a record of the segment that is closed here under this number, while the image is out. The token and what
    /// is applied have its number after it. The part is applied that these runs have of the segment, with the bytes of
    /// this image, and the pages on which it has bytes are touched. It takes no memory.
    pub(crate) fn count(&mut self, seq: u64, runs: &[Range], image: &[u8])
        requires lent { self.old.image ≡ None }
        requires room { HasRoomFor self.old.segment runs.now (applied_in self.old) }
        requires within { EndWithin (runs_of self.old.segment runs.now) (length image.now) }
        requires next { IsNext (part_of_runs self.old.segment seq runs.now image.now) self.old.standing.token }
        ensures counted { self.new ≡ record
            (counting (part_of_runs self.old.segment seq runs.now image.now) self.old)
            { runs_room = self.new.runs_room } }
    {
        self.token.count_record();
        touch_runs(&mut self.token, self.segment, runs);
        self.hold_back.own(seq);
        let size = size_of_runs(self.segment, runs);
        self.stored = self.stored.saturating_add(size);
        self.applied.push_runs(self.segment, seq, runs, image);
    }

    /// Counts the part that these runs have of the segment, if they have one, with the bytes of this image, under the
    /// next number of the token. It takes no memory.
    pub fn count_runs(&mut self, runs: &[Range], image: &[u8])
        requires { MayCount runs.now image.now self.old }
        ensures { Counts (part_for runs.now image.now self.old) self.old self.new }
    {
        if !has_run(self.segment, runs) {
            return;
        }
        let Some(number) = self.number() else {
            unreachable!()
        };
        self.count(number + 1, runs, image);
    }

    /// Takes out what a commit works with, or makes it. It takes memory for the first alone.
    pub fn take_scratch(&mut self, alloc: Global) -> Result<Box<Scratch>, AllocError>
        ensures { self.new ≡ self.old }
    {
        match self.scratch.take() {
            Some(scratch) => Ok(scratch),
            None => Ok(Box::new(alloc, Scratch::new(alloc))?),
        }
    }

    /// Keeps it for the next.
    pub fn keep_scratch(&mut self, scratch: Box<Scratch>)
        ensures { self.new ≡ self.old }
    {
        self.scratch = Some(scratch);
    }

    /// Folds the applied records into the base: none is kept then, and the image is as it was. It takes no memory.
    pub fn fold(&mut self)
        ensures folded { self.new ≡ record self.old
            { base = laid_parts self.old.applied self.old.base; applied = []; runs_room = self.new.runs_room } }
    {
        self.applied.lay_on(&mut self.base);
        self.applied.clear();
        self.stored = 0;
    }
}
