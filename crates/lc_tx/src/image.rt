//! A segment's bytes at a node.
ghost use Rattle.std.specs.Prelude.{◌≡◌, ◌==◌, filter};
ghost use Rattle.lc_record.specs.Content.{put};
ghost use Rattle.lc_tx.specs.Image.{laid_over};
ghost use Rattle.lc_tx.specs.declared.holders.Holders.TheVariants.{Free};

use crate::Holders;
use lc_record::{Part, View};

/// A segment's bytes as a node has them, with those of open transactions, and the threads whose transactions hold the
/// segment.
#[derive(Drop)]
pub struct Image {
    pub(crate) bytes: Vec<u8>,
    pub(crate) holders: Holders,
}

impl Image {
    /// The image of these bytes, which no transaction holds.
    pub fn new(bytes: Vec<u8>) -> Self
        ensures bytes { result.bytes ≡ bytes }
        ensures holders { result.holders ≡ Free }
    {
        Image {
            bytes,
            holders: Holders::Free,
        }
    }

    /// The segment's bytes.
    pub fn bytes(&self) -> &[u8]
        ensures { result.now ≡ self.now.bytes.items }
    {
        self.bytes.as_slice()
    }

    /// Whose transactions hold the segment.
    pub fn holders(&self) -> Holders
        ensures { result ≡ self.now.holders }
    {
        self.holders
    }

    /// Puts these bytes over its own from an offset on, as far as it reaches. It takes no memory.
    pub fn set(&mut self, offset: u32, bytes: &[u8])
        ensures bytes { self.new.bytes.items ≡ put offset bytes.now self.old.bytes.items }
        ensures holders { self.new.holders ≡ self.old.holders }
    {
        lay(self.bytes.as_mut_slice(), offset, bytes);
    }

    /// Lays the bytes of a record's part over its own, the first range first. What reaches past them is left out. It
    /// takes no memory. Idea: a peer applies the ranges that another node committed (Feeley et al., OSDI 1994).
    pub fn put(&mut self, part: &Part)
        ensures bytes { self.new.bytes.items ≡ laid_over part.now.ranges self.old.bytes.items }
        ensures holders { self.new.holders ≡ self.old.holders }
    {
        for range in part.ranges.as_slice() {
            lay(
                self.bytes.as_mut_slice(),
                range.offset,
                range.bytes.as_slice(),
            );
        }
    }

    /// Lays the bytes that a record has for a segment over its own, from where the record's words stand, the first
    /// range first. What reaches past them is left out. It takes no memory, and copies no range. Idea: as `put`.
    pub fn put_from(&mut self, segment: u32, view: &View<'_>)
        ensures bytes { self.new.bytes.items
            ≡ laid_over (filter (λ range. range.segment == segment) view.now.ranges) self.old.bytes.items }
        ensures holders { self.new.holders ≡ self.old.holders }
    {
        view.put_on(segment, 0, self.bytes.as_mut_slice());
    }
}

/// Lays bytes over those of an image from an offset on, as far as the image reaches.
pub(crate) fn lay(image: &mut [u8], offset: u32, bytes: &[u8])
    ensures { image.new ≡ put offset bytes.now image.old }
{
    let start = image.len().min(offset as usize);
    let len = bytes.len().min(image.len() - start);
    image[start..start + len].copy_from_slice(&bytes[..len]);
}
