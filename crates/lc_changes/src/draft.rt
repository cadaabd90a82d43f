//! What an open transaction has locked, and what it has set of images that its caller keeps.
ghost use Rattle.std.specs.Prelude.{◌≡◌, ◌≢◌, ◌↔◌, ◌||◌, ◌+◌, ◌<◌, ◌≤◌, ℕ, [], Some, None, length, slice_get};
ghost use Rattle.std.specs.Prelude.{slice_index, unwrap_or, vec_capacity, IfOk, IsOk, IsTrue, OnErr, OnOk};
ghost use Rattle.lc_record.specs.Transaction.{is_member};
ghost use Rattle.lc_range.specs.Undo.{kept};
ghost use Rattle.lc_range.specs.declared.range.Range.{Range as Stretch};
ghost use Rattle.lc_changes.specs.Replies.{change_refusal};

use crate::changes::Changes;
use crate::replies::{range_reply, write_reply};
use lc_model::{Refusal, Reply};
use lc_range::Range;
use std::alloc::{AllocError, Global};

/// As many segments as a transaction may have locked in each way: a store has no more.
const MOST_LOCKS: usize = 16;

/// What an open transaction has locked, and what it has set of images that its caller keeps, an array a segment. It
/// answers work on them as the store would that the transaction is open in, and asks it nothing. At the transaction's
/// end its ranges are handed over to the store, one after another.
#[derive(Drop)]
pub struct Draft {
    writing: Vec<u32>,
    reading: Vec<u32>,
    changes: Changes,
    // So many ranges were handed over.
    handed: usize,
    ghost room: { 16 ≤ vec_capacity writing },
    ghost reading_room: { 16 ≤ vec_capacity reading },
}

impl Draft {
    ghost use Rattle.lc_changes.specs.Draft.{HasNothing, IsSameBut, ReadsBytes, SameLocks, SetsRange, WritesBytes};
    ghost use Rattle.lc_changes.specs.Draft.{handed_of, image_len_of, reading_of, set_of, undo_of, writing_of};

    /// Nothing is locked, of images of so many bytes.
    ///
    /// # Errors
    ///
    /// Where there is no memory.
    pub fn new(alloc: Global, image_len: u32) -> Result<Draft, AllocError>
        ensures locks { IfOk result (λ d. (writing_of d ≡ []) × (reading_of d ≡ [])) }
        ensures nothing { IfOk result HasNothing }
        ensures image_len { IfOk result (λ d. image_len_of d ≡ image_len) }
    {
        let mut writing = Vec::new(alloc);
        let mut reading = Vec::new(alloc);
        writing.reserve(MOST_LOCKS)?;
        reading.reserve(MOST_LOCKS)?;
        Ok(Draft {
            writing,
            reading,
            changes: Changes::new(alloc, image_len),
            handed: 0,
        })
    }

    /// How many bytes an image has.
    pub fn image_len(&self) -> u32
        ensures { result ≡ image_len_of self.now }
    {
        self.changes.image_len()
    }

    /// A transaction that has locked these segments begins, and has set nothing. It takes no memory.
    ///
    /// # Errors
    ///
    /// Where either list has more than 16: nothing is locked then.
    pub fn lock(&mut self, writing: &[u32], reading: &[u32]) -> Result<(), AllocError>
        ensures locks { OnOk result ((writing_of self.new ≡ writing.now) × (reading_of self.new ≡ reading.now)) }
        ensures many { OnErr result ((writing_of self.new ≡ []) × (reading_of self.new ≡ [])) }
        ensures few { length writing.now ≤ 16 → length reading.now ≤ 16 → IsOk result }
        ensures nothing { HasNothing self.new }
        ensures image_len { image_len_of self.new ≡ image_len_of self.old }
    {
        self.clear();
        self.writing.clear();
        self.reading.clear();
        if writing.len() > MOST_LOCKS || reading.len() > MOST_LOCKS {
            return Err(AllocError);
        }
        let done = self.writing.extend_from_slice(writing);
        let also = self.reading.extend_from_slice(reading);
        prove!(done.is_ok() && also.is_ok());
        Ok(())
    }

    /// Nothing is set, and nothing was handed over. The locks stay.
    pub fn clear(&mut self)
        ensures nothing { HasNothing self.new }
        ensures locks { SameLocks self.old self.new }
        ensures image_len { image_len_of self.new ≡ image_len_of self.old }
    {
        self.changes.clear();
        self.rewind();
    }

    /// The transaction is about to change `len` bytes of a segment, whose image is this, from `offset` on. It answers
    /// as the store.
    ///
    /// # Errors
    ///
    /// Where there is no memory. All is then as before.
    pub fn set_range(
        &mut self,
        segment: u32,
        image: &[u8],
        offset: u32,
        len: u32,
    ) -> Result<Reply, AllocError>
        ensures { SetsRange self.old segment image.now offset len result self.new }
    {
        if !self.is_image(image) {
            return Ok(Reply::Refused(Refusal::Unknown));
        }
        if let Some(refusal) = self.refusal(segment) {
            return Ok(Reply::Refused(refusal));
        }
        range_reply(self.changes.set_range(segment, image, offset, len))
    }

    /// It writes bytes over those of a segment, whose image is this, from `offset` on, each at a position that is set.
    /// It answers as the store. Where that is a refusal the image is as before.
    pub fn write(&self, segment: u32, image: &mut [u8], offset: u32, bytes: &[u8]) -> Reply
        ensures { WritesBytes self.now segment image.old offset bytes.now result image.new }
    {
        if !self.is_image(image) {
            return Reply::Refused(Refusal::Unknown);
        }
        if let Some(refusal) = self.refusal(segment) {
            return Reply::Refused(refusal);
        }
        write_reply(self.changes.write(segment, image, offset, bytes))
    }

    /// Fills a buffer with bytes of a segment, whose image is this, from `offset` on.
    ///
    /// # Errors
    ///
    /// As of the store. The buffer is then as before.
    pub fn read(
        &self,
        segment: u32,
        image: &[u8],
        offset: u32,
        buffer: &mut [u8],
    ) -> Result<(), Refusal>
        ensures { ReadsBytes self.now segment image.now offset buffer.old result buffer.new }
    {
        if !self.is_image(image) {
            return Err(Refusal::Unknown);
        }
        if !self.holds(segment) {
            return Err(Refusal::NotLocked);
        }
        let start = offset as usize;
        let len = buffer.len();
        if len > image.len() || start > image.len() - len {
            return Err(Refusal::OutOfSegment { area: None });
        }
        buffer.copy_from_slice(&image[start..start + len]);
        Ok(())
    }

    /// Puts back the bytes that a segment's image had before the transaction; an array of another length is none, and
    /// stays. It takes no memory.
    pub fn restore(&self, segment: u32, image: &mut [u8])
        ensures len { length image.new ≡ length image.old }
        ensures other { length image.old ≢ image_len_of self.now → image.new ≡ image.old }
        ensures bytes { length image.old ≡ image_len_of self.now → (k : ℕ) → slice_index image.new k
            ≡ unwrap_or (kept (undo_of self.now) segment k) (slice_index image.old k) }
    {
        if self.is_image(image) {
            self.changes.restore(segment, image);
        }
    }

    /// The segments that are locked for writing, and those that are for reading.
    pub fn locks(&self) -> (&[u32], &[u32])
        ensures writing { result.0.now ≡ writing_of self.now }
        ensures reading { result.1.now ≡ reading_of self.now }
    {
        (&self.writing, &self.reading)
    }

    // Whether an array has the length of an image.
    fn is_image(&self, image: &[u8]) -> bool
        ensures { IsTrue result ↔ (length image.now ≡ image_len_of self.now) }
    {
        image.len() == self.changes.image_len() as usize
    }

    /// The next range that is to be handed over to the store, if there is one: they ascend by segment and offset.
    pub fn next(&self) -> Option<Range>
        ensures next { result ≡ slice_get (set_of self.now) (handed_of self.now) }
        ensures inside { (range : Stretch) → result ≡ Some range
            → range.offset + range.len ≤ image_len_of self.now }
    {
        let ranges = self.changes.ranges();
        if self.handed >= ranges.len() {
            return None;
        }
        let range = ranges[self.handed];
        Some(range)
    }

    /// The next range was handed over, if there is one.
    pub fn advance(&mut self)
        ensures one { handed_of self.old < length (set_of self.old) → handed_of self.new ≡ handed_of self.old + 1 }
        ensures none { length (set_of self.old) ≤ handed_of self.old → handed_of self.new ≡ handed_of self.old }
        ensures same { IsSameBut self.old self.new }
    {
        if self.handed < self.changes.ranges().len() {
            self.handed += 1;
        }
    }

    /// None was handed over.
    pub fn rewind(&mut self)
        ensures handed { handed_of self.new ≡ 0 }
        ensures same { IsSameBut self.old self.new }
    {
        self.handed = 0;
    }

    // Whether the segment is locked.
    fn holds(&self, segment: u32) -> bool
        ensures { result ≡ (is_member segment (writing_of self.now) || is_member segment (reading_of self.now)) }
    {
        if is_among(&self.writing, segment) {
            return true;
        }
        is_among(&self.reading, segment)
    }

    // Why the segment may not be changed, if it may not.
    fn refusal(&self, segment: u32) -> Option<Refusal>
        ensures { result ≡ change_refusal (writing_of self.now) (reading_of self.now) segment }
    {
        if is_among(&self.writing, segment) {
            None
        } else if is_among(&self.reading, segment) {
            Some(Refusal::ReadOnly { segment })
        } else {
            Some(Refusal::NotLocked)
        }
    }
}

// Whether a number is among these. One alone is looked at straight.
fn is_among(numbers: &[u32], number: u32) -> bool
    ensures { result ≡ is_member number numbers.now }
{
    if let [only] = numbers {
        return *only == number;
    }
    numbers.contains(&number)
}
