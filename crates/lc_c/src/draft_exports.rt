//! What C calls on the draft of an open transaction, without the store's lock.
ghost use Rattle.std.specs.Prelude.{◌≡◌, ◌⊎◌, [], IfOk, None, Some, slice_get, true, false};
ghost use Rattle.lc_range.specs.declared.range.Range.{Range};
ghost use Rattle.lc_changes.specs.Draft.{HasNothing, handed_of, image_len_of, set_of};
ghost use Rattle.lc_c.specs.DraftCalls.{BringsBackIf, DraftFills, DraftSets, DraftWrites, IsNewDraft, LocksNone};
ghost use Rattle.lc_c.specs.DraftCalls.{ReadsIf, SetsIf, WritesIf, answer_to_read};

use crate::answer::{Answer, DONE, NO_MEMORY};
use crate::draft_handle::DraftHandle;
use lc_changes::Draft;
use lc_core::{Refusal, Reply};
use std::alloc::{AllocError, Global};

/// A draft of images of so many bytes, in a handle that holds none: 0. Else nothing has changed, and it is 4 where the
/// handle holds a draft, and 64 where there is no memory.
#[unsafe(no_mangle)]
pub extern "C" fn lcrvm_draft_new(alloc: Global, image_len: u32, handle: &mut DraftHandle) -> u32
    ensures in_turn { handle.old.held ≡ true → (result ≡ 4) × (handle.new ≡ handle.old) }
    ensures made { handle.old.held ≡ false
        → ((result ≡ 0) × IsNewDraft image_len handle.new) ⊎ ((result ≡ 64) × (handle.new ≡ handle.old)) }
{
    if handle.is_held() {
        return Refusal::OutOfTurn.code() as u32;
    }
    match new_draft(alloc, image_len) {
        Ok(draft) => {
            *handle = DraftHandle::of(draft);
            DONE
        }
        Err(_) => NO_MEMORY,
    }
}

/// Its transaction is about to change bytes of a segment, whose image is this.
#[unsafe(no_mangle)]
pub extern "C" fn lcrvm_draft_set_range(
    handle: &mut DraftHandle,
    segment: u32,
    image: &[u8],
    offset: u32,
    len: u32,
    answer: &mut Answer,
) -> u32
    ensures sets { DraftSets handle.old segment image.now offset len answer.new handle.new }
    ensures status { result ≡ answer.new.status }
{
    let said = range_set(handle, segment, image, offset, len);
    *answer = Answer::of(&said);
    answer.status
}

/// It writes bytes into the image at positions that it set; where it is refused the image is as before.
#[unsafe(no_mangle)]
pub extern "C" fn lcrvm_draft_write(
    handle: &mut DraftHandle,
    segment: u32,
    image: &mut [u8],
    offset: u32,
    bytes: &[u8],
    answer: &mut Answer,
) -> u32
    ensures writes { DraftWrites handle.old segment image.old offset bytes.now image.new answer.new handle.new }
    ensures status { result ≡ answer.new.status }
{
    let said = Ok(written(handle, segment, image, offset, bytes));
    *answer = Answer::of(&said);
    answer.status
}

/// It fills a buffer with bytes of the image; where it is refused the buffer is as before.
#[unsafe(no_mangle)]
pub extern "C" fn lcrvm_draft_read(
    handle: &mut DraftHandle,
    segment: u32,
    image: &[u8],
    offset: u32,
    buffer: &mut [u8],
    answer: &mut Answer,
) -> u32
    ensures fills { DraftFills handle.old segment image.now offset buffer.old buffer.new answer.new handle.new }
    ensures status { result ≡ answer.new.status }
{
    *answer = answer_to_read(read(handle, segment, image, offset, buffer));
    answer.status
}

/// The image of a segment gets back the bytes that it had before the transaction.
#[unsafe(no_mangle)]
pub extern "C" fn lcrvm_draft_restore(handle: &mut DraftHandle, segment: u32, image: &mut [u8])
    ensures restores { BringsBackIf handle.old.held handle.old.value segment image.old image.new }
    ensures same { handle.new ≡ handle.old }
{
    if handle.is_held() {
        handle.get_mut().restore(segment, image);
    }
}

/// The segment of the next range that is to be handed over, or 0 where there is none.
#[unsafe(no_mangle)]
pub extern "C" fn lcrvm_draft_next(handle: &mut DraftHandle) -> u32
    ensures next { (range : Range) → handle.old.held ≡ true
        → slice_get (set_of handle.old.value) (handed_of handle.old.value) ≡ Some range → result ≡ range.segment }
    ensures none { handle.old.held ≡ true
        → slice_get (set_of handle.old.value) (handed_of handle.old.value) ≡ None → result ≡ 0 }
    ensures empty { handle.old.held ≡ false → result ≡ 0 }
    ensures same { handle.new ≡ handle.old }
{
    if !handle.is_held() {
        return 0;
    }
    match handle.get_mut().next() {
        Some(range) => range.segment,
        None => 0,
    }
}

/// Frees the draft that the handle holds, if it holds one. The handle, and each copy of it, is not used again.
#[unsafe(no_mangle)]
pub extern "C" fn lcrvm_draft_free(handle: DraftHandle) {
    let mut handle = handle;
    if handle.is_held() {
        drop(handle.into_box());
    }
}

fn new_draft(alloc: Global, image_len: u32) -> Result<Box<Draft>, AllocError>
    ensures locks { IfOk result (λ d. LocksNone d.value) }
    ensures nothing { IfOk result (λ d. HasNothing d.value) }
    ensures image_len { IfOk result (λ d. image_len_of d.value ≡ image_len) }
{
    match Box::new(alloc, Draft::new(alloc, image_len)?) {
        Ok(draft) => Ok(draft),
        Err(_) => Err(AllocError),
    }
}

fn range_set(
    handle: &mut DraftHandle,
    segment: u32,
    image: &[u8],
    offset: u32,
    len: u32,
) -> Result<Reply, AllocError>
    ensures sets { SetsIf handle.old.held handle.old.value segment image.now offset len result handle.new.value }
    ensures held { handle.new.held ≡ handle.old.held }
{
    if !handle.is_held() {
        return Ok(Reply::Refused(Refusal::Down));
    }
    handle.get_mut().set_range(segment, image, offset, len)
}

fn written(
    handle: &mut DraftHandle,
    segment: u32,
    image: &mut [u8],
    offset: u32,
    bytes: &[u8],
) -> Reply
    ensures writes { WritesIf handle.old.held handle.old.value segment image.old offset bytes.now result image.new }
    ensures same { handle.new ≡ handle.old }
{
    if !handle.is_held() {
        return Reply::Refused(Refusal::Down);
    }
    handle.get_mut().write(segment, image, offset, bytes)
}

fn read(
    handle: &mut DraftHandle,
    segment: u32,
    image: &[u8],
    offset: u32,
    buffer: &mut [u8],
) -> Result<(), Refusal>
    ensures reads { ReadsIf handle.old.held handle.old.value segment image.now offset buffer.old result buffer.new }
    ensures same { handle.new ≡ handle.old }
{
    if !handle.is_held() {
        return Err(Refusal::Down);
    }
    handle.get_mut().read(segment, image, offset, buffer)
}

// Bytes were read, or it is refused.
fn answer_to_read(done: Result<(), Refusal>) -> Answer
    ensures { result ≡ answer_to_read done }
{
    match done {
        Ok(()) => Answer::of_bytes(),
        Err(refusal) => Answer::of_refusal(refusal),
    }
}
