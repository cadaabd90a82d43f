//! What C calls to begin a draft with a transaction, and to hand it over at the transaction's end.
ghost use Rattle.std.specs.Prelude.{◌≡◌, ◌&&◌};
ghost use Rattle.lc_events.specs.Answered.{place_taken};
ghost use Rattle.lc_c.specs.HandingCalls.{BeginsAgainBy, BeginsAgainIf, BeginsDraftAgain, EndsBy, EndsDraft, EndsIf};
ghost use Rattle.lc_c.specs.HandingCalls.{HandsIf, HandsNext, HandsOver, LocksBy, LocksIf, answer_to};
ghost use Rattle.lc_c.specs.SessionState.{replied};

use crate::answer::{Answer, DONE, NO_MEMORY};
use crate::draft_handle::DraftHandle;
use crate::handle::Handle;
use crate::session::Session;
use lc_changes::Draft;
use lc_core::{CallFault, Placement, Refusal, Reply};
use std::alloc::{AllocError, Global};

/// A draft begins with the locks of the transaction that a thread of a node has open in the session; without one it has
/// none. 64 where it has locked more than 16 segments in one way, as none has, and the draft has no locks then.
#[unsafe(no_mangle)]
pub extern "C" fn lcrvm_session_lock_draft(
    handle: &mut Handle,
    node: u16,
    thread: u16,
    draft: &mut DraftHandle,
) -> u32
    ensures locks { LocksIf (handle.old.held && draft.old.held) handle.old.value node thread draft.old.value result
        draft.new.value }
    ensures same { handle.new ≡ handle.old }
    ensures held { draft.new.held ≡ draft.old.held }
{
    if !handle.is_held() || !draft.is_held() {
        return Refusal::Down.code() as u32;
    }
    lock_draft(handle.get_mut(), node, thread, draft.get_mut())
}

/// Hands the next range of the draft over to the store, if there is one, where the transaction of a thread is open: it
/// is set there, and gets the bytes that stand in this image of its segment. Where it is refused the draft is as
/// before.
#[unsafe(no_mangle)]
pub extern "C" fn lcrvm_session_hand_over(
    alloc: Global,
    handle: &mut Handle,
    node: u16,
    thread: u16,
    draft: &mut DraftHandle,
    image: &[u8],
    answer: &mut Answer,
) -> u32
    ensures hands { HandsOver node thread image.now handle.old draft.old answer.new handle.new draft.new }
    ensures status { result ≡ answer.new.status }
{
    *answer = answer_to(handed(alloc, handle, node, thread, draft, image));
    answer.status
}

/// The transaction of a thread ends, once each range of the draft was handed over: it gets its place in the log, and is
/// closed there. The draft has no locks then. Where it is refused all is as before; 4 where a range was not handed
/// over.
#[unsafe(no_mangle)]
pub extern "C" fn lcrvm_session_end(
    alloc: Global,
    handle: &mut Handle,
    node: u16,
    thread: u16,
    draft: &mut DraftHandle,
    answer: &mut Answer,
) -> u32
    ensures ends { EndsBy node thread handle.old draft.old answer.new handle.new draft.new }
    ensures status { result ≡ answer.new.status }
{
    let said = placed(ended(alloc, handle, node, thread, draft));
    *answer = Answer::of(&said);
    answer.status
}

/// The transaction of a thread is dropped in the store, and begins again with the locks of the draft, which stays: all
/// of it is to be handed over.
#[unsafe(no_mangle)]
pub extern "C" fn lcrvm_session_begin_again(
    alloc: Global,
    handle: &mut Handle,
    node: u16,
    thread: u16,
    draft: &mut DraftHandle,
    answer: &mut Answer,
) -> u32
    ensures again { BeginsAgainBy node thread handle.old draft.old answer.new handle.new draft.new }
    ensures status { result ≡ answer.new.status }
{
    let said = Ok(begun_again(alloc, handle, node, thread, draft));
    *answer = Answer::of(&said);
    answer.status
}

fn lock_draft(session: &mut Session, node: u16, thread: u16, draft: &mut Draft) -> u32
    ensures locks { LocksBy session.old node thread draft.old result draft.new }
    ensures same { session.new ≡ session.old }
{
    match session.lock_draft(node, thread, draft) {
        Ok(()) => DONE,
        Err(_) => NO_MEMORY,
    }
}

fn handed(
    alloc: Global,
    handle: &mut Handle,
    node: u16,
    thread: u16,
    draft: &mut DraftHandle,
    image: &[u8],
) -> Result<(), CallFault>
    ensures hands { HandsIf (handle.old.held && draft.old.held) node thread image.now handle.old.value draft.old.value
        result handle.new.value draft.new.value }
    ensures held { handle.new.held ≡ handle.old.held }
    ensures draft_held { draft.new.held ≡ draft.old.held }
{
    if !handle.is_held() || !draft.is_held() {
        return Err(CallFault::Refused(Refusal::Down));
    }
    hand_next(
        alloc,
        handle.get_mut(),
        node,
        thread,
        draft.get_mut(),
        image,
    )
}

fn hand_next(
    alloc: Global,
    session: &mut Session,
    node: u16,
    thread: u16,
    draft: &mut Draft,
    image: &[u8],
) -> Result<(), CallFault>
    ensures { HandsNext node thread image.now session.old draft.old result session.new draft.new }
{
    let Some(range) = draft.next() else {
        return Ok(());
    };
    if image.len() != draft.image_len() as usize {
        return Err(CallFault::Refused(Refusal::Unknown));
    }
    let start = range.offset as usize;
    let bytes = &image[start..start + range.len as usize];
    session.hand(alloc, node, thread, &range, bytes)?;
    draft.advance();
    Ok(())
}

fn ended(
    alloc: Global,
    handle: &mut Handle,
    node: u16,
    thread: u16,
    draft: &mut DraftHandle,
) -> Result<Placement, CallFault>
    ensures ends { EndsIf (handle.old.held && draft.old.held) node thread handle.old.value draft.old.value
        result handle.new.value draft.new.value }
    ensures held { handle.new.held ≡ handle.old.held }
    ensures draft_held { draft.new.held ≡ draft.old.held }
{
    if !handle.is_held() || !draft.is_held() {
        return Err(CallFault::Refused(Refusal::Down));
    }
    end_draft(alloc, handle.get_mut(), node, thread, draft.get_mut())
}

fn end_draft(
    alloc: Global,
    session: &mut Session,
    node: u16,
    thread: u16,
    draft: &mut Draft,
) -> Result<Placement, CallFault>
    ensures { EndsDraft node thread session.old draft.old result session.new draft.new }
{
    if draft.next().is_some() {
        return Err(CallFault::Refused(Refusal::OutOfTurn));
    }
    let placement = session.end(alloc, node, thread)?;
    let _ = draft.lock(&[], &[]);
    Ok(placement)
}

fn begun_again(
    alloc: Global,
    handle: &mut Handle,
    node: u16,
    thread: u16,
    draft: &mut DraftHandle,
) -> Reply
    ensures again { BeginsAgainIf (handle.old.held && draft.old.held) node thread handle.old.value draft.old.value
        result handle.new.value draft.new.value }
    ensures held { handle.new.held ≡ handle.old.held }
    ensures draft_held { draft.new.held ≡ draft.old.held }
{
    if !handle.is_held() || !draft.is_held() {
        return Reply::Refused(Refusal::Down);
    }
    begin_again(alloc, handle.get_mut(), node, thread, draft.get_mut())
}

fn begin_again(
    alloc: Global,
    session: &mut Session,
    node: u16,
    thread: u16,
    draft: &mut Draft,
) -> Reply
    ensures { BeginsDraftAgain node thread session.old draft.old result session.new draft.new }
{
    let (writing, reading) = draft.locks();
    let reply = session.begin_again(alloc, node, thread, writing, reading);
    draft.rewind();
    reply
}

// Where the record stands, or that there is none.
fn placed(placement: Result<Placement, CallFault>) -> Result<Reply, AllocError>
    ensures { replied result ≡ place_taken placement }
{
    match placement {
        Ok(Placement::Record { place, words }) => Ok(Reply::Reserved { place, words }),
        Ok(Placement::Empty) => Ok(Reply::Ended),
        Err(CallFault::Refused(refusal)) => Ok(Reply::Refused(refusal)),
        Err(CallFault::NoMemory) => Err(AllocError),
    }
}

// It is done, refused, or there is no memory.
fn answer_to(said: Result<(), CallFault>) -> Answer
    ensures { result ≡ answer_to said }
{
    match said {
        Ok(()) => Answer::of_done(),
        Err(CallFault::Refused(refusal)) => Answer::of_refusal(refusal),
        Err(CallFault::NoMemory) => Answer::of(&Err(AllocError)),
    }
}
