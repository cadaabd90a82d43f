//! What C calls.
ghost use Rattle.std.specs.Prelude.{◌≡◌, ◌⊎◌, [], true, false, Ok, Some, length};
ghost use Rattle.lc_record.specs.Geometry.{HasNumbers, IsGeometry};
ghost use Rattle.lc_model.specs.declared.event.Event.TheVariants.{Abort, Arrive, Begin, Deliver, FlushStep, Leave};
ghost use Rattle.lc_model.specs.declared.event.Event.TheVariants.{Read, RecoverStep, SetRange, Trim};
ghost use Rattle.lc_c.specs.Calls.{AddsIf, BeginsBy, BeginsIf, Fills, IsBegun, StartsIf, Steps};
ghost use Rattle.lc_c.specs.Calls.{StepsIf, TellsBytes, TellsCall};
ghost use Rattle.lc_c.specs.SessionState.{is_step};
ghost use Rattle.lc_c.specs.declared.session_state.SessionState.TheVariants.{Over};

use crate::answer::{Answer, DONE, NO_MEMORY};
use crate::handle::Handle;
use crate::last_call::LastCall;
use crate::session::Session;
use lc_core::{CallFault, Event, Refusal, Reply};
use lc_record::Geometry;
use std::alloc::{AllocError, Global};

/// A session for a store of this geometry, in a handle that holds none: 0. Else nothing has changed, and it is 4 where
/// the handle holds a session, 2 where a number is outside of its range, and 64 where there is no memory.
#[unsafe(no_mangle)]
pub extern "C" fn lcrvm_session_new(
    alloc: Global,
    nodes: u16,
    threads: u16,
    segments: u32,
    pages: u32,
    words: u32,
    handle: &mut Handle,
) -> u32
    ensures in_turn { handle.old.held ≡ true → (result ≡ 4) × (handle.new ≡ handle.old) }
    ensures outside { handle.old.held ≡ false → (IsGeometry nodes threads segments pages words → ⊥)
        → (result ≡ 2) × (handle.new ≡ handle.old) }
    ensures begun { handle.old.held ≡ false → IsGeometry nodes threads segments pages words
        → ((result ≡ 0) × IsBegun nodes threads segments pages words handle.new)
        ⊎ ((result ≡ 64) × (handle.new ≡ handle.old)) }
{
    if handle.is_held() {
        return Refusal::OutOfTurn.code() as u32;
    }
    let Some(geometry) = Geometry::new(nodes, threads, segments, pages, words) else {
        return Refusal::Unknown.code() as u32;
    };
    match Box::new(alloc, Session::new(alloc, geometry)) {
        Ok(session) => {
            *handle = Handle::of(session);
            DONE
        }
        Err(_) => NO_MEMORY,
    }
}

/// Adds the area of the next file, with what the file holds, in the order of the store: the logs of the nodes, and then
/// the segments. After any answer but 0 nothing has changed.
#[unsafe(no_mangle)]
pub extern "C" fn lcrvm_session_area(alloc: Global, handle: &mut Handle, bytes: &[u8]) -> u32
    ensures { AddsIf handle.old.held handle.old.value bytes.now result handle.new.value
        × (handle.new.held ≡ handle.old.held) }
{
    if !handle.is_held() {
        return Refusal::Down.code() as u32;
    }
    match handle.get_mut().add_area(alloc, bytes) {
        Ok(()) => DONE,
        Err(CallFault::Refused(refusal)) => refusal.code() as u32,
        Err(CallFault::NoMemory) => NO_MEMORY,
    }
}

/// The areas that were added become a store, which is down.
#[unsafe(no_mangle)]
pub extern "C" fn lcrvm_session_start(handle: &mut Handle, answer: &mut Answer) -> u32
    ensures starts { StartsIf handle.old answer.new handle.new }
    ensures status { result ≡ answer.new.status }
{
    *answer = started(handle);
    answer.status
}

/// A step of the recovery.
#[unsafe(no_mangle)]
pub extern "C" fn lcrvm_session_recover_step(
    alloc: Global,
    handle: &mut Handle,
    answer: &mut Answer,
) -> u32
    ensures steps { Steps handle.old RecoverStep answer.new handle.new }
    ensures status { result ≡ answer.new.status }
{
    step(alloc, handle, &Event::RecoverStep, answer)
}

/// A thread of a node begins a transaction, and locks segments for writing and others for reading.
#[unsafe(no_mangle)]
pub extern "C" fn lcrvm_session_begin(
    handle: &mut Handle,
    node: u16,
    thread: u16,
    writing: &[u32],
    reading: &[u32],
    answer: &mut Answer,
) -> u32
    ensures steps { Steps handle.old (Begin node thread writing.now reading.now) answer.new handle.new }
    ensures status { result ≡ answer.new.status }
{
    let said = Ok(begun(handle, node, thread, writing, reading));
    *answer = Answer::of(&said);
    answer.status
}

/// The lowest thread of a node that has no transaction begins one, and is told; where all have one it is the last, and
/// the answer is 4.
#[unsafe(no_mangle)]
pub extern "C" fn lcrvm_session_begin_free(
    handle: &mut Handle,
    node: u16,
    writing: &[u32],
    reading: &[u32],
    thread: &mut u16,
    answer: &mut Answer,
) -> u32
    ensures begins { BeginsBy handle.old node writing.now reading.now thread.new answer.new handle.new }
    ensures status { result ≡ answer.new.status }
{
    let (found, reply) = begun_free(handle, node, writing, reading);
    *thread = found;
    *answer = Answer::of(&Ok(reply));
    answer.status
}

/// The open transaction of a thread is about to change bytes of a segment.
#[unsafe(no_mangle)]
pub extern "C" fn lcrvm_session_set_range(
    alloc: Global,
    handle: &mut Handle,
    node: u16,
    thread: u16,
    segment: u32,
    offset: u32,
    len: u32,
    answer: &mut Answer,
) -> u32
    ensures steps { Steps handle.old (SetRange node thread segment offset len) answer.new handle.new }
    ensures status { result ≡ answer.new.status }
{
    let event = Event::SetRange {
        node,
        thread,
        segment,
        offset,
        len,
    };
    step(alloc, handle, &event, answer)
}

/// It fills a buffer with bytes of a segment that it locked; where it is refused the buffer is as before.
#[unsafe(no_mangle)]
pub extern "C" fn lcrvm_session_read(
    handle: &mut Handle,
    node: u16,
    thread: u16,
    segment: u32,
    offset: u32,
    buffer: &mut [u8],
    answer: &mut Answer,
) -> u32
    ensures fills { Fills handle.old (Read node thread segment offset (length buffer.old)) buffer.old buffer.new
        answer.new handle.new }
    ensures status { result ≡ answer.new.status }
{
    *answer = read(handle, node, thread, segment, offset, buffer);
    answer.status
}

/// It is dropped.
#[unsafe(no_mangle)]
pub extern "C" fn lcrvm_session_abort(
    alloc: Global,
    handle: &mut Handle,
    node: u16,
    thread: u16,
    answer: &mut Answer,
) -> u32
    ensures steps { Steps handle.old (Abort node thread) answer.new handle.new }
    ensures status { result ≡ answer.new.status }
{
    step(alloc, handle, &Event::Abort { node, thread }, answer)
}

/// A device call of a node's flush.
#[unsafe(no_mangle)]
pub extern "C" fn lcrvm_session_flush_step(
    alloc: Global,
    handle: &mut Handle,
    node: u16,
    answer: &mut Answer,
) -> u32
    ensures steps { Steps handle.old (FlushStep node) answer.new handle.new }
    ensures status { result ≡ answer.new.status }
{
    step(alloc, handle, &Event::FlushStep { node }, answer)
}

/// A segment's token leaves a node.
#[unsafe(no_mangle)]
pub extern "C" fn lcrvm_session_leave(
    alloc: Global,
    handle: &mut Handle,
    node: u16,
    segment: u32,
    answer: &mut Answer,
) -> u32
    ensures steps { Steps handle.old (Leave node segment) answer.new handle.new }
    ensures status { result ≡ answer.new.status }
{
    step(alloc, handle, &Event::Leave { node, segment }, answer)
}

/// A token that is on its way arrives at a node.
#[unsafe(no_mangle)]
pub extern "C" fn lcrvm_session_arrive(
    alloc: Global,
    handle: &mut Handle,
    node: u16,
    segment: u32,
    answer: &mut Answer,
) -> u32
    ensures steps { Steps handle.old (Arrive node segment) answer.new handle.new }
    ensures status { result ≡ answer.new.status }
{
    step(alloc, handle, &Event::Arrive { node, segment }, answer)
}

/// A node receives a published record of another for one segment.
#[unsafe(no_mangle)]
pub extern "C" fn lcrvm_session_deliver(
    alloc: Global,
    handle: &mut Handle,
    sender: u16,
    number: u64,
    segment: u32,
    to: u16,
    answer: &mut Answer,
) -> u32
    ensures steps { Steps handle.old (Deliver sender number segment to) answer.new handle.new }
    ensures status { result ≡ answer.new.status }
{
    let event = Event::Deliver {
        sender,
        number,
        segment,
        to,
    };
    step(alloc, handle, &event, answer)
}

/// A node drops the published records that all nodes have applied.
#[unsafe(no_mangle)]
pub extern "C" fn lcrvm_session_trim(
    alloc: Global,
    handle: &mut Handle,
    node: u16,
    answer: &mut Answer,
) -> u32
    ensures steps { Steps handle.old (Trim node) answer.new handle.new }
    ensures status { result ≡ answer.new.status }
{
    step(alloc, handle, &Event::Trim { node }, answer)
}

/// The last call of the area at this place, where there is one.
#[unsafe(no_mangle)]
pub extern "C" fn lcrvm_session_last_call(
    handle: &mut Handle,
    place: u32,
    call: &mut LastCall,
) -> bool
    ensures { TellsCall handle.old place result call.old call.new handle.new }
{
    if !handle.is_held() {
        return false;
    }
    match handle.get_mut().area(place as usize) {
        Some(area) => {
            *call = LastCall::of(area);
            true
        }
        None => false,
    }
}

/// Fills the buffer with the bytes of the area at this place from a position on, where it has so many; else it is as
/// before.
#[unsafe(no_mangle)]
pub extern "C" fn lcrvm_session_bytes(
    handle: &mut Handle,
    place: u32,
    at: usize,
    buffer: &mut [u8],
) -> bool
    ensures { TellsBytes handle.old place at result buffer.old buffer.new handle.new }
{
    if !handle.is_held() {
        return false;
    }
    match handle.get_mut().window(place as usize, at, buffer.len()) {
        Some(bytes) => {
            buffer.copy_from_slice(bytes);
            true
        }
        None => false,
    }
}

/// A file has failed: the session refuses all from now on.
#[unsafe(no_mangle)]
pub extern "C" fn lcrvm_session_give_up(handle: &mut Handle)
    ensures over { handle.old.held ≡ true → handle.new.value.stage ≡ Over }
    ensures held { handle.new.held ≡ handle.old.held }
{
    if handle.is_held() {
        handle.get_mut().give_up();
    }
}

/// Frees the session that the handle holds, if it holds one. The handle, and each copy of it, is not used again.
#[unsafe(no_mangle)]
pub extern "C" fn lcrvm_session_free(handle: Handle) {
    let mut handle = handle;
    if handle.is_held() {
        drop(handle.into_box());
    }
}

// An event that is no stop.
fn step(alloc: Global, handle: &mut Handle, event: &Event, answer: &mut Answer) -> u32
    requires step { is_step event.now ≡ true }
    ensures steps { Steps handle.old event.now answer.new handle.new }
    ensures status { result ≡ answer.new.status }
{
    let said = stepped(alloc, handle, event);
    *answer = Answer::of(&said);
    answer.status
}

fn stepped(alloc: Global, handle: &mut Handle, event: &Event) -> Result<Reply, AllocError>
    requires step { is_step event.now ≡ true }
    ensures steps { StepsIf handle.old.held handle.old.value event.now result handle.new.value }
    ensures held { handle.new.held ≡ handle.old.held }
{
    if !handle.is_held() {
        return Ok(Reply::Refused(Refusal::Down));
    }
    handle.get_mut().step(alloc, event)
}

fn begun(handle: &mut Handle, node: u16, thread: u16, writing: &[u32], reading: &[u32]) -> Reply
    ensures steps { StepsIf handle.old.held handle.old.value (Begin node thread writing.now reading.now)
        (Ok result) handle.new.value }
    ensures held { handle.new.held ≡ handle.old.held }
{
    if !handle.is_held() {
        return Reply::Refused(Refusal::Down);
    }
    handle.get_mut().begin(node, thread, writing, reading)
}

fn begun_free(handle: &mut Handle, node: u16, writing: &[u32], reading: &[u32]) -> (u16, Reply)
    ensures begins { BeginsIf handle.old.held node writing.now reading.now handle.old.value result.0 result.1
        handle.new.value }
    ensures held { handle.new.held ≡ handle.old.held }
{
    if !handle.is_held() {
        return (0, Reply::Refused(Refusal::Down));
    }
    handle.get_mut().begin_free(node, writing, reading)
}

fn read(
    handle: &mut Handle,
    node: u16,
    thread: u16,
    segment: u32,
    offset: u32,
    buffer: &mut [u8],
) -> Answer
    ensures { Fills handle.old (Read node thread segment offset (length buffer.old)) buffer.old buffer.new result
        handle.new }
{
    if !handle.is_held() {
        return Answer::of_refusal(Refusal::Down);
    }
    match handle.get_mut().read(node, thread, segment, offset, buffer) {
        Ok(()) => Answer::of_bytes(),
        Err(refusal) => Answer::of_refusal(refusal),
    }
}

fn started(handle: &mut Handle) -> Answer
    ensures { StartsIf handle.old result handle.new }
{
    if !handle.is_held() {
        return Answer::of_refusal(Refusal::Down);
    }
    match handle.get_mut().start() {
        Ok(()) => Answer::of_done(),
        Err(refusal) => Answer::of_refusal(refusal),
    }
}
