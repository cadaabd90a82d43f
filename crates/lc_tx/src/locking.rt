//! Which segments are free, and who holds them.
ghost use Rattle.std.specs.Prelude.{◌≡◌, ◌↔◌, ◌++◌, ◌≤◌, ℕ, ◌<◌, List, [], ◌∷◌, None, IsTrue, length, take, drop, IfOk};
ghost use Rattle.std.specs.Prelude.{IfErr, OnOk, OnErr};
ghost use Rattle.smallvec.specs.SmallVec.{small_vec_len};
ghost use Rattle.lc_record.specs.Transaction.{is_member};
ghost use Rattle.lc_tx.specs.Images.{IsHere, IsSame};
ghost use Rattle.lc_tx.specs.Locking.{CanLock, IsLeastShut, AreTaken, AreLeft, lesser};
ghost use Rattle.lc_tx.specs.Tx.{IsSetOf, none_of};
ghost use Rattle.lc_tx.specs.Prepared.{with_number};
ghost use Rattle.lc_tx.specs.Walk.{with_in_order};

use crate::lock_mode::LockMode;
use crate::{Holders, Images, TxFault};
use smallvec::SmallVec;
use std::alloc::{AllocError, Global};

// Whether the segment's token is here, and those who hold the segment let it be locked.
fn can_lock<I: Images>(images: &mut I, segment: u32, mode: LockMode) -> bool
    ensures can { IsTrue result ↔ CanLock I.Images mode images.old segment }
    ensures same { IsSame I.Images images.old images.new }
{
    images.number(segment).is_some() && images.image(segment).holders.allow(mode)
}

/// The lesser of two numbers, either of which may be missing.
pub fn lesser(one: Option<u32>, other: Option<u32>) -> Option<u32>
    ensures { result ≡ lesser one other }
{
    match (one, other) {
        (Some(one), Some(other)) => Some(one.min(other)),
        (one, None) => one,
        (None, other) => other,
    }
}

/// The least of these segments that cannot be locked in this mode.
pub fn first_shut<I: Images>(images: &mut I, segments: &[u32], mode: LockMode) -> Option<u32>
    ensures least { IsLeastShut I.Images mode images.old segments.now result }
    ensures same { IsSame I.Images images.old images.new }
{
    let mut first = None;
    for segment in segments {
        if !can_lock(images, *segment, mode) {
            first = lesser(first, Some(*segment));
        }
    }
    first
}

// How many of these ascending numbers lie below one.
fn count_below(numbers: &[u32], number: u32) -> usize
    ensures within { result ≤ length numbers.now }
    ensures rest { take result numbers.now ++ with_number number (drop result numbers.now)
        ≡ with_in_order number numbers.now }
{
    for (i, other) in numbers.iter().enumerate() {
        if *other >= number {
            return i;
        }
    }
    numbers.len()
}

// Adds a number to ascending ones, once.
fn insert(set: &mut SmallVec<u32, 16>, number: u32) -> Result<(), AllocError>
    ensures inserted { OnOk result (set.new.items ≡ with_in_order number set.old.items) }
    ensures capacity { set.old.capacity ≤ set.new.capacity }
    ensures memory { OnErr result (set.old.capacity < length (with_in_order number set.old.items)) }
{
    let place = count_below(set.as_slice(), number);
    if place == set.len() {
        set.push(number)?;
        return Ok(());
    }
    if set[place] != number {
        set.insert(place, number)?;
    }
    Ok(())
}

/// Removes all of these, and keeps their memory. The last is taken off first: for one alone this costs less than
/// `clear`.
pub fn remove_all(set: &mut SmallVec<u32, 16>)
    ensures { set.new.items ≡ [] }
{
    if set.pop().is_some() && !set.is_empty() {
        set.clear();
    }
}

/// Adds those numbers that are none of these to an empty set: ascending, each once. It takes no memory for 16. Without
/// memory some may be added.
pub fn add_beside(
    set: &mut SmallVec<u32, 16>,
    these: &[u32],
    numbers: &[u32],
) -> Result<(), AllocError>
    requires { set.old.items ≡ [] }
    ensures set { OnOk result (IsSetOf (none_of these.now numbers.now) set.new.items) }
    ensures memory { OnErr result ((all : List ℕ) × IsSetOf (none_of these.now numbers.now) all × (16 < length all)) }
{
    // There is room for 16 at least.
    let _room = set.capacity();
    for number in numbers {
        if !these.contains(number) {
            insert(set, *number)?;
        }
    }
    Ok(())
}

/// Adds these numbers to an empty set: ascending, each once. It takes no memory for 16. Without memory some may be
/// added.
pub fn add_all(set: &mut SmallVec<u32, 16>, numbers: &[u32]) -> Result<(), AllocError>
    requires { set.old.items ≡ [] }
    ensures set { OnOk result (IsSetOf numbers.now set.new.items) }
    ensures memory { OnErr result ((all : List ℕ) × IsSetOf numbers.now all × (16 < length all)) }
{
    add_beside(set, &[], numbers)
}

/// These numbers as a set: ascending, each once, as a transaction lists the segments that it locks. It takes no memory
/// for 16.
///
/// # Errors
///
/// Where there is no memory, only for more than 16 different numbers.
pub fn set_of(alloc: Global, numbers: &[u32]) -> Result<SmallVec<u32, 16>, AllocError>
    ensures set { IfOk result (λ set. IsSetOf numbers.now set.items) }
    ensures memory { OnErr result ((set : List ℕ) × IsSetOf numbers.now set × (16 < length set)) }
{
    let mut set = SmallVec::new(alloc);
    add_all(&mut set, numbers)?;
    Ok(set)
}

/// Locks a segment for writing, if its token is here and nobody holds it. The segment is looked up once.
pub fn lock_free<I: Images>(images: &mut I, segment: u32, thread: u16) -> Result<(), TxFault>
    ensures can { OnOk result (CanLock I.Images LockMode.Exclusive images.old segment) }
    ensures taken { OnOk result (AreTaken I.Images LockMode.Exclusive thread (segment ∷ []) images.old images.new) }
    ensures cannot { OnErr result (CanLock I.Images LockMode.Exclusive images.old segment → ⊥) }
    ensures same { OnErr result (IsSame I.Images images.old images.new) }
    ensures not_here { IfErr result (λ fault. I.number_of images.old segment ≡ None
        → fault ≡ TxFault.NotHere segment) }
    ensures busy { IfErr result (λ fault. IsHere I.Images images.old segment → fault ≡ TxFault.Busy segment) }
{
    if images.number(segment).is_none() {
        return Err(TxFault::NotHere { segment });
    }
    let image = images.image(segment);
    if !image.holders.is_free() {
        return Err(TxFault::Busy { segment });
    }
    image.holders = Holders::Writer(thread);
    Ok(())
}

/// Locks each of these segments, which are here, in this mode.
pub fn lock<I: Images>(images: &mut I, segments: &[u32], thread: u16, mode: LockMode)
    requires here { (s : ℕ) → IsTrue (is_member s segments.now) → IsHere I.Images images.old s }
    requires thread { thread < 16 }
    ensures { AreTaken I.Images mode thread segments.now images.old images.new }
{
    for segment in segments {
        let image = images.image(*segment);
        image.holders = image.holders.with(thread, mode);
    }
}

/// Gives the thread's lock of each of these segments back, which are here.
pub fn unlock<I: Images>(images: &mut I, segments: &[u32], thread: u16)
    requires { (s : ℕ) → IsTrue (is_member s segments.now) → IsHere I.Images images.old s }
    ensures { AreLeft I.Images thread segments.now images.old images.new }
{
    for segment in segments {
        let image = images.image(*segment);
        image.holders = image.holders.without(thread);
    }
}
