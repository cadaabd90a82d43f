//! The number of each segment.
ghost use Rattle.std.specs.Prelude.{◌≡◌, ◌≤◌, ◌^◌, ℕ, All, IfOk, IfErr, OnOk, take, length};
ghost use Rattle.lc_model.specs.Merge.{IsLeastPair};
ghost use Rattle.lc_recover.specs.Locks.{AreInOrder, StandsTwice, IsNumbering, IsMissing, greatest_kept};
ghost use Rattle.lc_recover.specs.declared.fault.RecoverFault.TheVariants.{Twice, Gap};

use crate::RecoverFault;
use crate::lock_number::LockNumber;
use crate::segment_pages::SegmentPages;
use lc_record::MAX_SEGMENT;

// How many segments a store has at most.
const SEGMENTS: usize = MAX_SEGMENT as usize;

/// Refuses the least number of a segment that stands twice among these, which are in order.
pub(crate) fn once(numbers: &[LockNumber]) -> Result<(), RecoverFault>
    requires { AreInOrder numbers.now }
    ensures twice { IfErr result (λ fault. (segment : ℕ) × (seq : ℕ) × (fault ≡ Twice segment seq)
        × IsLeastPair (StandsTwice numbers.now) segment seq) }
    ensures once { OnOk result ((segment seq : ℕ) → StandsTwice numbers.now segment seq → ⊥) }
{
    for index in 1..numbers.len() {
        if numbers[index - 1] == numbers[index] {
            return Err(RecoverFault::Twice {
                segment: numbers[index].segment,
                seq: numbers[index].seq,
            });
        }
    }
    Ok(())
}

/// The greatest sequence of a segment's pages.
pub(crate) fn greatest_sequence(segment: &SegmentPages) -> u64
    requires { length segment.now.texts ≤ 1024 }
    ensures { result ≡ greatest_kept segment.now }
{
    let mut greatest = 0;
    for page in 0..segment.texts.len() as u32 {
        greatest = greatest.max(segment.texts.stable(page));
    }
    greatest
}

/// The number of each segment, from segment 1 on, and zeros after them: counted up from those of the pages by the
/// numbers of the records, which are in order. Refuses the least number that is missing below one that is there.
pub(crate) fn counted(kept: &[u64], numbers: &[LockNumber]) -> Result<[u64; SEGMENTS], RecoverFault>
    requires few_segments { length kept.now ≤ 16 }
    requires order { AreInOrder numbers.now }
    requires each { All (λ (n : LockNumber). (1 ≤ n.segment) × (n.segment ≤ length kept.now)) numbers.now }
    requires few { All (λ (n : LockNumber). n.seq ≤ 2 ^ 60) numbers.now }
    ensures gap { IfErr result (λ fault. (segment : ℕ) × (seq : ℕ) × (fault ≡ Gap segment seq)
        × IsLeastPair (IsMissing kept.now numbers.now) segment seq) }
    ensures counted { IfOk result (λ counts. IsNumbering kept.now numbers.now (take (length kept.now) counts)) }
{
    let mut counts = [0; SEGMENTS];
    counts[..kept.len()].copy_from_slice(kept);
    count_up(&mut counts[..kept.len()], numbers)?;
    Ok(counts)
}

// Counts each segment's number up.
fn count_up(counts: &mut [u64], numbers: &[LockNumber]) -> Result<(), RecoverFault>
    requires order { AreInOrder numbers.now }
    requires each { All (λ (n : LockNumber). (1 ≤ n.segment) × (n.segment ≤ length counts.old)) numbers.now }
    requires few { All (λ (n : LockNumber). n.seq ≤ 2 ^ 60) numbers.now }
    ensures gap { IfErr result (λ fault. (segment : ℕ) × (seq : ℕ) × (fault ≡ Gap segment seq)
        × IsLeastPair (IsMissing counts.old numbers.now) segment seq) }
    ensures counted { OnOk result (IsNumbering counts.old numbers.now counts.new) }
{
    for number in numbers {
        let place = number.segment as usize - 1;
        let count = counts[place];
        if number.seq > count {
            if number.seq > count + 1 {
                return Err(RecoverFault::Gap {
                    segment: number.segment,
                    seq: count + 1,
                });
            }
            counts[place] = number.seq;
        }
    }
    Ok(())
}
