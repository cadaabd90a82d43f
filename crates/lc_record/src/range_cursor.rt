//! Ranges in order, against the locks of their segments.
ghost use Rattle.std.specs.Prelude.{◌≡◌, ◌<◌, ◌^◌};
ghost use Rattle.lc_record.specs.LockWords.{locks_in};
ghost use Rattle.lc_record.specs.Reading.{Gives, next_lock, place, start, step};

use crate::limits::MAX_OFFSET;
use crate::lock_words::LockWords;
use crate::span::Span;

/// How far the ranges have come: where the last one ended, and the locks of which none came yet.
#[derive(Clone, Copy)]
pub struct RangeCursor<'a> {
    pub segment: u32,
    pub end: u64,
    pub locks: LockWords<'a>,
}

/// Before the first range. Nothing stands in segment 0 after this end.
pub fn start(locks: LockWords<'_>) -> RangeCursor<'_>
    ensures { place result.segment result.end (locks_in result.locks.words.now)
        ≡ start (locks_in locks.entry.words.now) }
{
    RangeCursor {
        segment: 0,
        end: MAX_OFFSET,
        locks,
    }
}

fn next_lock(segment: u32, mut locks: LockWords<'_>) -> Option<LockWords<'_>>
    ensures { Gives (λ rest. locks_in rest.words.now) result (next_lock segment (locks_in locks.entry.words.now)) }
{
    let lock = locks.next()?;
    if lock.segment != segment {
        return None;
    }
    Some(locks)
}

/// One range more, or None where it does not follow: it is of the same segment with a gap between, or of the segment
/// of the next lock.
pub fn step(before: RangeCursor<'_>, span: Span) -> Option<RangeCursor<'_>>
    requires { span.len < 2 ^ 63 }
    ensures { Gives (λ w. place w.segment w.end (locks_in w.locks.words.now)) result
        (step (place before.entry.segment before.entry.end (locks_in before.entry.locks.words.now)) span) }
{
    let segment = span.segment;
    let end = u64::from(span.offset) + span.len;
    if segment == before.segment {
        if u64::from(span.offset) <= before.end {
            return None;
        }
        return Some(RangeCursor {
            segment,
            end,
            locks: before.locks,
        });
    }
    let locks = next_lock(segment, before.locks)?;
    Some(RangeCursor {
        segment,
        end,
        locks,
    })
}
