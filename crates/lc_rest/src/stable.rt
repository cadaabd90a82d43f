//! What of a segment is stable.
ghost use Rattle.std.specs.Prelude.{◌≡◌, ◌+◌, ◌^◌, ◌<◌, length, map, take};
ghost use Rattle.lc_rest.specs.Merge.{logs_of};
ghost use Rattle.lc_rest.specs.Stable.{bytes_up_to, stable_count, up_to_on};
ghost use Rattle.lc_rest.specs.TokenTest.{count_log, count_on};

use crate::replay::lay_on;
use crate::token_test::{count_log, number_in};
use lc_record::Record;

// How many of the first so many records of the log are of the segment.
fn count_stable(segment: u32, stable: usize, log: &[Record]) -> usize
    ensures { result ≡ count_log segment (take stable log.now) }
{
    count_log(segment, &log[..stable.min(log.len())])
}

/// The number up to which a segment is stable, which had this number before all its records, in logs of which so many
/// records each are stable. It takes no memory.
pub fn stable_number(segment: u32, first: u64, logs: &[Vec<Record>], stable: &[usize]) -> u64
    requires count { length stable.now ≡ length logs.now }
    requires small { first + count_on segment (logs_of logs.now) < 2 ^ 64 }
    ensures { result ≡ first + stable_count segment (logs_of logs.now) stable.now }
{
    let mut number = first;
    for node in 0..logs.len() {
        number += count_stable(segment, stable[node], logs[node].as_slice()) as u64;
    }
    number
}

// Lays the record's ranges of the segment over its bytes, if it is not above the number.
fn lay_up_to(segment: u32, number: u64, whole: &Record, bytes: &mut [u8])
    ensures { bytes.new ≡ up_to_on segment number whole.now bytes.old }
{
    if number_in(segment, whole).unwrap_or(0) <= number {
        lay_on(segment, whole, bytes);
    }
}

/// Puts the records that are not above a number, in their order, on the bytes of a segment. It takes no memory.
pub fn replay_up_to(segment: u32, number: u64, records: &[&Record], bytes: &mut [u8])
    ensures { bytes.new ≡ bytes_up_to segment number (map (λ r. r.now) records.now) bytes.old }
{
    for whole in records {
        lay_up_to(segment, number, whole, bytes);
    }
}
