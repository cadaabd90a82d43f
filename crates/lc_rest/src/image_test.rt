//! The tests of a segment's images.
ghost use Rattle.std.specs.Prelude.{◌≡◌, ◌↔◌, IsTrue, map};
ghost use Rattle.lc_rest.specs.Replay.{above_on, bytes_above};

use crate::replay::lay_on;
use crate::token_test::number_in;
use lc_record::Record;

// Lays the record's ranges of the segment over its bytes, if it is above the number.
fn lay_above(segment: u32, applied: u64, whole: &Record, image: &mut [u8])
    ensures { image.new ≡ above_on segment applied whole.now image.old }
{
    if number_in(segment, whole).unwrap_or(0) > applied {
        lay_on(segment, whole, image);
    }
}

/// Whether a node's image, with the records above what it has applied put on, is the bytes that all records make of the
/// pages. The image is then with these put on, whatever the answer. It takes no memory.
pub fn comes_up(
    segment: u32,
    applied: u64,
    records: &[&Record],
    image: &mut [u8],
    bytes: &[u8],
) -> bool
    ensures image { image.new ≡ bytes_above segment applied (map (λ r. r.now) records.now) image.old }
    ensures comes { IsTrue result ↔ (bytes_above segment applied (map (λ r. r.now) records.now) image.old ≡ bytes.now) }
{
    for whole in records {
        lay_above(segment, applied, whole, image);
    }
    &*image == bytes
}
