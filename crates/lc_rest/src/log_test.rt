//! The tests of a node's records.
ghost use Rattle.std.specs.Prelude.{◌≡◌, ◌≤◌, ◌↔◌, ◌+◌, ℕ, IsTrue, All, Some, length, slice_get};
ghost use Rattle.lc_token.specs.declared.token.Token.{Token as TheToken};
ghost use Rattle.lc_token.specs.KnownClean.{known as known_of};
ghost use Rattle.lc_rest.specs.Adopted.{IsInside};
ghost use Rattle.lc_rest.specs.LogTest.{IsOwn};

use lc_record::{Geometry, RangeData, Record};
use lc_token::{KnownClean, Token};

// Whether the range lies in a segment of the geometry.
fn is_inside(geometry: &Geometry, range: &RangeData) -> bool
    ensures { IsTrue result ↔ IsInside geometry.now range.now }
{
    range.segment >= 1
        && range.segment <= geometry.segments
        && range.offset as u64 + range.bytes.as_slice().len() as u64
            <= geometry.segment_len() as u64
}

// Whether all ranges of the record do.
fn are_inside(geometry: &Geometry, whole: &Record) -> bool
    ensures { IsTrue result ↔ All (IsInside geometry.now) whole.now.ranges }
{
    for range in whole.ranges.as_slice() {
        if !is_inside(geometry, range) {
            return false;
        }
    }
    true
}

// Whether the record names its node, and lies in the segments.
fn is_own(geometry: &Geometry, node: u16, whole: &Record) -> bool
    ensures { IsTrue result ↔ IsOwn geometry.now node whole.now }
{
    whole.node == node && are_inside(geometry, whole)
}

/// Whether each record of a log names its node, and lies in the segments of the geometry. It takes no memory.
pub fn keeps_own(geometry: &Geometry, node: u16, log: &[Record]) -> bool
    ensures { IsTrue result ↔ All (IsOwn geometry.now node) log.now }
{
    for whole in log {
        if !is_own(geometry, node, whole) {
            return false;
        }
    }
    true
}

/// Whether what a node knows to be clean is at most what the token of each segment says. The tokens are those of the
/// segments from 1 on, at most 16. It takes no memory.
pub fn keeps_known(known: &KnownClean, tokens: &[Token]) -> bool
    requires { length tokens.now ≤ 16 }
    ensures { IsTrue result ↔ ((k : ℕ) (token : TheToken) → slice_get tokens.now k ≡ Some token
        → known_of known.now (k + 1) ≤ token.clean) }
{
    for (place, token) in tokens.iter().enumerate() {
        if known.known_clean(place as u32 + 1) > token.clean() {
            return false;
        }
    }
    true
}
