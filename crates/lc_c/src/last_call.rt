//! The last call of an area as C reads it.
ghost use Rattle.std.specs.Prelude.{◌≡◌};
ghost use Rattle.lc_c.specs.LastCall.{call_of};

use crate::area_call::AreaCall;
use crate::mirror_area::MirrorArea;

/// The last call of an area: none 0, a write 1, of `len` bytes from `at` on, or a sync 2; and how many calls there
/// were, from 0 again after 2^64 - 1. What does not belong to it is 0.
#[repr(C)]
#[derive(Clone, Copy, Drop)]
pub struct LastCall {
    pub kind: u32,
    pub calls: u64,
    pub at: u64,
    pub len: u64,
}

impl LastCall {
    /// That of this area.
    pub(crate) fn of(area: &MirrorArea) -> LastCall
        ensures { result ≡ call_of area.now }
    {
        let calls = area.calls();
        match area.last() {
            None => LastCall {
                kind: 0,
                calls,
                at: 0,
                len: 0,
            },
            Some(AreaCall::Write { at, len }) => LastCall {
                kind: 1,
                calls,
                at: at as u64,
                len: len as u64,
            },
            Some(AreaCall::Sync) => LastCall {
                kind: 2,
                calls,
                at: 0,
                len: 0,
            },
        }
    }
}
