//! Which copies of a store hold all of it.
ghost use Rattle.std.specs.Prelude.{IfNone, IfSome};
ghost use Rattle.lc_folder.specs.Growth.{Holds, IsLacking};

use lc_record::Geometry;

/// The first area of a store of the one size for which a copy of the other size has no room. It is the first log, where
/// the logs would be others, and else the first segment that would be cut short, or that the copy would lack. A copy
/// that holds all may have more segments, and longer ones.
pub fn first_lacking(store: &Geometry, copy: &Geometry) -> Option<u32>
    ensures lacking { IfSome result (IsLacking store.now copy.now) }
    ensures holds { IfNone result (Holds store.now copy.now) }
{
    let nodes = u32::from(store.nodes);
    if copy.nodes != store.nodes || copy.words != store.words {
        return Some(0);
    }
    if copy.pages < store.pages {
        return Some(nodes);
    }
    if copy.segments < store.segments {
        return Some(nodes + copy.segments);
    }
    None
}
