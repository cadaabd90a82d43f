//! Whether the geometry has what an event names.
ghost use Rattle.std.specs.Prelude.{◌≡◌, ◌&&◌, ℕ};
ghost use Rattle.std.specs.List.{list_all};
ghost use Rattle.lc_model.specs.Refusals.{is_known, is_node, is_page, is_thread, is_segment};
ghost use Rattle.lc_model.specs.declared.event.Event.TheVariants.{Begin, Close, Deliver, FlushStep};
ghost use Rattle.lc_model.specs.declared.event.Event.TheVariants.{Leave, PageStep, SetRange};

use lc_record::Geometry;

/// Whether the geometry has the node, the thread and all segments that a transaction begins with.
pub(crate) fn knows_begin(
    geometry: &Geometry,
    node: u16,
    thread: u16,
    segments: &[u32],
    reading: &[u32],
) -> bool
    ensures { result ≡ is_known geometry.now (Begin node thread segments.now reading.now) }
{
    is_seat(geometry, node, thread)
        && are_segments(geometry, segments)
        && are_segments(geometry, reading)
}

/// Whether the geometry has the node, the thread and the segment that it asks something of, be it a range of none.
pub(crate) fn knows_place(geometry: &Geometry, node: u16, thread: u16, segment: u32) -> bool
    ensures { result ≡ is_known geometry.now (SetRange node thread segment 0 0) }
{
    is_seat(geometry, node, thread) && is_segment(geometry, segment)
}

/// Whether the geometry has the node and the segment whose token is to move.
pub(crate) fn knows_token(geometry: &Geometry, node: u16, segment: u32) -> bool
    ensures { result ≡ is_known geometry.now (Leave node segment) }
{
    is_node(geometry, node) && is_segment(geometry, segment)
}

/// Whether the geometry has both nodes and the segment of a delivery.
pub(crate) fn knows_delivery(geometry: &Geometry, sender: u16, segment: u32, to: u16) -> bool
    ensures { (number : ℕ) → result ≡ is_known geometry.now (Deliver sender number segment to) }
{
    is_node(geometry, to) && is_node(geometry, sender) && is_segment(geometry, segment)
}

/// Whether the geometry has this node, this segment and in each segment this page.
pub fn is_page_of(geometry: &Geometry, node: u16, segment: u32, page: u32) -> bool
    ensures page { result ≡ (is_node geometry.now node && is_segment geometry.now segment
        && is_page geometry.now page) }
    ensures known { result ≡ is_known geometry.now (PageStep node segment page) }
{
    is_node(geometry, node) && is_segment(geometry, segment) && page < geometry.pages
}

/// Whether the geometry has this node, and each node this thread.
pub(crate) fn is_seat(geometry: &Geometry, node: u16, thread: u16) -> bool
    ensures seat { result ≡ (is_node geometry.now node && is_thread geometry.now thread) }
    ensures known { result ≡ is_known geometry.now (Close node thread) }
{
    is_node(geometry, node) && thread < geometry.threads
}

/// Whether the geometry has this node.
pub(crate) fn is_node(geometry: &Geometry, node: u16) -> bool
    ensures node { result ≡ is_node geometry.now node }
    ensures known { result ≡ is_known geometry.now (FlushStep node) }
{
    node < geometry.nodes
}

// Whether the geometry has this segment.
fn is_segment(geometry: &Geometry, segment: u32) -> bool
    ensures { result ≡ is_segment geometry.now segment }
{
    1 <= segment && segment <= geometry.segments
}

// Whether the geometry has each of these segments.
fn are_segments(geometry: &Geometry, segments: &[u32]) -> bool
    ensures { result ≡ list_all (is_segment geometry.now) segments.now }
{
    segments
        .iter()
        .all(|segment| is_segment(geometry, *segment))
}
