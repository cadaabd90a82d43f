//! Where things stand in the picture, in pixels.
ghost use Rattle.std.specs.Prelude.{◌≡◌};
ghost use Rattle.lc_look.specs.Layout.{cell_left, cell_top, field_height, fields_top, log_top, picture_height};

use lc_record::Geometry;

// What stands above the first log: the legend.
const LOGS_TOP: u32 = 90;

// A log's line of text, its bar, and the space below.
const LOG_HEIGHT: u32 = 70;

// A segment's line of text, and the space below its pages.
const FIELD_SPACE: u32 = 40;

// From one page to the next.
const CELL: u32 = 15;

// How many pages stand in a row.
const PAGES_IN_ROW: u32 = 64;

/// Where the row of a node's log begins.
pub(crate) fn log_top(node: u16) -> u32
    ensures { result ≡ log_top node }
{
    LOGS_TOP + LOG_HEIGHT * u32::from(node)
}

/// Where the first segment begins.
pub(crate) fn fields_top(geometry: &Geometry) -> u32
    ensures { result ≡ fields_top geometry.now }
{
    log_top(geometry.nodes)
}

/// From one segment to the next.
pub(crate) fn field_height(geometry: &Geometry) -> u32
    ensures { result ≡ field_height geometry.now }
{
    FIELD_SPACE + CELL * ((geometry.pages + PAGES_IN_ROW - 1) / PAGES_IN_ROW)
}

/// The height of the picture.
pub(crate) fn picture_height(geometry: &Geometry) -> u32
    ensures { result ≡ picture_height geometry.now }
{
    fields_top(geometry) + geometry.segments * field_height(geometry)
}

/// Where a page stands in its row.
pub(crate) fn cell_left(page: u32) -> u32
    ensures { result ≡ cell_left page }
{
    CELL * (page % PAGES_IN_ROW)
}

/// Where its row begins.
pub(crate) fn cell_top(page: u32) -> u32
    ensures { result ≡ cell_top page }
{
    CELL * (page / PAGES_IN_ROW)
}
