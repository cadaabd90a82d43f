//! Records: `decode` and `encode` are the grammar of records both ways.
#![tactic(auto)]

mod canonical;
mod data;
mod decoding;
mod encoding;
mod fault;
mod fields;
mod geometry;
mod grammar_version;
mod group;
mod items;
mod kept_locks;
mod laws;
mod layout;
mod limits;
mod lock_words;
mod part;
mod parts;
mod placed_span;
mod putting;
mod range_cursor;
mod record;
mod span;
mod spans;
mod spelling;
mod view;

pub use decoding::{check, decode};
pub use encoding::{encode, encoded_words};
pub use fault::RecordFault;
pub use fields::{gate, length, lock_count, node, range_count, version};
pub use geometry::{Geometry, PAGE};
pub use grammar_version::GrammarVersion;
pub use group::Group;
pub use items::Items;
pub use kept_locks::{kept_lock, kept_lock_count};
pub use laws::{header_tells_length, one_reading, spans_give_ranges};
pub use layout::Layout;
pub use limits::{MAX_NODE, MAX_SEGMENT, MAX_SEQ, MAX_WORDS};
pub use part::Part;
pub use placed_span::PlacedSpan;
pub use putting::put_words;
pub use record::{Lock, RangeData, Record};
pub use span::Span;
pub use spans::Spans;
pub use spelling::Spelling;
pub use view::View;
