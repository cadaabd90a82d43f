//! Set ranges of a transaction: a set of positions, and the old bytes come back.
#![tactic(auto)]

mod copies;
mod fault;
mod laws;
mod range;
mod range_set;
mod runs;
mod setting;
mod touched;
mod undo;

pub use fault::RangeFault;
pub use laws::{abort_restores, one_canonical_list};
pub use range::Range;
pub use range_set::RangeSet;
pub use undo::Undo;
