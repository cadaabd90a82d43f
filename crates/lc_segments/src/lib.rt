//! A segment of a node under its lock: the work that runs on it, the records that come to it, and its token with the
//! area of its pages.
#![tactic(auto)]

mod applying;
mod arriving;
mod boxed_side;
mod cleaning;
mod delivering;
mod fresh;
mod get;
mod growing;
mod held;
mod laws;
mod leaving;
mod leaving_segments;
mod lending;
mod lent;
mod node_fault;
mod page_area;
mod page_writes;
mod put;
mod reception;
mod scratch;
mod seg_side;
mod snapshot;
mod touching;
mod travelling;
mod work;

pub use boxed_side::BoxedSide;
pub use get::Get;
pub use held::HeldSide;
pub use laws::{work_is_laid_over, works_nothing, works_range, works_then, works_write};
pub use lent::{HeldImages, LentSlot};
pub use node_fault::NodeFault;
pub use page_area::PageArea;
pub use put::Put;
pub use reception::Reception;
pub use scratch::Scratch;
pub use seg_side::SegSide;
pub use snapshot::Snapshot;
pub use travelling::Travelling;
pub use work::Work;
