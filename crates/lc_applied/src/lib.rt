//! The parts of records that were applied at a segment, as they were pushed, without a block of memory for each: laid
//! on an image, they make of its bytes what each part, put on after another, makes.
#![tactic(auto)]

mod applied_part;
mod applied_parts;
mod laws;
mod run_totals;
mod runs;

pub use applied_parts::AppliedParts;
pub use laws::part_of_record;
