//! In which order the calls of a recovery in memory are made on the files behind its areas.
#![tactic(auto)]

mod laws;
mod round;

pub use laws::pages_beside;
pub use round::round_of;
