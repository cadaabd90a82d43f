//! A node's log under its lock: what is flushed, settled, reset and told, and which records of the rounds that have
//! ended are dropped.
#![tactic(auto)]

mod cleaning;
mod confirming;
mod dropping;
mod ended;
mod ending;
mod flushing;
mod fresh;
mod halting;
mod laws;
mod leaving_log;
mod log_side;
mod log_state;
mod places;
mod publishing;
mod reserved;
mod resetting;
mod settling;
mod trimming;
mod truncating;

pub use confirming::Confirmed;
pub use ended::Ended;
pub use laws::{dropped_follow, left, starts_stay};
pub use log_side::LogSide;
