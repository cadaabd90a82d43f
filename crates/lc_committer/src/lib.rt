//! What a thread of a program commits with, a node and a seat on it as one value; a thread that keeps a running node in
//! order until it is told to end; and how a node gets the token of a segment.
#![tactic(auto)]

mod acquiring;
mod change;
mod committer;
mod committing;
mod confirming;
mod keeping;
mod member_round;
mod no_gate;
mod node_round;
mod reading;
mod round;
mod settling;
mod shutdown_signal;
mod update;
mod updating;
mod upkeep;

pub use acquiring::acquire;
pub use change::Change;
pub use committer::Committer;
pub use keeping::{keep_member, keep_node};
pub use shutdown_signal::ShutdownSignal;
pub use update::Update;
pub use upkeep::Upkeep;
