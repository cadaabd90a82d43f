//! Which of the answers that the plain machine leaves open is given, by numbers beside its state.
#![tactic(auto)]

mod laws;

pub use laws::{settled_answers, settled_runs};
