//! A line from one node to another: what has been taken from it is what was sent on it first, in order.
#![tactic(auto)]

mod closing;
mod ends;
mod opening;
mod pass_view;
mod refused;
mod sending;
mod taking;

pub use closing::close_line;
pub use ends::{RecvEnd, Rest, SendEnd};
pub use opening::{ROOM, open_line};
pub use refused::Refused;
