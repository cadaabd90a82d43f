//! A lock for one value at a time: who has it has a value that fits the lock's key, and gives back one that does.
#![tactic(auto)]

mod bells;
mod keyed;
mod laws;
mod loan;
mod making;
mod patience;
mod plays;
mod sleeping;
mod taking;
mod ticket_lock;
mod tickets;
mod turn;

pub use keyed::Keyed;
pub use laws::{held_value_is_out, holders_are_one};
pub use loan::Loan;
pub use ticket_lock::TicketLock;
