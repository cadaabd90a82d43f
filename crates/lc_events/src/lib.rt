//! Each event of nodes that run is a row of the machine.
#![tactic(auto)]

mod beginnings;
mod call_fault;
mod delivery_outcome;
mod flush_progress;
mod named;
mod node_pages;
mod node_state;
mod placement;
pub mod reply_values;
mod reset_progress;
mod running;
mod steps;
mod token_moves;
mod transaction_calls;
mod trimming;
mod unfinished;
mod write_progress;

pub use call_fault::CallFault;
pub use delivery_outcome::DeliveryOutcome;
pub use flush_progress::FlushProgress;
pub use named::is_page_of;
pub use node_state::NodeState;
pub use placement::Placement;
pub use reset_progress::ResetProgress;
pub use running::Running;
pub use unfinished::Unfinished;
pub use write_progress::WriteProgress;
