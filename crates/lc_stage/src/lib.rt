//! Lock-free staging: reservations tile the log's places; what is taken is closed, whole and in place order.
#![tactic(auto)]

mod commit;
mod fault;
mod flush;
mod laws;
mod layout;
mod pending;
mod plays;
mod receipt;
mod rounds;
mod seating;
mod seats;
mod stage;
mod stage_view;

pub use fault::StageFault;
pub use laws::{
    flushed_holds_taken, places_are_reserved, reservations_are_apart, taken_is_a_group,
};
pub use receipt::Receipt;
pub use seats::{CommitSeat, FlushSeat};
pub use stage::Stage;
pub use stage_view::{Load, Reservation, StageView, Staging};
