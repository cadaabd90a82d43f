//! The changes that a thread makes alone to images of segments that it has locked, and the laws of these.
#![tactic(auto)]

mod calls;
mod changes;
mod draft;
mod gathering;
mod laws;
mod replies;

pub use calls::{
    alike_over_stops, calls_are_a_run, changes_answer_as_rows, ends_are_their_work, two_take_turns,
};
pub use changes::Changes;
pub use draft::Draft;
pub use laws::{gathered_in_order, held_alone, private_images, puts_give_images};
