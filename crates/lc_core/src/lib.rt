//! A store of all nodes, down or up: what runs on it is a run of the plain machine, and the types of the machine are
//! handed on.
#![tactic(auto)]

mod adopted_parts;
mod adopting;
mod calls;
mod emptying;
mod headline;
mod laws;
mod lives;
mod looks;
mod page_cursor;
mod read_cluster;
mod recovered_reply;
mod run_result;
mod standing;
mod truncation;
mod truncation_stage;
mod truncation_step;
mod up;
mod up_calls;
mod world;
mod world_phase;
mod world_room;

pub use headline::run_areas;
pub use laws::{adopted, fits_leaves, next_life};
pub use lc_events::{
    CallFault, DeliveryOutcome, FlushProgress, Placement, ResetProgress, Unfinished, WriteProgress,
};
pub use lc_journal::ShowFault;
pub use lc_model::{Event, Refusal, Reply};
pub use lc_rest::{AdoptFault, ClusterPart, NodePart, Parts, SegmentPart};
pub use lc_settled::{settled_answers, settled_runs};
pub use lives::run_in_memory;
pub use run_result::RunResult;
pub use truncation::Truncation;
pub use truncation_step::TruncationStep;
pub use world::World;
