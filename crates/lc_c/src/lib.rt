//! A store in a C program's own process: its areas stand in memory, and C makes on each file the call that was made on
//! the area.
#![tactic(auto)]

mod answer;
mod area_call;
mod begin_free;
mod box_parts;
mod dirty_positions;
mod draft_exports;
mod draft_handle;
mod exports;
mod handing;
mod handing_exports;
mod handle;
mod last_call;
mod mirror_area;
mod round_exports;
mod session;
mod session_state;
mod truncating;
mod truncation_exports;
