//! What all logs and all pages of a store say together, and the recovery that brings it onto the pages: the same result
//! from every image, at every step.
#![tactic(auto)]

mod advance;
mod areas;
mod buffers;
mod fault;
mod finished;
mod forecast;
mod index;
mod lock_number;
mod locks;
mod log_extent;
mod log_resets;
mod merge;
mod merged;
mod numbers;
mod own;
mod page;
mod page_count;
mod page_laws;
mod page_steps;
mod page_writes;
mod progress;
mod read_areas;
mod reading;
mod reads;
mod record_cursor;
mod recovered;
mod recovery;
mod recovery_phase;
mod redo_range;
mod reset_steps;
mod segment_pages;
mod stopped;
mod store_contents;
mod survey;
mod surveying;
mod syncing;
mod within;
mod words;
mod zeros;

pub use areas::area_len;
pub use fault::RecoverFault;
pub use forecast::Forecast;
pub use log_extent::LogExtent;
pub use progress::Progress;
pub use reads::one_store;
pub use recovered::Recovered;
pub use recovery::Recovery;
pub use survey::Survey;
pub use surveying::survey_areas;
pub use zeros::{zero_areas, zeros_merge};
