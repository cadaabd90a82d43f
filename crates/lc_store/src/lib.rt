//! A store in a folder is up after one call, and of the size that was asked for; and what the threads of a cluster, or of
//! a node that ran alone, left becomes, where it is not refused, a store that stands for a state of the machine and has
//! the record of each receipt.
#![tactic(auto)]

mod adoption;
mod bringing_up;
mod finding;
mod node_adoption;
mod recovering;
mod running;
mod serving;
mod store;
mod store_open_fault;

pub use adoption::into_world;
pub use node_adoption::node_into_world;
pub use recovering::recovered_on;
pub use running::node_on;
pub use serving::{FolderServing, Serving};
pub use store::{FolderStore, Store};
pub use store_open_fault::StoreOpenFault;
