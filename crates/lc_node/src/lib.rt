//! Running nodes: the record of a receipt stands in its log, and what the threads of a node left is handed over, where
//! it is not refused, as their types keep it.
#![tactic(auto)]

mod absent;
mod areas;
mod attempting;
mod cleaning;
mod coming_up;
mod commit_kind;
mod committing;
mod delivered;
mod fresh_node;
mod fresh_segment;
mod gate;
mod halting;
mod held;
mod holding;
mod leaving_alone;
mod leaving_nodes;
mod leaving_segments;
mod locked_commit;
mod log_room;
mod making_room;
mod message;
mod node;
mod node_room;
mod opening;
mod ordering_tokens;
mod parting;
mod peer_node;
mod preparing;
mod pumped;
mod pumping;
mod receiving_records;
mod recovered_pages;
mod room_turn;
mod running;
mod seg_room;
mod settling;
mod share;
mod snapshot;
mod staging;
mod store_room;
mod taking_out;
mod telling;
mod token_line;
mod transacting;
mod truncating;
mod vacant;

pub use coming_up::fresh_nodes;
pub use commit_kind::{Commit, Mode};
pub use fresh_node::FreshNode;
pub use gate::Gate;
pub use held::Held;
pub use lc_log_side::{Confirmed, LogSide, starts_stay};
pub use lc_segments::{
    Get, NodeFault, Put, Snapshot, Work, work_is_laid_over, works_nothing, works_range, works_then,
    works_write,
};
pub use message::Message;
pub use node::Node;
pub use opening::{OpenedNode, open_first};
pub use ordering_tokens::in_order;
pub use peer_node::PeerNode;
pub use pumped::Pumped;
pub use token_line::TokenLine;
pub use vacant::Vacant;
