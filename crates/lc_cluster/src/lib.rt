//! Nodes that send each other their records and tokens, and how they come to rest.
#![tactic(auto)]

mod closing_lines;
mod cluster;
mod clustering;
mod coming_to_rest;
mod copying;
mod dropped;
mod exchanging;
mod forgetting;
mod joining;
mod leaving_nodes;
mod line_to_peer;
mod member;
mod opening;
mod peer_end;
mod peer_inbox;
mod peers;
mod pumping;
mod receiving;
mod recv_ends;
mod send_ends;
mod sending;
mod sending_tokens;
mod spreading;
mod wiring;

pub use cluster::Cluster;
pub use peer_end::PeerEnd;
pub use peer_inbox::PeerInbox;
pub use recv_ends::RecvEnds;
pub use send_ends::SendEnds;
pub use spreading::Spread;
