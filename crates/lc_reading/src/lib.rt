//! What is read of a cluster at rest, and the tests that it is one.
#![tactic(auto)]

mod node_images;
mod node_records;
mod read_node;
mod read_nodes;
mod read_parts;
mod read_segments;
mod reading_areas;
mod tests;

pub use node_images::NodeImages;
pub use node_records::NodeRecords;
pub use read_node::ReadNode;
pub use read_nodes::ReadNodes;
pub use read_parts::ReadParts;
pub use read_segments::ReadSegments;
pub use reading_areas::{read_areas, read_pages};
