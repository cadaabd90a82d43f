//! The names of a store's files.
ghost use Rattle.std.specs.Prelude.{◌≡◌, ◌<◌, Some};

use lc_record::Geometry;
use std::fmt;

/// The name of a store's file. It prints as `log` and the node, from 0, or as `seg` and the segment, from 1.
#[derive(Clone, Copy, PartialEq, Eq)]
pub enum FileName {
    /// The log of this node.
    Log(u16),
    /// This segment.
    Segment(u32),
}

impl FileName {
    ghost use Rattle.lc_recover.specs.Reads.{area_count};
    ghost use Rattle.lc_folder.specs.Files.{name_at};

    /// The name of the file for the area at this index in the order of the store.
    pub fn of_area(geometry: &Geometry, area: usize) -> FileName
        requires { area < area_count geometry.now }
        ensures { result ≡ name_at geometry.now area }
    {
        let nodes = geometry.nodes as usize;
        if area < nodes {
            FileName::Log(area as u16)
        } else {
            FileName::Segment((area - nodes) as u32 + 1)
        }
    }
}

impl fmt::Display for FileName {
    ghost use Rattle.lc_folder.specs.Files.{name_text};

    ghost output = { λ name. Some (name_text name) };

    fn fmt<W: fmt::Write>(&self, f: &mut fmt::Formatter<W>) -> fmt::Result {
        match self {
            FileName::Log(node) => write!(f, "log{node}"),
            FileName::Segment(segment) => write!(f, "seg{segment}"),
        }
    }
}
