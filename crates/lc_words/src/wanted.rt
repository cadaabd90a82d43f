//! The numbers of a store's size that are given.
ghost use Rattle.std.specs.Prelude.{◌↔◌, IfSome, IsSome};
ghost use Rattle.std.specs.Option.{unwrap_or};
ghost use Rattle.lc_record.specs.Geometry.{HasNumbers, IsGeometry};

use lc_record::Geometry;

/// The numbers of a store's size that are given; each of the others is that of the store's files.
#[derive(Clone, Copy, PartialEq, Eq)]
pub struct Wanted {
    /// How many nodes share the store.
    pub nodes: Option<u32>,
    /// How many threads each node has. No file tells it.
    pub threads: u32,
    /// How many segments there are.
    pub segments: Option<u32>,
    /// How many pages each segment has.
    pub pages: Option<u32>,
    /// How many words each log has.
    pub words: Option<u32>,
}

impl Wanted {
    /// These numbers, and for those that are not given the ones of a size that was found; None exactly where one of
    /// them is outside its range.
    pub fn over(&self, found: &Geometry) -> Option<Geometry>
        ensures value { IfSome result (λ g.
            HasNumbers g (unwrap_or self.now.nodes found.now.nodes) self.now.threads
            (unwrap_or self.now.segments found.now.segments)
            (unwrap_or self.now.pages found.now.pages) (unwrap_or self.now.words found.now.words)) }
        ensures within { IsSome result ↔ IsGeometry (unwrap_or self.now.nodes found.now.nodes) self.now.threads
            (unwrap_or self.now.segments found.now.segments)
            (unwrap_or self.now.pages found.now.pages) (unwrap_or self.now.words found.now.words) }
    {
        Geometry::new(
            u16::try_from(self.nodes.unwrap_or(u32::from(found.nodes))).ok()?,
            u16::try_from(self.threads).ok()?,
            self.segments.unwrap_or(found.segments),
            self.pages.unwrap_or(found.pages),
            self.words.unwrap_or(found.words),
        )
    }
}
