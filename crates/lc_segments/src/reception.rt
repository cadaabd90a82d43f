//! What is made ready for a record at a segment.
ghost use Rattle.std.specs.Prelude.{◌↔◌, IsTrue};
ghost use Rattle.lc_segments.specs.Receptions.{IsReceived};

use lc_record::Part;

/// What is made ready for a record that a peer published, at a segment, before it is applied at any.
#[derive(Drop)]
pub enum Reception {
    /// It is known here, or has no lock on the segment.
    Ignored,
    /// Its part, which has this number, is held back.
    HeldBack(u64),
    /// Its part is the next, and there is room to apply it.
    Next(Part),
    /// There was no memory for its part.
    NoMemory,
}

impl Reception {
    /// Whether there was memory.
    pub fn is_received(&self) -> bool
        ensures { IsTrue result ↔ IsReceived self.now }
    {
        !matches!(self, Reception::NoMemory)
    }
}
