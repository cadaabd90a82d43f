//! A segment at a node in a block of memory of its own.
ghost use Rattle.std.specs.Prelude.{◌≡◌, IfOk, IsSome};

use crate::seg_side::SegSide;
use lc_disk::Area;
use lc_lock::Keyed;
use std::alloc::{AllocError, Global};
use std::marker::Model;

/// A segment at a node, which stays where it is while the box goes out of its lock and back: a lock hands its value
/// out by move, and a segment is some hundreds of bytes large. Contracts see the segment.
#[derive(Drop)]
pub struct BoxedSide<D: Area + Drop> {
    pub inner: Box<SegSide<D>>,
}

impl<D: Area + Drop> Model for BoxedSide<D> {
    ghost use Rattle.lc_segments.specs.SegView.{SegView};

    ghost Value = { SegView D };

    ghost view = { λ side. side.inner.value };
}

impl<D: Area + Drop> Keyed<u32> for BoxedSide<D> {
    ghost fits = { λ segment side. (side.segment ≡ segment) × IsSome side.image };
}

impl<D: Area + Drop> BoxedSide<D> {
    /// The segment in a box.
    pub fn new(alloc: Global, side: SegSide<D>) -> Result<BoxedSide<D>, AllocError>
        ensures { IfOk result (λ boxed. boxed ≡ side) }
    {
        let inner = Box::new(alloc, side)?;
        Ok(BoxedSide { inner })
    }
}
