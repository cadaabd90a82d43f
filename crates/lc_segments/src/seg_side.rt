//! One segment at a running node.
ghost use Rattle.std.specs.Prelude.{◌↔◌, IsSome, IsTrue};

use crate::page_area::PageArea;
use crate::scratch::Scratch;
use crate::travelling::Travelling;
use lc_applied::AppliedParts;
use lc_disk::Area;
use lc_token::{HoldBack, TokenPlace};
use lc_tx::Image;
use std::marker::Model;

/// A segment at a node: its bytes, those that it began with, and the records that were applied since, with how much
/// these take. It has the place of its token, what is held back, and the area of its pages, which goes with the token.
/// Until a call of the area fails, each of its pages reads in every image as the token says. Until then a page that is
/// not dirty, and was written under a later number than that with which the token came, has the segment's bytes. While
/// a transaction has the image, it is not here.
#[derive(Drop)]
pub struct SegSide<D: Area> {
    pub(crate) segment: u32,
    pub(crate) image: Option<Image>,
    pub(crate) base: Image,
    pub(crate) applied: AppliedParts,
    pub(crate) stored: usize,
    pub(crate) hold_back: HoldBack,
    pub(crate) token: TokenPlace,
    pub(crate) pages: PageArea<D>,
    // The number from which on pages were written here.
    pub(crate) since: u64,
    // A token that came and could not arrive yet.
    pub(crate) waiting: Option<Travelling<D>>,
    // What the commits work with of which this is the first segment.
    pub(crate) scratch: Option<Box<Scratch>>,
}

impl<D: Area> Model for SegSide<D> {
    ghost use Rattle.lc_segments.specs.SegView.{SegView};
    ghost use Rattle.lc_segments.specs.SegSide.{seg_view, IsSegSide};

    ghost Value = { SegView D };

    ghost view = { seg_view };

    ghost invariant = { IsSegSide D.Area };
}

impl<D: Area> SegSide<D> {
    /// Whether the token stands here.
    pub fn has_token(&self) -> bool
        ensures { IsTrue result ↔ IsSome self.now.standing.token }
    {
        !self.token.is_empty()
    }
}
