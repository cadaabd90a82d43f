//! A segment's token on its way.
use lc_disk::Area;
use lc_token::Token;
use std::marker::Model;

/// A segment's token on its way to another node, with the area of the segment's pages, no call of which failed: each of
/// its pages reads in every image as the token says. It knows the number of the node that it left. This project's own.
#[derive(Drop)]
pub struct Travelling<D: Area> {
    pub(crate) token: Token,
    pub(crate) area: D,
    pub(crate) left: u16,
}

impl<D: Area> Model for Travelling<D> {
    ghost use Rattle.lc_segments.specs.Journey.{Journey};
    ghost use Rattle.lc_segments.specs.Travelling.{journey_of, IsTravelling};

    ghost Value = { Journey D };

    ghost view = { journey_of };

    ghost invariant = { IsTravelling D.Area };
}
