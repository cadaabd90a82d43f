//! What is handed over of the segments of a cluster at rest, each thing in a list of its own.
ghost use Rattle.std.specs.Prelude.{◌≡◌, ◌≤◌, IfOk, map, vec_capacity};
ghost use Rattle.lc_rest.specs.declared.segment_part.SegmentPart.{SegmentPart as ThePart};

use lc_disk::Area;
use lc_rest::{Holder, SegmentPart};
use lc_token::Token;
use std::alloc::{AllocError, Global};

/// What is handed over of the segments of a cluster at rest, from segment 1 on: their tokens, where these are, and the
/// areas of their pages.
#[derive(Drop)]
pub struct ReadSegments<D: Area> {
    pub tokens: Vec<Token>,
    pub holders: Vec<Holder>,
    pub areas: Vec<D>,
}

impl<D: Area + Drop> ReadSegments<D> {
    /// That of these parts, with room for so many areas.
    pub fn read(
        alloc: Global,
        mut parts: Vec<SegmentPart<D>>,
        room: usize,
    ) -> Result<ReadSegments<D>, AllocError>
        ensures tokens { IfOk result (λ segments. segments.tokens.items
            ≡ map (λ (part : ThePart D). part.token) parts.items) }
        ensures holders { IfOk result (λ segments. segments.holders.items
            ≡ map (λ (part : ThePart D). part.holder) parts.items) }
        ensures areas { IfOk result (λ segments. segments.areas.items
            ≡ map (λ (part : ThePart D). part.area) parts.items) }
        ensures room { IfOk result (λ segments. room ≤ vec_capacity segments.areas) }
    {
        let mut tokens = Vec::with_capacity(alloc, parts.len())?;
        let mut holders = Vec::with_capacity(alloc, parts.len())?;
        let mut areas = Vec::with_capacity(alloc, room)?;
        for _ in 0..parts.len() {
            let part = parts.remove(0);
            tokens.push(part.token)?;
            holders.push(part.holder)?;
            areas.push(part.area)?;
        }
        Ok(ReadSegments {
            tokens,
            holders,
            areas,
        })
    }
}
