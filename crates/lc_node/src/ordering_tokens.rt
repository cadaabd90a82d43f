//! Tokens in the order of their segments.
ghost use Rattle.std.specs.Prelude.{◌≡◌, ◌==◌, ◌+◌, ℕ, All, IfErr, IfOk, OnOk, Some, length, position, slice_get};
ghost use Rattle.lc_rest.specs.Parts.{KeepsPages};
ghost use Rattle.lc_rest.specs.declared.cluster_part.ClusterPart.TheVariants.{Token};
ghost use Rattle.lc_rest.specs.declared.segment_part.SegmentPart.{SegmentPart as ThePart};
ghost use Rattle.lc_segments.specs.LeftBy.{IsSettledPart};
ghost use Rattle.lc_node.specs.Refusals.{HasToken, StopsTokens, TakesOut, first_of};
ghost use Rattle.lc_segments.specs.declared.node_fault.NodeFault.TheVariants.{Mismatch};

use lc_disk::Area;
use lc_page::SLOT_BYTES;
use lc_record::Geometry;
use lc_rest::{ClusterPart, SegmentPart};
use lc_segments::NodeFault;
use std::alloc::Global;

/// These tokens in the order of their segments, from segment 1 on: there is just one of each.
///
/// # Errors
///
/// `Mismatch` of the first segment of which there is no token, or whose first one has not as many pages as the
/// geometry's segments, in an area of as many; and else of the first token that is left over. `NoMemory`.
pub fn in_order<D: Area + Drop>(
    alloc: Global,
    geometry: &Geometry,
    tokens: Vec<SegmentPart<D>>,
) -> Result<Vec<SegmentPart<D>>, NodeFault>
    requires settled { All (IsSettledPart D.Area) tokens.items }
    ensures count { IfOk result (λ parts. length parts.items ≡ geometry.now.segments) }
    ensures first { IfOk result (λ parts. (place : ℕ) (part : ThePart D) → slice_get parts.items place ≡ Some part
        → first_of (place + 1) tokens.items ≡ Some part) }
    ensures one_each { OnOk result (length tokens.items ≡ geometry.now.segments) }
    ensures order { IfOk result (λ parts. (place : ℕ) (part : ThePart D) → slice_get parts.items place ≡ Some part
        → part.token.segment ≡ place + 1) }
    ensures pages { IfOk result (λ parts. All (KeepsPages D.Area geometry.now) parts.items) }
    ensures refused { IfErr result (StopsTokens D.Area geometry.now tokens.items) }
{
    let mut tokens = tokens;
    let mut parts = Vec::with_capacity(alloc, geometry.segments as usize)?;
    for place in 0..geometry.segments {
        parts.push_reserved(take_token(&mut tokens, geometry, place + 1)?);
    }
    match tokens.first() {
        None => Ok(parts),
        Some(part) => Err(ClusterPart::Token(part.token.segment()).into()),
    }
}

// Takes the first token of a segment out.
fn take_token<D: Area + Drop>(
    tokens: &mut Vec<SegmentPart<D>>,
    geometry: &Geometry,
    segment: u32,
) -> Result<SegmentPart<D>, NodeFault>
    requires settled { All (IsSettledPart D.Area) tokens.old.items }
    ensures segment { IfOk result (λ part. part.token.segment ≡ segment) }
    ensures first { IfOk result (λ part. first_of segment tokens.old.items ≡ Some part) }
    ensures pages { IfOk result (KeepsPages D.Area geometry.now) }
    ensures has { OnOk result (HasToken D.Area geometry.now tokens.old.items segment) }
    ensures rest { OnOk result (TakesOut segment tokens.old.items tokens.new.items) }
    ensures one_less { OnOk result (length tokens.new.items + 1 ≡ length tokens.old.items) }
    ensures settled { OnOk result (All (IsSettledPart D.Area) tokens.new.items) }
    ensures refused { IfErr result (λ fault. (fault ≡ Mismatch (Token segment))
        × (HasToken D.Area geometry.now tokens.old.items segment → ⊥)) }
{
    let Some(place) = place_of(tokens.as_slice(), segment) else {
        return Err(ClusterPart::Token(segment).into());
    };
    let part = tokens.remove(place);
    let pages = geometry.pages as usize;
    if part.token.pages().len() != pages || part.area.len() != 2 * SLOT_BYTES * pages {
        return Err(ClusterPart::Token(segment).into());
    }
    Ok(part)
}

// The place of the first token of a segment.
fn place_of<D: Area>(tokens: &[SegmentPart<D>], segment: u32) -> Option<usize>
    ensures { result ≡ position (λ part. part.token.segment == segment) tokens.now }
{
    tokens
        .iter()
        .position(|part| part.token.segment() == segment)
}
