//! What a segment leaves once the threads of its node have ended.
ghost use Rattle.std.specs.Prelude.{◌≡◌, ◌++◌, All, IfErr, IfOk, IsSome, OnOk, Some};
ghost use Rattle.lc_rest.specs.declared.cluster_part.ClusterPart.TheVariants.{Log};
ghost use Rattle.lc_segments.specs.LeftBy.{HasFailed, IsServingArea, IsSettledPart, token_sent, tokens_at};
ghost use Rattle.lc_segments.specs.Refusals.{StopsSegment};
ghost use Rattle.lc_segments.specs.declared.node_fault.NodeFault.TheVariants.{Mismatch};

use crate::node_fault::NodeFault;
use crate::page_area::PageArea;
use crate::seg_side::SegSide;
use crate::travelling::Travelling;
use lc_disk::Area;
use lc_rest::{ClusterPart, Holder, SegmentPart};
use lc_tx::Image;

// One that stands there, and one that waits.
const MOST_TOKENS: usize = 2;

impl<D: Area + Drop> SegSide<D> {
    /// The image of the segment at the node with this number, and the number up to which its records are applied there.
    /// The token that stands there, and the one that waits there, go after these. No transaction has the image.
    ///
    /// # Errors
    ///
    /// `Mismatch` of the node's log, where a call of the area failed; `NoMemory` only where none did.
    pub fn into_image(
        self,
        node: u16,
        tokens: &mut Vec<SegmentPart<D>>,
    ) -> Result<(Image, u64), NodeFault>
        requires here { IsSome self.image }
        requires settled { All (IsSettledPart D.Area) tokens.old.items }
        ensures image { IfOk result (λ left. self.image ≡ Some left.0) }
        ensures applied { IfOk result (λ left. left.1 ≡ self.backlog.applied) }
        ensures tokens { OnOk result (tokens.new.items ≡ tokens.old.items ++ tokens_at node self) }
        ensures settled { OnOk result (All (IsSettledPart D.Area) tokens.new.items) }
        ensures serves { OnOk result (HasFailed self.pages → ⊥) }
        ensures refused { IfErr result (StopsSegment node self.pages) }
    {
        let SegSide {
            image,
            hold_back,
            mut token,
            pages,
            waiting,
            ..
        } = self;
        let here = serving_area(pages, node)?;
        tokens.reserve(MOST_TOKENS)?;
        if let Some(area) = here {
            tokens.push_reserved(SegmentPart {
                token: token.leave(false, false, 0, 0).unwrap(),
                area,
                holder: Holder::Here(node),
            });
        }
        if let Some(journey) = waiting {
            tokens.push_reserved(journey.into_part());
        }
        Ok((image.unwrap(), hold_back.applied()))
    }
}

// The area of the pages, where it is at the node with this number.
fn serving_area<D: Area + Drop>(pages: PageArea<D>, node: u16) -> Result<Option<D>, NodeFault>
    ensures serves { IfOk result (IsServingArea pages) }
    ensures refused { IfErr result (λ fault. (fault ≡ Mismatch (Log node)) × HasFailed pages) }
{
    match pages {
        PageArea::Elsewhere => Ok(None),
        PageArea::Serves(area) => Ok(Some(area)),
        PageArea::Failed(_area) => Err(ClusterPart::Log(node).into()),
    }
}

impl<D: Area + Drop> Travelling<D> {
    /// The token and the area that are on their way.
    pub fn into_part(self) -> SegmentPart<D>
        ensures part { result ≡ token_sent self }
        ensures settled { IsSettledPart D.Area result }
    {
        let Travelling { token, area, left } = self;
        SegmentPart {
            token,
            area,
            holder: Holder::Left(left),
        }
    }
}
