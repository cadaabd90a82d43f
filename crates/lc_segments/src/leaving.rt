//! The token of a segment leaves a node, with the area of its pages.
ghost use Rattle.std.specs.Prelude.{◌≡◌, ◌↔◌, true, false, None, IfErr, IfOk, IsOk, OnOk, OnErr};
ghost use Rattle.lc_segments.specs.Leaving.{HasFailed, IsUnleft, IsJourneyFrom, IsServing, without_token};
ghost use Rattle.lc_segments.specs.Pages.{FitsToken};
ghost use Rattle.lc_applied.specs.AppliedParts.{laid_parts};

use crate::node_fault::NodeFault;
use crate::page_area::PageArea;
use crate::seg_side::SegSide;
use crate::travelling::Travelling;
use lc_disk::Area;
use lc_token::TokenFault;
use std::mem;

impl<D: Area + Drop> SegSide<D> {
    /// Takes the token away, to be sent, and with it the area of the pages. It is told whether all that the node
    /// reserved is stable, and the node's number. It takes no memory.
    ///
    /// # Errors
    ///
    /// The token's fault `NotHere` where it is elsewhere; `Halted` where a call of the area failed, so that the token
    /// stays until a recovery; else the token's fault `Unflushed` where not all is stable. Nothing has changed then.
    pub fn leave(&mut self, flushed: bool, node: u16) -> Result<Travelling<D>, NodeFault>
        ensures not_here { (result ≡ Err (NodeFault.Token (TokenFault.NotHere self.old.segment)))
            ↔ (self.old.standing.token ≡ None) }
        ensures halted { (result ≡ Err NodeFault.Halted) ↔ HasFailed self.old.pages }
        ensures unflushed { (result ≡ Err (NodeFault.Token TokenFault.Unflushed))
            ↔ (IsServing self.old.pages × (flushed ≡ false)) }
        ensures which { IfErr result (IsUnleft self.old.segment) }
        ensures done { IsOk result ↔ (IsServing self.old.pages × (flushed ≡ true)) }
        ensures left { IfOk result (IsJourneyFrom self.old) }
        ensures node { IfOk result (λ journey. journey.left ≡ node) }
        ensures number { IfOk result (λ journey. journey.token.seq ≡ self.old.backlog.applied) }
        ensures fits { IfOk result (λ journey.
            FitsToken D.Area self.old.since journey.area journey.token (laid_parts self.old.applied self.old.base)) }
        ensures gone { OnOk result (self.new ≡ without_token self.old) }
        ensures err { OnErr result (self.new ≡ self.old) }
    {
        match mem::replace(&mut self.pages, PageArea::Elsewhere) {
            PageArea::Elsewhere => Err(NodeFault::Token {
                fault: TokenFault::NotHere {
                    segment: self.segment,
                },
            }),
            PageArea::Failed(area) => {
                self.pages = PageArea::Failed(area);
                Err(NodeFault::Halted)
            }
            PageArea::Serves(area) => {
                if !flushed {
                    self.pages = PageArea::Serves(area);
                    return Err(NodeFault::Token {
                        fault: TokenFault::Unflushed,
                    });
                }
                let token = self.token.leave(false, false, 0, 0).unwrap();
                Ok(Travelling {
                    token,
                    area,
                    left: node,
                })
            }
        }
    }
}

impl<D: Area + Drop> Travelling<D> {
    /// The segment whose token this is, from 1.
    pub fn segment(&self) -> u32
        ensures { result ≡ self.now.token.segment }
    {
        self.token.segment()
    }
}
