//! How the segments at a node are made: blank, of what a recovery has made of them, or of their pieces; and how many
//! transactions a stop would lose.
ghost use Rattle.std.specs.Prelude.{◌≡◌, length, IfOk, vec_len, ◌≤◌, ℕ, map, is_some, None, Some, if◌then◌else◌};
ghost use Rattle.lc_desk.specs.Blank.{AreOfSegments, IsBlankDesk, IsOfSegment, StandAt, StandsAt, AreFreshSlots};
ghost use Rattle.std.specs.Option.{ForSome};
ghost use Rattle.lc_page.specs.PageVector.{new_entry};
ghost use Rattle.lc_record.specs.Geometry.{segment_len};
ghost use Rattle.lc_record.specs.Marks.{counting};
ghost use Rattle.lc_recover.specs.Recovered.{page_of};
ghost use Rattle.lc_desk.specs.Fresh.{IsFreshSlot, fresh_token, segment_bytes};
ghost use Rattle.lc_record.specs.declared.geometry.Geometry.{Geometry as Shape};
ghost use Rattle.lc_tx.specs.declared.holders.Holders.TheVariants.{Free};
ghost use Rattle.lc_desk.specs.Pieces.{AreLeftAt, AreMadeSlots, AreTokens, IsMadeSlot, IsTokenOf, is_here, left_at};
ghost use Rattle.lc_desk.specs.Pieces.{standing_at};
ghost use Rattle.lc_desk.specs.Unfinished.{begun_in};

use crate::desk::Desk;
use crate::here::Here;
use crate::segment_copy::SegmentCopy;
use crate::segment_piece::SegmentPiece;
use crate::segment_pieces::SegmentPieces;
use lc_disk::Area;
use lc_page::{PageText, PageVector};
use lc_record::{Geometry, PAGE};
use lc_recover::Recovered;
use lc_rest::Holder;
use lc_token::{HoldBack, Token, TokenPlace};
use lc_tx::Image;
use std::alloc::{AllocError, Global};

// A page that was never written.
const UNWRITTEN: PageText = PageText {
    seq: 0,
    slot: None,
    gates: [false; 2],
};

impl SegmentCopy {
    /// The slot of a segment, from 1, of zeros, with its token where it is to stand at this node. It takes memory for
    /// both.
    pub fn blank(
        alloc: Global,
        geometry: &Geometry,
        node: u16,
        segment: u32,
    ) -> Result<SegmentCopy, AllocError>
        ensures slot { IfOk result (IsOfSegment geometry.now segment) }
        ensures stands { IfOk result (StandsAt geometry.now node segment) }
    {
        let token = if segment % geometry.nodes as u32 == node as u32 {
            Some(blank_token(alloc, segment, geometry.pages)?)
        } else {
            None
        };
        Ok(SegmentCopy {
            image: Image::new(vec![in alloc; 0; geometry.segment_len()]?),
            token: TokenPlace::new(segment, token),
            parts: HoldBack::new(alloc, segment, 0),
        })
    }

    /// The slot of a segment, from 1, gets its pages and its number, and so does the token where it stands here. It
    /// takes no memory.
    pub fn fill<D: Area>(&mut self, alloc: Global, segment: u32, recovered: &Recovered<D>)
        requires first { 1 ≤ segment }
        requires last { segment ≤ recovered.now.geometry.segments }
        requires slot { IsOfSegment recovered.now.geometry segment self.old }
        ensures slot { IsOfSegment recovered.now.geometry segment self.new }
        ensures fresh { (node : ℕ) → StandsAt recovered.now.geometry node segment self.old
            → IsFreshSlot recovered.now node segment self.new }
    {
        fill_image(&mut self.image, segment, recovered);
        self.token = filled(&mut self.token, segment, recovered);
        self.parts = HoldBack::new(alloc, segment, recovered.sequence(segment));
    }

    /// The slot of a segment, from 1, gets the token where it is to stand at this node, and the bytes and the number
    /// that the segment has here. It takes no memory.
    pub fn adopt(
        &mut self,
        alloc: Global,
        node: u16,
        segment: u32,
        piece: &SegmentPiece,
        token: &mut Option<Token>,
    )
        requires free { self.old.image.holders ≡ Free }
        requires bytes { length piece.now.bytes.items ≡ length self.old.image.bytes.items }
        requires stable_bytes { length piece.now.stable_bytes.items ≡ length self.old.image.bytes.items }
        requires token { ForSome token.old (λ its. its.segment ≡ segment) }
        ensures made { IsMadeSlot segment piece.now (standing_at node piece.now.holder token.old) self.new }
        ensures left { token.new ≡ left_at node piece.now.holder token.old }
        ensures shape { (g : Shape) → IsOfSegment g segment self.old → ForSome token.old (IsTokenOf g segment)
            → IsOfSegment g segment self.new }
    {
        let standing = take_here(token, node, piece.holder);
        let applied = piece.number(&standing);
        self.image.set(0, piece.bytes(&standing));
        self.token = TokenPlace::new(segment, standing);
        self.parts = HoldBack::new(alloc, segment, applied);
    }
}

// The token of a segment of so many pages, none of which was ever written.
fn blank_token(alloc: Global, segment: u32, pages: u32) -> Result<Token, AllocError>
    ensures segment { IfOk result (λ token. token.segment ≡ segment) }
    ensures pages { IfOk result (λ token. length token.pages ≡ pages) }
{
    let texts = vec![in alloc; UNWRITTEN; pages as usize]?;
    let pages = PageVector::new(alloc, texts.as_slice())?;
    Ok(Token::recovered(segment, 0, pages))
}

// The slots of all segments at a node.
fn blank_slots(
    alloc: Global,
    geometry: &Geometry,
    node: u16,
) -> Result<Vec<SegmentCopy>, AllocError>
    ensures count { IfOk result (λ slots. vec_len slots ≡ geometry.now.segments) }
    ensures slots { IfOk result (λ slots. AreOfSegments geometry.now slots.items) }
    ensures stand { IfOk result (λ slots. StandAt geometry.now node slots.items) }
{
    let mut slots = Vec::with_capacity(alloc, geometry.segments as usize)?;
    for before in 0..geometry.segments {
        let slot = SegmentCopy::blank(alloc, geometry, node, before + 1)?;
        slots.push(slot)?;
    }
    Ok(slots)
}

impl Desk {
    /// The desk of a node with all segments and all threads. It takes memory for each.
    pub fn blank(alloc: Global, geometry: &Geometry, node: u16) -> Result<Desk, AllocError>
        ensures desk { IfOk result (IsBlankDesk geometry.now) }
        ensures stand { IfOk result (λ desk. StandAt geometry.now node desk.here.slots.items) }
    {
        let here = Here {
            slots: blank_slots(alloc, geometry, node)?,
            spare: Image::new(Vec::new(alloc)),
        };
        Desk::new(alloc, here, geometry.threads)
    }

    /// The slots of a desk, where no thread does anything, get what the recovery has made of their segments. It takes
    /// no memory.
    pub fn fill<D: Area>(&mut self, alloc: Global, recovered: &Recovered<D>)
        requires desk { IsBlankDesk recovered.now.geometry self.old }
        ensures desk { IsBlankDesk recovered.now.geometry self.new }
        ensures fresh { (node : ℕ) → StandAt recovered.now.geometry node self.old.here.slots.items
            → AreFreshSlots recovered.now node self.new.here.slots.items }
    {
        fill_slots(self.here.slots.as_mut_slice(), alloc, recovered);
    }

    /// The slots of a desk, where no thread does anything, get what their segments are made of, and the tokens that are
    /// at this node. It takes no memory.
    pub fn adopt(
        &mut self,
        alloc: Global,
        node: u16,
        segments: &SegmentPieces,
        tokens: &mut [Option<Token>],
    )
        requires desk { IsBlankDesk segments.now.geometry self.old }
        requires all_tokens { length tokens.old ≡ segments.now.geometry.segments }
        requires tokens { AreTokens segments.now.geometry tokens.old }
        ensures desk { IsBlankDesk segments.now.geometry self.new }
        ensures made { AreMadeSlots node segments.now.pieces.items tokens.old self.new.here.slots.items }
        ensures left { AreLeftAt node segments.now.pieces.items tokens.old tokens.new }
    {
        adopt_slots(
            self.here.slots.as_mut_slice(),
            alloc,
            node,
            segments,
            tokens,
        );
    }

    /// How many threads have a transaction that is open or reserved.
    pub fn begun(&self) -> u64
        ensures count { result ≡ begun_in self.now.seats.items }
        ensures few { result ≤ 16 }
    {
        let mut begun = 0;
        for seat in self.seats.iter() {
            if !seat.is_free() {
                begun += 1;
            }
        }
        begun
    }
}

// Puts the pages of a segment on its image.
fn fill_image<D: Area>(image: &mut Image, segment: u32, recovered: &Recovered<D>)
    requires first { 1 ≤ segment }
    requires last { segment ≤ recovered.now.geometry.segments }
    requires len { length image.old.bytes.items ≡ segment_len recovered.now.geometry }
    ensures bytes { image.new.bytes.items ≡ segment_bytes recovered.now segment }
    ensures len { length image.new.bytes.items ≡ segment_len recovered.now.geometry }
    ensures holders { image.new.holders ≡ image.old.holders }
{
    let pages = recovered.geometry().pages;
    for page in 0..pages {
        image.set(page * PAGE, recovered.page(segment, page));
    }
}

// The place of a segment with the token that was here: it has counted all its records, and all of them are on its
// pages.
fn filled<D: Area>(place: &mut TokenPlace, segment: u32, recovered: &Recovered<D>) -> TokenPlace
    requires first { 1 ≤ segment }
    requires last { segment ≤ recovered.now.geometry.segments }
    requires segment { place.old.segment ≡ segment }
    requires pages { ForSome place.old.token (λ token. length token.pages ≡ recovered.now.geometry.pages) }
    ensures segment { result.segment ≡ segment }
    ensures token { result.token
        ≡ (if is_some place.old.token then Some (fresh_token recovered.now segment) else None) }
{
    let Ok(token) = place.leave(false, false, 0, 0) else {
        return TokenPlace::new(segment, None);
    };
    let mut pages = token.into_pages();
    fill_pages(&mut pages, segment, recovered);
    let token = Token::recovered(segment, recovered.sequence(segment), pages);
    TokenPlace::new(segment, Some(token))
}

// The entry of each page of a segment is that of what its area says of the page.
fn fill_pages<D: Area>(pages: &mut PageVector, segment: u32, recovered: &Recovered<D>)
    requires first { 1 ≤ segment }
    requires last { segment ≤ recovered.now.geometry.segments }
    requires len { length pages.old ≡ recovered.now.geometry.pages }
    ensures { pages.new ≡ map (λ page. new_entry (page_of recovered.now segment page).text)
        (counting 0 recovered.now.geometry.pages) }
{
    let count = recovered.geometry().pages;
    for page in 0..count {
        pages.renew(page, recovered.text(segment, page));
    }
}

// Each slot of a node gets what the recovery has made of its segment.
fn fill_slots<D: Area>(slots: &mut [SegmentCopy], alloc: Global, recovered: &Recovered<D>)
    requires count { length slots.old ≡ recovered.now.geometry.segments }
    requires slots { AreOfSegments recovered.now.geometry slots.old }
    ensures slots { AreOfSegments recovered.now.geometry slots.new }
    ensures fresh { (node : ℕ) → StandAt recovered.now.geometry node slots.old
        → AreFreshSlots recovered.now node slots.new }
{
    for (place, slot) in slots.iter_mut().enumerate() {
        slot.fill(alloc, place as u32 + 1, recovered);
    }
}

// Whether a token is at this node.
fn is_here(node: u16, holder: Holder) -> bool
    ensures { result ≡ is_here node holder }
{
    match holder {
        Holder::Here(other) => other == node,
        Holder::Left(_) => false,
    }
}

// Takes the token where it is at this node.
fn take_here(token: &mut Option<Token>, node: u16, holder: Holder) -> Option<Token>
    ensures standing { result ≡ standing_at node holder token.old }
    ensures left { token.new ≡ left_at node holder token.old }
{
    if is_here(node, holder) {
        token.take()
    } else {
        None
    }
}

// The slots of a node, from segment 1 on, get what their segments are made of, and the tokens that are here.
fn adopt_slots(
    slots: &mut [SegmentCopy],
    alloc: Global,
    node: u16,
    segments: &SegmentPieces,
    tokens: &mut [Option<Token>],
)
    requires count { length slots.old ≡ segments.now.geometry.segments }
    requires slots { AreOfSegments segments.now.geometry slots.old }
    requires all_tokens { length tokens.old ≡ segments.now.geometry.segments }
    requires tokens { AreTokens segments.now.geometry tokens.old }
    ensures slots { AreOfSegments segments.now.geometry slots.new }
    ensures made { AreMadeSlots node segments.now.pieces.items tokens.old slots.new }
    ensures left { AreLeftAt node segments.now.pieces.items tokens.old tokens.new }
{
    for (place, slot) in slots.iter_mut().enumerate() {
        let piece = &segments.pieces[place];
        slot.adopt(alloc, node, place as u32 + 1, piece, &mut tokens[place]);
    }
}
