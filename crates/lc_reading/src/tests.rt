//! The tests of a cluster at rest, in their order.
ghost use Rattle.std.specs.Prelude.{◌≡◌, ◌+◌, ℕ, List, Err, IfOk, Some, length, map, slice_get, ◌<◌, [], All, IfErr};
ghost use Rattle.std.specs.Prelude.{slice_index_or, ◌↔◌, IfNone, IfSome, IsTrue, ◌-◌, ◌*◌, ◌≤◌, ◌^◌, true};
ghost use Rattle.lc_reading.specs.Built.{IsPieceOf};
ghost use Rattle.lc_reading.specs.Pictures.{AreImages, AreApplied, ComesUp};
ghost use Rattle.lc_reading.specs.ReadAreas.{AreWhole};
ghost use Rattle.lc_reading.specs.Readings.{FailsIn, PassesIn, tests_of, first_numbers, KeepsAt, KeepsNode, IsTokenIn};
ghost use Rattle.lc_reading.specs.Readings.{KeepsTokenIn, KeepsPictures};
ghost use Rattle.lc_rest.specs.declared.adopt_fault.AdoptFault.TheVariants.{DeviceFault as Failed, Mismatch};
ghost use Rattle.lc_journal.specs.declared.node_piece.NodePiece.{NodePiece as TheNode, NodePiece as TheNodePiece};
ghost use Rattle.lc_rest.specs.declared.cluster_part.ClusterPart.{ClusterPart as ThePart};
ghost use Rattle.lc_desk.specs.declared.segment_piece.SegmentPiece.{SegmentPiece as ThePiece};
ghost use Rattle.lc_rest.specs.LogTest.{IsOwn};
ghost use Rattle.lc_rest.specs.Merge.{IsStuck, logs_of, number_at, merged_after};
ghost use Rattle.lc_rest.specs.AtRest.{AreMerged, IsFirst, AllKeepTokens, KeepsToken};
ghost use Rattle.lc_rest.specs.Holder.{node_of};
ghost use Rattle.lc_rest.specs.TokenTest.{count_on};
ghost use Rattle.lc_rest.specs.Replay.{IsReplay, bytes_after};
ghost use Rattle.lc_rest.specs.Stable.{bytes_up_to};
ghost use Rattle.lc_desk.specs.Pieces.{IsLong};
ghost use Rattle.lc_reading.specs.declared.node_images.NodeImages.{NodeImages as TheImages};

use crate::node_images::NodeImages;
use crate::read_parts::ReadParts;
use lc_desk::{SegmentPiece, SegmentPieces};
use lc_disk::Area;
use lc_journal::NodePiece;
use lc_record::{Geometry, Record};
use lc_rest::{
    AdoptFault, ClusterPart, Holder, SegmentRead, comes_up, first_number, in_order, keeps_known,
    keeps_numbers, keeps_own, keeps_token, merge_records, replay_segment, replay_up_to,
    stable_number,
};
use lc_token::{KnownClean, Token};
use std::alloc::{AllocError, Global};

impl ReadParts {
    /// What the segments are made of, where all parts agree: first each node's records are looked at, then each token,
    /// then the merge, and then the images of each segment. It takes memory.
    ///
    /// # Errors
    ///
    /// `Mismatch` with the part whose test fails first; `NoMemory`.
    pub fn contents<D: Area>(
        &self,
        alloc: Global,
        pieces: &[NodePiece<D>],
        nodes: &[NodeImages],
    ) -> Result<SegmentPieces, AdoptFault>
        requires whole { AreWhole self.now.logs.items }
        requires pieces { length pieces.now ≡ self.now.geometry.nodes }
        requires images { AreImages self.now.geometry nodes.now }
        ensures geometry { IfOk result (λ contents. contents.geometry ≡ self.now.geometry) }
        ensures passes { IfOk result (λ contents. (turns : List ℕ)
            × PassesIn self.now (map (λ (piece : TheNode D D.Area). piece.known) pieces.now) nodes.now turns
            × ((k : ℕ) (piece : ThePiece) → slice_get contents.pieces.items k ≡ Some piece
            → IsPieceOf (tests_of self.now turns) (k + 1) piece)) }
        ensures mismatch { (part : ThePart) → result ≡ Err (Mismatch part)
            → FailsIn self.now (map (λ (piece : TheNode D D.Area). piece.known) pieces.now) nodes.now part }
        ensures device { result ≡ Err Failed → ⊥ }
    {
        if let Some(node) = self.foreign_node(pieces) {
            return Err(AdoptFault::Mismatch(ClusterPart::Log(node)));
        }
        let numbers = match self.test_tokens(alloc)? {
            Ok(numbers) => numbers,
            Err(segment) => return Err(AdoptFault::Mismatch(ClusterPart::Token(segment))),
        };
        let order = match self.order(alloc, numbers.as_slice())? {
            Ok(order) => order,
            Err(node) => return Err(AdoptFault::Mismatch(ClusterPart::Log(node))),
        };
        match self.test_images(alloc, numbers.as_slice(), order.as_slice(), nodes)? {
            Ok(contents) => Ok(contents),
            Err(segment) => Err(AdoptFault::Mismatch(ClusterPart::Image(segment))),
        }
    }

    /// The order in which all records follow one another: the nodes, each as often as its turn comes. Where at some
    /// turn no node's next record has the next numbers, the least node that has a record left. It takes memory for the
    /// numbers, and for the order.
    pub(crate) fn order(
        &self,
        alloc: Global,
        numbers: &[u64],
    ) -> Result<Result<Vec<usize>, u16>, AllocError>
        requires numbers { numbers.now ≡ first_numbers self.now }
        requires whole { AreWhole self.now.logs.items }
        requires own { (n : ℕ) → n < self.now.geometry.nodes
            → All (IsOwn self.now.geometry n) (slice_index_or (logs_of self.now.logs.items) n []) }
        ensures merged { IfOk result (λ tested. IfOk tested (λ order. AreMerged (tests_of self.now order.items))) }
        ensures stuck { IfOk result (λ tested. IfErr tested (λ node. (node < self.now.geometry.nodes)
            × ((turns : List ℕ) × IsStuck (logs_of self.now.logs.items) (first_numbers self.now) turns node))) }
    {
        let mut behind = numbers.to_vec(alloc)?;
        match merge_records(alloc, behind.as_mut_slice(), self.logs.as_slice())? {
            Ok(order) => Ok(Ok(order)),
            Err(node) => Ok(Err(node as u16)),
        }
    }

    /// The first node whose records name another or lie outside of the segments, or which knows more as clean than the
    /// tokens say. It takes no memory.
    pub(crate) fn foreign_node<D: Area>(&self, pieces: &[NodePiece<D>]) -> Option<u16>
        requires { length pieces.now ≡ self.now.geometry.nodes }
        ensures none { IfNone result ((n : ℕ) → n < self.now.geometry.nodes
            → KeepsAt self.now (map (λ (piece : TheNodePiece D D.Area). piece.known) pieces.now) n) }
        ensures some { IfSome result (λ node. (node < self.now.geometry.nodes)
            × IsFirst (KeepsAt self.now (map (λ (piece : TheNodePiece D D.Area). piece.known) pieces.now)) 0 node) }
    {
        for node in 0..self.geometry.nodes {
            if !self.keeps_node(node, &pieces[node as usize].known) {
                return Some(node);
            }
        }
        None
    }

    // Whether the records of a node, which knows so much as clean, are its own, and it knows no more than the tokens
    // say.
    fn keeps_node(&self, node: u16, known: &KnownClean) -> bool
        requires { node < self.now.geometry.nodes }
        ensures { IsTrue result ↔ KeepsNode self.now known.now node }
    {
        keeps_own(&self.geometry, node, self.logs[node as usize].as_slice())
            && keeps_known(known, self.tokens.as_slice())
    }

    /// The numbers that the segments have before all their records, or the first segment whose token, records or pages
    /// fail their test. It takes memory for the numbers, and for a mark of each number of a segment.
    pub(crate) fn test_tokens(&self, alloc: Global) -> Result<Result<Vec<u64>, u32>, AllocError>
        ensures numbers { IfOk result (λ tested. IfOk tested (λ numbers. numbers.items ≡ first_numbers self.now)) }
        ensures keeps { IfOk result (λ tested. IfOk tested (λ _. AllKeepTokens (tests_of self.now []))) }
        ensures fails { IfOk result (λ tested. IfErr tested (λ segment. (segment ≤ self.now.geometry.segments)
            × IsFirst (KeepsToken (tests_of self.now [])) 1 segment)) }
    {
        let mut numbers = Vec::with_capacity(alloc, self.tokens.len())?;
        for place in 0..self.geometry.segments {
            let Some(number) = self.first_number(alloc, place)? else {
                return Ok(Err(place + 1));
            };
            numbers.push(number)?;
        }
        Ok(Ok(numbers))
    }

    // The number that the segment at this place has before all its records, if its test does not fail.
    fn first_number(&self, alloc: Global, place: u32) -> Result<Option<u64>, AllocError>
        requires { place < self.now.geometry.segments }
        ensures number { IfOk result (λ tested. IfSome tested (λ number. number
            ≡ number_at (first_numbers self.now) (place + 1))) }
        ensures keeps { IfOk result (λ tested. IfSome tested (λ _. KeepsToken (tests_of self.now []) (place + 1))) }
        ensures fails { IfOk result (λ tested. IfNone tested (KeepsToken (tests_of self.now []) (place + 1) → ⊥)) }
    {
        let at = place as usize;
        let read = SegmentRead {
            segment: place + 1,
            token: &self.tokens[at],
            holder: self.holders[at],
            area: self.areas[at].as_slice(),
            pages: self.geometry.pages,
        };
        if !is_token(&self.geometry, place + 1, read.token, read.holder) {
            return Ok(None);
        }
        keeps_first(alloc, &read, self.counts.as_slice(), self.logs.as_slice())
    }

    /// What the segments are made of, where all records follow one another in this order, or the first segment whose
    /// images or pages fail their test. It takes memory for the records in their order, and for the bytes of all
    /// segments.
    pub(crate) fn test_images(
        &self,
        alloc: Global,
        numbers: &[u64],
        order: &[usize],
        nodes: &[NodeImages],
    ) -> Result<Result<SegmentPieces, u32>, AllocError>
        requires numbers { numbers.now ≡ first_numbers self.now }
        requires tokens { AllKeepTokens (tests_of self.now []) }
        requires merged { AreMerged (tests_of self.now order.now) }
        requires images { AreImages self.now.geometry nodes.now }
        ensures geometry { IfOk result (λ tested. IfOk tested (λ pieces. pieces.geometry ≡ self.now.geometry)) }
        ensures pieces { IfOk result (λ tested. IfOk tested (λ pieces. (k : ℕ) (piece : ThePiece)
            → slice_get pieces.pieces.items k ≡ Some piece → IsPieceOf (tests_of self.now order.now) (k + 1) piece)) }
        ensures keeps { IfOk result (λ tested. IfOk tested (λ _. (segment : ℕ) → 1 ≤ segment
            → segment ≤ self.now.geometry.segments → KeepsPictures (tests_of self.now order.now) nodes.now segment)) }
        ensures fails { IfOk result (λ tested. IfErr tested (λ segment. (segment ≤ self.now.geometry.segments)
            × IsFirst (KeepsPictures (tests_of self.now order.now) nodes.now) 1 segment)) }
    {
        let records = in_order(alloc, self.logs.as_slice(), order)?;
        let mut pieces = Vec::with_capacity(alloc, numbers.len())?;
        for place in 0..self.geometry.segments {
            let first = numbers[place as usize];
            let Some(piece) = self.piece(alloc, place, first, records.as_slice(), nodes)? else {
                return Ok(Err(place + 1));
            };
            pieces.push(piece)?;
        }
        Ok(Ok(SegmentPieces {
            geometry: self.geometry,
            pieces,
        }))
    }

    // What the segment at this place, which has this number before all its records, is made of, if its test does not
    // fail.
    fn piece(
        &self,
        alloc: Global,
        place: u32,
        first: u64,
        records: &[&Record],
        nodes: &[NodeImages],
    ) -> Result<Option<SegmentPiece>, AllocError>
        requires place { place < self.now.geometry.segments }
        requires first { first ≡ number_at (first_numbers self.now) (place + 1) }
        requires tokens { AllKeepTokens (tests_of self.now []) }
        requires images { AreImages self.now.geometry nodes.now }
        ensures long { IfOk result (λ tested. IfSome tested (IsLong self.now.geometry)) }
        ensures piece { IfOk result (λ tested. IfSome tested (λ piece. (turns : List ℕ)
            → map (λ r. r.now) records.now ≡ merged_after (logs_of self.now.logs.items) [] turns
            → IsPieceOf (tests_of self.now turns) (place + 1) piece)) }
        ensures keeps { IfOk result (λ tested. IfSome tested (λ _. (turns : List ℕ)
            → map (λ r. r.now) records.now ≡ merged_after (logs_of self.now.logs.items) [] turns
            → KeepsPictures (tests_of self.now turns) nodes.now (place + 1))) }
        ensures fails { IfOk result (λ tested.
            IfNone tested ((turns : List ℕ)
            → map (λ r. r.now) records.now ≡ merged_after (logs_of self.now.logs.items) [] turns
            → KeepsPictures (tests_of self.now turns) nodes.now (place + 1) → ⊥)) }
    {
        let at = place as usize;
        let holder = self.holders[at];
        if !are_applied(nodes, at, self.tokens[at].seq(), node_of(holder)) {
            return Ok(None);
        }
        let Some(bytes) = self.replayed(alloc, place, first, records)? else {
            return Ok(None);
        };
        if !all_come_up(alloc, at, records, nodes, bytes.as_slice())? {
            return Ok(None);
        }
        let stable = stable_number(
            place + 1,
            first,
            self.logs.as_slice(),
            self.counts.as_slice(),
        );
        let stable_bytes = self.bytes_up_to(alloc, place, stable, records)?;
        Ok(Some(SegmentPiece {
            holder,
            bytes,
            stable,
            stable_bytes,
        }))
    }

    // The bytes that all records make of the pages of the segment at this place, if each page is what the records up to
    // its sequence make of them.
    fn replayed(
        &self,
        alloc: Global,
        place: u32,
        first: u64,
        records: &[&Record],
    ) -> Result<Option<Vec<u8>>, AllocError>
        requires place { place < self.now.geometry.segments }
        requires small { first ≤ 2 ^ 60 }
        ensures bytes { IfOk result (λ tested. IfSome tested (λ bytes. bytes.items
            ≡ bytes_after (place + 1) (map (λ r. r.now) records.now) ((tests_of self.now []).bytes (place + 1)))) }
        ensures replay { IfOk result (λ tested. IfSome tested (λ _.
            IsReplay (place + 1) first ((tests_of self.now []).token (place + 1)).seq (map (λ r. r.now) records.now)
            ((tests_of self.now []).bytes (place + 1))
            ((tests_of self.now []).area (place + 1)) self.now.geometry.pages)) }
        ensures fails { IfOk result (λ tested.
            IfNone tested (IsReplay (place + 1) first ((tests_of self.now []).token (place + 1)).seq
            (map (λ r. r.now) records.now) ((tests_of self.now []).bytes (place + 1))
            ((tests_of self.now []).area (place + 1)) self.now.geometry.pages → ⊥)) }
    {
        let at = place as usize;
        let mut bytes = self.bytes[at].as_slice().to_vec(alloc)?;
        let agrees = replay_segment(
            place + 1,
            first,
            self.tokens[at].seq(),
            records,
            self.areas[at].as_slice(),
            self.geometry.pages,
            bytes.as_mut_slice(),
        );
        Ok(agrees.then_some(bytes))
    }

    // The bytes that the records up to a number make of the pages of the segment at this place.
    fn bytes_up_to(
        &self,
        alloc: Global,
        place: u32,
        number: u64,
        records: &[&Record],
    ) -> Result<Vec<u8>, AllocError>
        requires { place < self.now.geometry.segments }
        ensures { IfOk result (λ bytes. bytes.items
            ≡ bytes_up_to (place + 1) number (map (λ r. r.now) records.now)
            ((tests_of self.now []).bytes (place + 1))) }
    {
        let mut bytes = self.bytes[place as usize].as_slice().to_vec(alloc)?;
        replay_up_to(place + 1, number, records, bytes.as_mut_slice());
        Ok(bytes)
    }
}

/// The node where the token is, or that it left.
pub(crate) fn node_of(holder: Holder) -> u16
    ensures { result ≡ node_of holder }
{
    match holder {
        Holder::Here(node) | Holder::Left(node) => node,
    }
}

// Whether the token is one of this segment, with an entry for each page, at a node or on its way from one.
fn is_token(geometry: &Geometry, segment: u32, token: &Token, holder: Holder) -> bool
    ensures { IsTrue result ↔ IsTokenIn geometry.now segment token.now holder }
{
    token.segment() == segment
        && token.pages().len() == geometry.pages as usize
        && node_of(holder) < geometry.nodes
}

// The number that the segment has before all its records, if these have the numbers after it up to the token's, each
// once, and the token agrees with them and with its area.
fn keeps_first(
    alloc: Global,
    read: &SegmentRead<'_>,
    counts: &[usize],
    logs: &[Vec<Record>],
) -> Result<Option<u64>, AllocError>
    requires area { 2 * 272 * read.now.pages ≤ length read.now.area.now }
    requires count { length counts.now ≡ length logs.now }
    ensures number { IfOk result (λ tested. IfSome tested (λ number. number
        ≡ read.now.token.now.seq - count_on read.now.segment (logs_of logs.now))) }
    ensures keeps { IfOk result (λ tested. IfSome tested (λ _.
        KeepsTokenIn read.now.segment read.now.pages read.now.token.now read.now.holder read.now.area.now
        (logs_of logs.now) counts.now)) }
    ensures fails { IfOk result (λ tested.
        IfNone tested (KeepsTokenIn read.now.segment read.now.pages read.now.token.now read.now.holder read.now.area.now
        (logs_of logs.now) counts.now → ⊥)) }
{
    let (segment, seq) = (read.segment, read.token.seq());
    let Some(first) = first_number(segment, seq, logs) else {
        return Ok(None);
    };
    if keeps_numbers(alloc, segment, first, seq, logs)? && keeps_token(read, counts, logs) {
        return Ok(Some(first));
    }
    Ok(None)
}

// Whether no node has applied more than this number of the segment at this place, and this one just that.
fn are_applied(nodes: &[NodeImages], place: usize, seq: u64, here: u16) -> bool
    requires { (n : ℕ) (node : TheImages) → slice_get nodes.now n ≡ Some node → place < length node.applied.items }
    ensures { IsTrue result ↔ AreApplied nodes.now (place + 1) seq here }
{
    for (n, node) in nodes.iter().enumerate() {
        if !is_applied(node.applied[place], seq, n == here as usize) {
            return false;
        }
    }
    true
}

// Whether the number is not above the other, and where it has to be, just that.
fn is_applied(number: u64, seq: u64, same: bool) -> bool
    ensures { IsTrue result ↔ ((number ≤ seq) × (same ≡ true → number ≡ seq)) }
{
    number <= seq && (!same || number == seq)
}

// Whether the image of each node, with the records above what it has applied, is these bytes.
fn all_come_up(
    alloc: Global,
    place: usize,
    records: &[&Record],
    nodes: &[NodeImages],
    bytes: &[u8],
) -> Result<bool, AllocError>
    requires small { place < 2 ^ 32 - 1 }
    requires images { (n : ℕ) (node : TheImages) → slice_get nodes.now n ≡ Some node
        → (place < length node.images.items) × (place < length node.applied.items) }
    ensures { IfOk result (λ up. IsTrue up
        ↔ ((n : ℕ) (node : TheImages) → slice_get nodes.now n ≡ Some node
        → ComesUp place (map (λ r. r.now) records.now) node bytes.now)) }
{
    for node in nodes {
        if !image_comes_up(alloc, place, records, node, bytes)? {
            return Ok(false);
        }
    }
    Ok(true)
}

// Whether the image of the node does.
fn image_comes_up(
    alloc: Global,
    place: usize,
    records: &[&Record],
    node: &NodeImages,
    bytes: &[u8],
) -> Result<bool, AllocError>
    requires small { place < 2 ^ 32 - 1 }
    requires image { place < length node.now.images.items }
    requires applied { place < length node.now.applied.items }
    ensures { IfOk result (λ up. IsTrue up ↔ ComesUp place (map (λ r. r.now) records.now) node.now bytes.now) }
{
    let mut image = node.images[place].bytes().to_vec(alloc)?;
    Ok(comes_up(
        place as u32 + 1,
        node.applied[place],
        records,
        image.as_mut_slice(),
        bytes,
    ))
}
