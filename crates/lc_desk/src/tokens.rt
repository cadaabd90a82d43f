//! Tokens leave and arrive at a desk, records come from peers, and a page write puts its number on a token.
ghost use Rattle.std.specs.Prelude.{◌≡◌, ◌≤◌, ◌-◌, ◌↔◌, true, false, vec_len, slice_get, IsOk, IfOk, IfErr, Err, None};
ghost use Rattle.std.specs.Prelude.{OnErr, IsSome, length, Some, IfSome, MatchOption};
ghost use Rattle.std.specs.Option.{ForSome};
ghost use Rattle.lc_desk.specs.Leaves.{Leaves, MayLeave, IsAsBefore};
ghost use Rattle.lc_desk.specs.MayReply.{may_refuse_leave};
ghost use Rattle.lc_desk.specs.TokenRefused.{token_refusal};
ghost use Rattle.lc_desk.specs.Arrives.{Arrives};
ghost use Rattle.lc_record.specs.Part.{part_of};
ghost use Rattle.lc_desk.specs.Receives.{FollowsReceive, IsNew};
ghost use Rattle.lc_desk.specs.InPlace.{LendsImage, PutsNext, TakesAtOnce};
ghost use Rattle.lc_page.specs.PageVector.{entry_at};
ghost use Rattle.lc_token.specs.declared.token.Token.{Token};
ghost use Rattle.lc_desk.specs.Drafts.{IsDraft, MayDraft, NotesWritten};
ghost use Rattle.lc_desk.specs.declared.segment_copy.SegmentCopy.{SegmentCopy};

use crate::desk::Desk;
use crate::page_writes::page_in;
use lc_page::{Begun, PAGE_BYTES, PageWrite, is_sequence};
use lc_record::Record;
use lc_token::{Received, Token, TokenFault};
use lc_tx::Image;
use std::alloc::{AllocError, Global};
use std::mem;

impl Desk {
    /// Takes the token of a segment, from 1, away to be sent. The node reserved `reserved` records since the last
    /// recovery, and `stable` of them are acknowledged; `writing` says whether a page of the segment is being written.
    /// It takes no memory.
    ///
    /// # Errors
    ///
    /// In this order: `NotHere` where the token is elsewhere; `Held` where a transaction holds the segment; `Writing`;
    /// `Unflushed` where not all that was reserved is acknowledged. Nothing has changed then.
    pub fn leave(
        &mut self,
        segment: u32,
        writing: bool,
        reserved: u64,
        stable: u64,
    ) -> Result<Token, TokenFault>
        requires first { 1 ≤ segment }
        requires slot { segment ≤ vec_len self.old.here.slots }
        ensures done { ForSome (slice_get self.old.here.slots.items (segment - 1)) (λ slot.
            IsOk result ↔ MayLeave writing reserved stable slot) }
        ensures writing { (result ≡ Err TokenFault.Writing) → (writing ≡ true) }
        ensures unflushed { (result ≡ Err TokenFault.Unflushed) → (writing ≡ false) }
        ensures segment { IfOk result (λ token. token.segment ≡ segment) }
        ensures names { IfErr result (λ fault. ForSome (token_refusal fault) (λ refusal. may_refuse_leave refusal
            ≡ true)) }
        ensures leaves { Leaves segment writing reserved stable self.old result self.new }
    {
        let slot = &mut self.here.slots[segment as usize - 1];
        let held = !slot.image.holders().is_free();
        slot.token.leave(held, writing, reserved, stable)
    }

    /// Places a token that was sent here; the segment's place is empty. It takes no memory.
    ///
    /// # Errors
    ///
    /// `Behind` where the node has not applied all that the token has seen; the token is handed back, and nothing has
    /// changed.
    pub fn arrive(&mut self, token: Token) -> Result<(), (Token, TokenFault)>
        requires first { 1 ≤ token.segment }
        requires slot { token.segment ≤ vec_len self.old.here.slots }
        requires empty { ForSome (slice_get self.old.here.slots.items (token.segment - 1)) (λ slot. slot.token.token
            ≡ None) }
        ensures arrives { ForSome (slice_get self.old.here.slots.items (token.segment - 1)) (λ slot.
            Arrives token slot self.old result self.new) }
    {
        let slot = &mut self.here.slots[token.segment() as usize - 1];
        slot.token.arrive(token, &slot.parts)
    }

    /// Receives a record that a peer has published and that has a lock on a segment, from 1. Its part is put on the
    /// image once all before it are there; where the token stands here, none is missing. It takes memory only for a
    /// part that is not known.
    pub fn receive(
        &mut self,
        alloc: Global,
        segment: u32,
        record: &Record,
    ) -> Result<Received, AllocError>
        requires first { 1 ≤ segment }
        requires slot { segment ≤ vec_len self.old.here.slots }
        requires lock { IsSome (part_of segment «record».now) }
        ensures receives { IfOk result (λ answer. FollowsReceive segment «record».now self.old answer self.new) }
        ensures memory { OnErr result (ForSome (slice_get self.old.here.slots.items (segment - 1)) (λ slot.
            IsNew segment «record».now slot)) }
        ensures err { OnErr result (IsAsBefore self.old self.new) }
        ensures seats { vec_len self.new.seats ≡ vec_len self.old.seats }
        ensures slots { vec_len self.new.here.slots ≡ vec_len self.old.here.slots }
    {
        let slot = &mut self.here.slots[segment as usize - 1];
        if !slot.token.is_empty() {
            return Ok(Received::Ignored);
        }
        let Ok(received) = slot.parts.receive(alloc, record) else {
            return Err(AllocError);
        };
        slot.catch_up();
        Ok(received)
    }

    /// Takes the image of a segment, from 1, whose token is elsewhere, out of its slot, where one without bytes stands
    /// then. It takes no memory.
    pub fn take_image(&mut self, alloc: Global, segment: u32) -> Image
        requires first { 1 ≤ segment }
        requires slot { segment ≤ vec_len self.old.here.slots }
        requires away { ForSome (slice_get self.old.here.slots.items (segment - 1)) (λ slot. slot.token.token ≡ None) }
        ensures { LendsImage segment self.old result self.new }
    {
        let slot = &mut self.here.slots[segment as usize - 1];
        mem::replace(&mut slot.image, Image::new(Vec::new(alloc)))
    }

    /// Puts an image with the part of the record of this number, the next of the segment, into its slot, which counts
    /// the record. It takes no memory.
    pub fn put_next(&mut self, segment: u32, seq: u64, image: Image) -> Received
        requires first { 1 ≤ segment }
        requires slot { segment ≤ vec_len self.old.here.slots }
        requires next { ForSome (slice_get self.old.here.slots.items (segment - 1)) (λ slot. TakesAtOnce seq slot) }
        requires short { length image.bytes.items ≤ 262144 }
        ensures { PutsNext segment seq image self.old result self.new }
    {
        let slot = &mut self.here.slots[segment as usize - 1];
        slot.image = image;
        slot.parts.pass_on(seq)
    }

    /// A write of a page of a segment, from 1, as it is here, under the number of the token, which stands here. There
    /// is none where the page on the disk has that number already. It takes no memory.
    pub fn draft(&self, segment: u32, page: u32) -> Option<PageWrite<Begun>>
        requires first { 1 ≤ segment }
        requires slot { segment ≤ vec_len self.now.here.slots }
        ensures page { IfSome result (λ write. write.draft.page ≡ page) }
        ensures drafts { (slot : SegmentCopy) (token : Token)
            → slice_get self.now.here.slots.items (segment - 1) ≡ Some slot → slot.token.token ≡ Some token
            → MayDraft page token slot → MatchOption result (token.seq ≤ (entry_at token.pages page).stable)
            (λ write. IsDraft page token slot write.draft write.state.gate) }
    {
        let slot = &self.here.slots[segment as usize - 1];
        let token = slot.token.token()?;
        if page as usize >= token.pages().len() || !is_sequence(token.seq()) {
            return None;
        }
        let bytes = copy_of(page_in(slot.image.bytes(), page));
        PageWrite::begin(token.pages(), page, &bytes, token.seq()).ok()
    }

    /// Notes that a page of a segment, from 1, was written under a number, where the segment's token stands here. It
    /// takes no memory.
    pub fn note_written(&mut self, segment: u32, page: u32, number: u64)
        requires first { 1 ≤ segment }
        requires slot { segment ≤ vec_len self.old.here.slots }
        ensures notes { NotesWritten segment page number self.old self.new }
        ensures seats { self.new.seats ≡ self.old.seats }
        ensures slots { vec_len self.new.here.slots ≡ vec_len self.old.here.slots }
    {
        let slot = &mut self.here.slots[segment as usize - 1];
        let Some(token) = slot.token.token() else {
            return;
        };
        if (page as usize) < token.pages().len() {
            slot.token.written(page, number);
        }
    }
}

// A page of these bytes; a byte that is missing is 0.
fn copy_of(bytes: &[u8]) -> [u8; PAGE_BYTES]
    ensures { length bytes.now ≡ 256 → result ≡ bytes.now }
{
    let mut copy = [0; PAGE_BYTES];
    if bytes.len() == PAGE_BYTES {
        copy.copy_from_slice(bytes);
    }
    copy
}
