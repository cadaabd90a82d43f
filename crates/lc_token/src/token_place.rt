//! The place of a segment's token at a node.
ghost use Rattle.std.specs.Prelude.{◌≡◌, ◌+◌, ◌<◌, ◌≤◌, ◌^◌, ◌↔◌, true, false, [], length, slice_set, IfOk, IsOk};
ghost use Rattle.std.specs.Prelude.{IsSome, IsSomeAnd, IsTrue, OnOk, OnErr};
ghost use Rattle.std.specs.Option.{ForSome, option_copied};

use crate::{HoldBack, Token, TokenFault};
use std::marker::Model;

/// The place of one segment's token at a node: the token stands there, or it is empty. Contracts see it as a
/// `Standing`. A token that stands there is of the segment.
#[derive(Drop)]
pub struct TokenPlace {
    segment: u32,
    token: Option<Token>,
}

impl Model for TokenPlace {
    ghost use Rattle.lc_token.specs.Standing.{Standing};

    ghost Value = { Standing };

    ghost use Rattle.lc_token.specs.TokenPlace.{standing_of, HasItsToken};

    ghost view = { standing_of };

    ghost invariant = { HasItsToken };
}

impl TokenPlace {
    ghost use Rattle.lc_page.specs.PageVector.{entry_at, touched_at};
    ghost use Rattle.lc_token.specs.Token.{IsWritten};

    /// The place of a segment, with its token or without.
    pub fn new(segment: u32, token: Option<Token>) -> TokenPlace
        requires { ForSome token (λ t. t.segment ≡ segment) }
        ensures segment { result.segment ≡ segment }
        ensures token { result.token ≡ token }
    {
        TokenPlace { segment, token }
    }

    /// The segment, from 1.
    pub fn segment(&self) -> u32
        ensures { result ≡ self.now.segment }
    {
        self.segment
    }

    /// The token that stands here, which is of the place's segment.
    pub fn token(&self) -> Option<&Token>
        ensures token { option_copied result ≡ self.now.token }
        ensures segment { ForSome self.now.token (λ t. t.segment ≡ self.now.segment) }
    {
        self.token.as_ref()
    }

    /// Counts a record of the segment that is closed here: the token's number rises by one. A token stands here, and
    /// has not used its last number, 2^60. It takes no memory.
    pub fn count_record(&mut self)
        requires { IsSomeAnd self.old.token (λ t. t.seq < 2 ^ 60) }
        ensures { ForSome self.old.token (λ t. self.new
            ≡ record self.old { token = Some (record t { seq = t.seq + 1 }) }) }
    {
        if let Some(token) = &mut self.token {
            token.seq += 1;
        }
    }

    /// Notes that a page of the segment is changed under the token's number. A token stands here. It takes no memory.
    pub fn touch(&mut self, page: u32)
        requires { IsSomeAnd self.old.token (λ t. page < length t.pages) }
        ensures { ForSome self.old.token (λ t. self.new ≡ record self.old {
          token = Some (record t { pages = slice_set t.pages page (touched_at (entry_at t.pages page) t.seq) });
        }) }
    {
        if let Some(token) = &mut self.token {
            token.pages.touch(page, token.seq);
        }
    }

    /// Notes that a page was written under a number, as `Token::written` does; a token stands here. It takes no memory.
    pub fn written(&mut self, page: u32, number: u64)
        requires { IsSomeAnd self.old.token (λ t. page < length t.pages) }
        ensures token { ForSome self.old.token (λ t. IsSomeAnd self.new.token (λ u. IsWritten t page number u)) }
        ensures segment { self.new.segment ≡ self.old.segment }
    {
        if let Some(token) = &mut self.token {
            token.written(page, number);
        }
    }

    /// Whether no token stands here.
    pub fn is_empty(&self) -> bool
        ensures { IsTrue result ↔ (self.now.token ≡ None) }
    {
        self.token.is_none()
    }

    /// Takes the token away, to be sent, which leaves the place empty.
    ///
    /// # Errors
    ///
    /// In this order: `NotHere` where no token stands here; `Held` where a transaction holds the segment; `Writing`
    /// where a page of the segment is being written; `Unflushed` where of the records that the node reserved not all
    /// are stable. Nothing has changed then.
    pub fn leave(
        &mut self,
        held: bool,
        writing: bool,
        reserved: u64,
        stable: u64,
    ) -> Result<Token, TokenFault>
        ensures not_here { (result ≡ Err (TokenFault.NotHere self.old.segment)) ↔ (self.old.token ≡ None) }
        ensures held { (result ≡ Err TokenFault.Held) ↔ (IsSome self.old.token × (held ≡ true)) }
        ensures writing { (result ≡ Err TokenFault.Writing)
            ↔ (IsSome self.old.token × (held ≡ false) × (writing ≡ true)) }
        ensures unflushed { (result ≡ Err TokenFault.Unflushed)
            ↔ (IsSome self.old.token × (held ≡ false) × (writing ≡ false) × (stable < reserved)) }
        ensures done { IsOk result
            ↔ (IsSome self.old.token × (held ≡ false) × (writing ≡ false) × (reserved ≤ stable)) }
        ensures token { IfOk result (λ token. self.old.token ≡ Some token) }
        ensures segment { IfOk result (λ token. token.segment ≡ self.old.segment) }
        ensures empty { OnOk result (self.new ≡ record self.old { token = None }) }
        ensures err { OnErr result (self.new ≡ self.old) }
    {
        if self.token.is_none() {
            return Err(TokenFault::NotHere {
                segment: self.segment,
            });
        }
        if held {
            return Err(TokenFault::Held);
        }
        if writing {
            return Err(TokenFault::Writing);
        }
        if stable < reserved {
            return Err(TokenFault::Unflushed);
        }
        Ok(self.token.take().unwrap())
    }

    /// Places a token that was sent here. The place is empty, and no part waits to be handed out: `is_empty` and
    /// `HoldBack::has_due` tell. Refused where the node has not applied all that the token has seen; the token is then
    /// handed back.
    pub fn arrive(&mut self, token: Token, hold_back: &HoldBack) -> Result<(), (Token, TokenFault)>
        requires empty { self.old.token ≡ None }
        requires none_due { hold_back.now.due ≡ [] }
        requires same_token { token.segment ≡ self.old.segment }
        requires same_hold_back { hold_back.now.segment ≡ self.old.segment }
        ensures behind { (result ≡ Err (token, TokenFault.Behind hold_back.now.applied token.seq))
            ↔ (hold_back.now.applied < token.seq) }
        ensures done { (result ≡ Ok tt) ↔ (token.seq ≤ hold_back.now.applied) }
        ensures placed { OnOk result (self.new ≡ record self.old { token = Some token }) }
        ensures err { OnErr result (self.new ≡ self.old) }
    {
        let applied = hold_back.applied();
        if applied < token.seq {
            let seq = token.seq;
            return Err((token, TokenFault::Behind { applied, seq }));
        }
        self.token = Some(token);
        Ok(())
    }
}
