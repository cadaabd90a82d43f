//! The tokens of a store that comes up.
ghost use Rattle.std.specs.Prelude.{◌≡◌, IfOk, Some, map};
ghost use Rattle.lc_token.specs.declared.token.Token.{Token as TheToken};

use lc_token::Token;
use std::alloc::{AllocError, Global};

/// The tokens, each of which is to stand somewhere. It takes memory for them.
pub(crate) fn standing(
    alloc: Global,
    mut tokens: Vec<Token>,
) -> Result<Vec<Option<Token>>, AllocError>
    ensures { IfOk result (λ standing. standing.items ≡ map (λ (token : TheToken). Some token) tokens.items) }
{
    let mut standing = Vec::with_capacity(alloc, tokens.len())?;
    for _ in 0..tokens.len() {
        standing.push(Some(tokens.remove(0)))?;
    }
    Ok(standing)
}
