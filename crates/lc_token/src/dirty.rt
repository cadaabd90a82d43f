//! The pages that are still to be written.
ghost use Rattle.std.specs.Prelude.{◌≡◌, ℕ, IfOk, OnErr};
ghost use Rattle.lc_token.specs.Token.{IsDirtyPage};
ghost use Rattle.lc_token.specs.Dirty.{AreDirtyPages};

use crate::Token;
use std::alloc::{AllocError, Global};

/// The dirty pages of the token's segment, ascending: those that were changed under a greater number than the one on
/// the disk. Where no page is dirty it takes no memory.
pub fn dirty_pages(alloc: Global, token: &Token) -> Result<Vec<u32>, AllocError>
    ensures pages { IfOk result (λ numbers. AreDirtyPages token.now.pages numbers.items) }
    ensures memory { OnErr result ((page : ℕ) × IsDirtyPage token.now.pages page) }
{
    let pages = token.pages();
    let mut numbers = Vec::new(alloc);
    for place in 0..pages.len() {
        let Ok(page) = u32::try_from(place) else {
            break;
        };
        if pages.dirty(page) {
            numbers.push(page)?;
        }
    }
    Ok(numbers)
}
