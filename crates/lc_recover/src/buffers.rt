//! Bytes that are to be filled.
ghost use Rattle.std.specs.Prelude.{◌≡◌, IfOk, length};

use std::alloc::{AllocError, Global};

/// So many zeros.
pub(crate) fn zeros(alloc: Global, len: usize) -> Result<Vec<u8>, AllocError>
    ensures { IfOk result (λ zeros. length zeros.items ≡ len) }
{
    let mut zeros = Vec::with_capacity(alloc, len)?;
    zeros.resize(len, 0)?;
    Ok(zeros)
}
