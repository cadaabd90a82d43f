//! The bytes of a segment's pages.
ghost use Rattle.std.specs.Prelude.{◌≡◌, ◌*◌, ◌≤◌, length, IfOk};
ghost use Rattle.lc_rest.specs.Replay.{AreBytes};

use lc_page::{PAGE_BYTES, page_bytes};
use std::alloc::{AllocError, Global};

/// The bytes of so many pages of an area, one page after another. The area has two slots of 272 bytes a page. It takes
/// memory for the bytes before it reads.
pub fn read_bytes(alloc: Global, area: &[u8], pages: u32) -> Result<Vec<u8>, AllocError>
    requires { 2 * 272 * pages ≤ length area.now }
    ensures { IfOk result (λ bytes. AreBytes area.now pages bytes.items) }
{
    let mut bytes = Vec::with_capacity(alloc, PAGE_BYTES * pages as usize)?;
    for page in 0..pages {
        bytes.extend_from_slice(page_bytes(area, page))?;
    }
    Ok(bytes)
}
