//! The pages of a segment of a recovered store.
ghost use Rattle.std.specs.Prelude.{◌≡◌, ℕ, ◌<◌, ◌≤◌, length, map, IfOk, OnOk};
ghost use Rattle.lc_page.specs.PageVector.{new_entry};
ghost use Rattle.lc_recover.specs.Recovered.{page_of, sequence_of};
ghost use Rattle.lc_node.specs.Fresh.{segment_bytes, segment_texts};

use lc_disk::Area;
use lc_page::PageVector;
use lc_record::PAGE;
use lc_recover::Recovered;
use std::alloc::{AllocError, Global};

/// The pages of a segment, from 1, one after another.
pub(crate) fn bytes_of<D: Area>(
    alloc: Global,
    segment: u32,
    recovered: &Recovered<D>,
) -> Result<Vec<u8>, AllocError>
    requires first { 1 ≤ segment }
    requires last { segment ≤ recovered.now.geometry.segments }
    ensures bytes { IfOk result (λ bytes. bytes.items ≡ segment_bytes recovered.now segment) }
    ensures long { OnOk result ((page : ℕ) → page < recovered.now.geometry.pages
        → length (page_of recovered.now segment page).bytes ≡ 256) }
    ensures short { IfOk result (λ bytes. length bytes.items ≤ 262144) }
{
    let pages = recovered.geometry().pages;
    let mut bytes = Vec::with_capacity(alloc, (pages * PAGE) as usize)?;
    for page in 0..pages {
        bytes.extend_from_slice(recovered.page(segment, page))?;
    }
    Ok(bytes)
}

/// What is kept of the pages of a segment, from 1.
pub(crate) fn pages_of<D: Area>(
    alloc: Global,
    segment: u32,
    recovered: &Recovered<D>,
) -> Result<PageVector, AllocError>
    requires first { 1 ≤ segment }
    requires last { segment ≤ recovered.now.geometry.segments }
    ensures pages { IfOk result (λ pages. pages ≡ map new_entry (segment_texts recovered.now segment)) }
    ensures within { OnOk result ((page : ℕ) → page < recovered.now.geometry.pages
        → (page_of recovered.now segment page).text.seq ≤ sequence_of recovered.now segment) }
{
    let pages = recovered.geometry().pages;
    let mut texts = Vec::with_capacity(alloc, pages as usize)?;
    for page in 0..pages {
        texts.push(recovered.text(segment, page))?;
    }
    PageVector::new(alloc, texts.as_slice())
}
