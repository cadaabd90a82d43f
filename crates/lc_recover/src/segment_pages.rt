//! The pages of a segment, as they were read.
ghost use Rattle.std.specs.Prelude.{◌≡◌, ◌+◌, ◌*◌, ◌<◌, ◌≤◌, length, take, drop, slice_set, IfOk};
ghost use Rattle.lc_disk.specs.Area.{overlaid};
ghost use Rattle.lc_page.specs.PageVector.{entry_at, entry_text, settled};
ghost use Rattle.lc_recover.specs.Pages.{AreKept, bytes_of_page};

use crate::buffers::zeros;
use lc_page::{PAGE_BYTES, PageText, PageVector, page_bytes, read_page};
use std::alloc::{AllocError, Global};

// What an area says of a page that it does not have.
const NO_PAGE: PageText = PageText {
    seq: 0,
    slot: None,
    gates: [false, false],
};

/// The pages of a segment: what the disk says of each, and their bytes one after another, 256 of each.
#[derive(Drop)]
pub(crate) struct SegmentPages {
    pub(crate) texts: PageVector,
    pub(crate) bytes: Vec<u8>,
}

impl SegmentPages {
    /// Room for so many pages.
    pub(crate) fn with_pages(alloc: Global, pages: u32) -> Result<SegmentPages, AllocError>
        ensures texts { IfOk result (λ s. length s.texts ≡ pages) }
        ensures bytes { IfOk result (λ s. length s.bytes.items ≡ pages * 256) }
    {
        let texts = vec![in alloc; NO_PAGE; pages as usize]?;
        Ok(SegmentPages {
            texts: PageVector::new(alloc, &texts)?,
            bytes: zeros(alloc, PAGE_BYTES * pages as usize)?,
        })
    }

    /// Takes over as many pages of an area that reads as these bytes.
    pub(crate) fn fill(&mut self, area: &[u8])
        requires few { length self.old.texts ≤ 1024 }
        requires long { 2 * 272 * length self.old.texts ≤ length area.now }
        requires room { length self.old.bytes.items ≡ length self.old.texts * 256 }
        ensures { AreKept area.now (length self.old.texts) self.new }
    {
        for page in 0..self.texts.len() as u32 {
            self.texts.renew(page, read_page(area, page));
            self.put(page, page_bytes(area, page));
        }
    }

    /// The bytes of a page.
    pub(crate) fn page(&self, page: u32) -> &[u8]
        requires { page * 256 + 256 ≤ length self.now.bytes.items }
        ensures bytes { result.now ≡ bytes_of_page self.now page }
        ensures len { length result.now ≡ 256 }
    {
        let start = page as usize * PAGE_BYTES;
        &self.bytes[start..start + PAGE_BYTES]
    }

    /// What the area says of a page.
    pub(crate) fn text(&self, page: u32) -> PageText
        requires { page < length self.now.texts }
        ensures { result ≡ entry_text (entry_at self.now.texts page) }
    {
        self.texts.entry(page).text()
    }

    /// Puts a page that was written under a number in the place of the one before.
    pub(crate) fn renew(&mut self, page: u32, bytes: &[u8; 256], number: u64)
        requires page { page < length self.old.texts }
        requires room { page * 256 + 256 ≤ length self.old.bytes.items }
        ensures texts { self.new.texts ≡ slice_set self.old.texts page (settled (entry_at self.old.texts page) number) }
        ensures bytes { self.new.bytes.items ≡ overlaid self.old.bytes.items (page * 256) bytes.now }
    {
        self.texts.settle(page, number);
        self.put(page, bytes);
    }

    // Puts these bytes in the place of a page's.
    fn put(&mut self, page: u32, bytes: &[u8])
        requires len { length bytes.now ≡ 256 }
        requires room { page * 256 + 256 ≤ length self.old.bytes.items }
        ensures texts { self.new.texts ≡ self.old.texts }
        ensures bytes { self.new.bytes.items ≡ overlaid self.old.bytes.items (page * 256) bytes.now }
    {
        let start = page as usize * PAGE_BYTES;
        self.bytes[start..start + PAGE_BYTES].copy_from_slice(bytes);
    }
}
