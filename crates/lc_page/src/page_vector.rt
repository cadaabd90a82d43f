//! What a node keeps of the pages of a segment.
ghost use Rattle.std.specs.Prelude.{◌≡◌, ◌-◌, ◌<◌, ◌^◌, ◌↔◌, IsTrue, IfOk, OnErr, length, map, slice_set};

use crate::{PageEntry, PageText, Slot};
use std::alloc::{AllocError, Global};
use std::marker::Model;

/// What a node keeps of the pages of a segment, an entry for each page in order. Contracts see it as the list of its
/// entries. That a page is dirty where it was touched above what is stable is this project's own.
#[derive(Drop)]
pub struct PageVector {
    entries: Vec<PageEntry>,
}

impl Model for PageVector {
    ghost use Rattle.std.specs.Prelude.{List};
    ghost use Rattle.lc_page.specs.declared.page_entry.PageEntry.{PageEntry};

    ghost Value = { List PageEntry };

    ghost view = { λ v. v.entries.items };
}

impl PageVector {
    ghost use Rattle.lc_page.specs.PageVector.{new_entry, entry_at, is_dirty, held, released, touched_at, settled};

    /// The entries of pages that are read like these. Of no page they take no memory.
    pub fn new(alloc: Global, texts: &[PageText]) -> Result<PageVector, AllocError>
        ensures entries { IfOk result (λ v. v ≡ map new_entry texts.now) }
        ensures no_memory { OnErr result (0 < length texts.now) }
    {
        let mut entries = Vec::with_capacity(alloc, texts.len())?;
        for text in texts {
            entries.push(PageEntry::new(*text))?;
        }
        Ok(PageVector { entries })
    }

    /// How many pages there are.
    pub fn len(&self) -> usize
        ensures { result ≡ length self.now }
    {
        self.entries.len()
    }

    /// Whether there is no page.
    pub fn is_empty(&self) -> bool
        ensures { IsTrue result ↔ (length self.now ≡ 0) }
    {
        self.entries.is_empty()
    }

    /// The entry of a page.
    pub fn entry(&self, page: u32) -> PageEntry
        requires { page < length self.now }
        ensures { result ≡ entry_at self.now page }
    {
        self.entries[page as usize]
    }

    /// How many uncommitted references there are to a page.
    pub fn uncommitted(&self, page: u32) -> u64
        requires { page < length self.now }
        ensures { result ≡ (entry_at self.now page).uncommitted }
    {
        self.entry(page).uncommitted
    }

    /// The greatest number under which a page was changed.
    pub fn touched(&self, page: u32) -> u64
        requires { page < length self.now }
        ensures { result ≡ (entry_at self.now page).touched }
    {
        self.entry(page).touched
    }

    /// The sequence of a page on the disk.
    pub fn stable(&self, page: u32) -> u64
        requires { page < length self.now }
        ensures { result ≡ (entry_at self.now page).stable }
    {
        self.entry(page).stable
    }

    /// The present slot of a page, if one is open.
    pub fn slot(&self, page: u32) -> Option<Slot>
        requires { page < length self.now }
        ensures { result ≡ (entry_at self.now page).slot }
    {
        self.entry(page).slot
    }

    /// Whether the gate of each slot of a page reads as open.
    pub fn gates(&self, page: u32) -> [bool; 2]
        requires { page < length self.now }
        ensures { result ≡ (entry_at self.now page).gates }
    {
        self.entry(page).gates
    }

    /// Whether a page is dirty: it was changed under a greater number than the one on the disk.
    pub fn dirty(&self, page: u32) -> bool
        requires { page < length self.now }
        ensures { result ≡ is_dirty (entry_at self.now page) }
    {
        let entry = self.entry(page);
        entry.touched > entry.stable
    }

    /// Counts one more uncommitted reference to a page. There are fewer than 2^64 - 1: `uncommitted` tells.
    pub fn hold(&mut self, page: u32)
        requires page { page < length self.old }
        requires room { (entry_at self.old page).uncommitted < 2 ^ 64 - 1 }
        ensures { self.new ≡ slice_set self.old page (held (entry_at self.old page)) }
    {
        let mut entry = self.entry(page);
        entry.uncommitted += 1;
        self.put(page, entry);
    }

    /// Counts one uncommitted reference to a page less. There is one: `uncommitted` tells.
    pub fn release(&mut self, page: u32)
        requires page { page < length self.old }
        requires some { 0 < (entry_at self.old page).uncommitted }
        ensures { self.new ≡ slice_set self.old page (released (entry_at self.old page)) }
    {
        let mut entry = self.entry(page);
        entry.uncommitted -= 1;
        self.put(page, entry);
    }

    /// Notes that a page was changed under a number. A number below an earlier one changes nothing.
    pub fn touch(&mut self, page: u32, seq: u64)
        requires { page < length self.old }
        ensures { self.new ≡ slice_set self.old page (touched_at (entry_at self.old page) seq) }
    {
        let mut entry = self.entry(page);
        entry.touched = entry.touched.max(seq);
        self.put(page, entry);
    }

    /// Notes that a page was written under a number: this is its sequence on the disk, its slot is turned, and the
    /// gate of that slot is open.
    pub fn settle(&mut self, page: u32, seq: u64)
        requires { page < length self.old }
        ensures { self.new ≡ slice_set self.old page (settled (entry_at self.old page) seq) }
    {
        let mut entry = self.entry(page);
        let slot = entry.next_slot();
        entry.stable = seq;
        entry.slot = Some(slot);
        entry.gates[slot.number()] = true;
        self.put(page, entry);
    }

    /// The entry of a page is made anew: it is read like this.
    pub fn renew(&mut self, page: u32, text: PageText)
        requires { page < length self.old }
        ensures { self.new ≡ slice_set self.old page (new_entry text) }
    {
        self.put(page, PageEntry::new(text));
    }

    // Puts an entry in the place of one.
    fn put(&mut self, page: u32, entry: PageEntry)
        requires { page < length self.old }
        ensures { self.new ≡ slice_set self.old page entry }
    {
        let place = page as usize;
        self.entries[place] = entry;
    }
}
