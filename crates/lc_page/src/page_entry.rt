//! What a node keeps of one page.

use crate::{PageText, Slot};

/// What a node keeps of one page.
#[derive(Clone, Copy)]
pub struct PageEntry {
    /// How many uncommitted references there are to the page.
    pub uncommitted: u64,
    /// The greatest number under which the page was changed.
    pub touched: u64,
    /// The page's sequence on the disk.
    pub stable: u64,
    /// Its present slot, if one is open.
    pub slot: Option<Slot>,
    /// Whether the gate of each slot reads as open.
    pub gates: [bool; 2],
}

impl PageEntry {
    ghost use Rattle.std.specs.Prelude.{◌≡◌};
    ghost use Rattle.lc_page.specs.Slot.{next_slot};
    ghost use Rattle.lc_page.specs.PageVector.{new_entry, entry_text};

    /// The entry of a page that is read like this: it is not dirty, and nothing refers to it.
    pub fn new(text: PageText) -> PageEntry
        ensures { result ≡ new_entry text }
    {
        let PageText { seq, slot, gates } = text;
        PageEntry {
            uncommitted: 0,
            touched: seq,
            stable: seq,
            slot,
            gates,
        }
    }

    /// What the disk says of the page.
    pub fn text(&self) -> PageText
        ensures { result ≡ entry_text self.now }
    {
        let gates = self.gates;
        PageText {
            seq: self.stable,
            slot: self.slot,
            gates,
        }
    }

    // The slot that the next page goes to.
    pub(crate) fn next_slot(&self) -> Slot
        ensures { result ≡ next_slot self.now.slot }
    {
        match self.slot {
            Some(slot) => slot.other(),
            None => Slot::First,
        }
    }
}
