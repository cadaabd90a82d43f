//! A page as it is being written.
ghost use Rattle.std.specs.Prelude.{◌≡◌, ◌<◌, ◌≤◌, ◌^◌, length};
ghost use Rattle.lc_page.specs.Page.{slot_at};
ghost use Rattle.lc_page.specs.PageWrite.{behind_gate};

use crate::Slot;
use crate::limits::SLOT_BYTES;

/// A page as it is being written: where it goes, under which number, and a copy of its bytes.
#[derive(Clone, Copy)]
pub struct Draft {
    /// The page's number.
    pub page: u32,
    /// The slot that it goes to.
    pub slot: Slot,
    /// Its sequence.
    pub seq: u64,
    /// Its bytes.
    pub bytes: [u8; 256],
}

impl Draft {
    // Where its slot stands.
    pub(crate) fn place(&self) -> usize
        ensures { result ≡ slot_at self.now.page self.now.slot }
    {
        (2 * self.page as usize + self.slot.number()) * SLOT_BYTES
    }

    // What stands after the gate of its slot: seven zeros, the sequence and the page.
    pub(crate) fn behind_gate(&self) -> [u8; 271]
        ensures bytes { result ≡ behind_gate self.now.seq self.now.bytes }
        ensures len { length result ≡ 271 }
    {
        let mut behind = [0; 271];
        behind[7..15].copy_from_slice(&self.seq.to_le_bytes());
        behind[15..271].copy_from_slice(&self.bytes);
        behind
    }
}
