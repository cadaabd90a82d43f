//! A page write: six calls of the device, one from each state to the next.
ghost use Rattle.std.specs.Prelude.{◌≡◌, ◌+◌, ◌*◌, ◌<◌, ◌≤◌, ◌^◌, ◌↔◌, ℕ, true, false, [], ◌∷◌, length, is_ok, IsOk};
ghost use Rattle.std.specs.Prelude.{IfOk, IfErr, OnOk, OnErr};
ghost use Rattle.lc_page.specs.declared.page_text.PageText.{PageText};
ghost use Rattle.lc_page.specs.Slot.{next_slot};
ghost use Rattle.lc_page.specs.Page.{Page, slot_at, page_in};
ghost use Rattle.lc_page.specs.PageVector.{entry_at, entry_text, settled_text};
ghost use Rattle.lc_page.specs.PageWrite.{IsBegun, drafted, closing_bytes, behind_gate, Writes, Syncs, SettledIn};
ghost use Rattle.lc_page.specs.PageWrite.{ClosingIn, ClosedIn, FillingIn, FilledIn, OpeningIn, HasPage, IsEither};

use crate::limits::{GATE_CLOSED, GATE_OPEN};
use crate::{Draft, PageFault, PageVector};
use lc_disk::Area;

/// A write of a page, in one of six states. Each state has one call of the device, which leads to the next; a fault
/// ends the write. Other pages of the area may be written between the calls. The page is written beside the present
/// one, behind a closed gate, and the gate is opened last: this project's own, after the order of log and data of RVM
/// (Satyanarayanan et al., TOCS 1994).
#[derive(Drop)]
pub struct PageWrite<State> {
    draft: Draft,
    state: State,
}

/// Nothing is written yet.
#[derive(Clone, Copy)]
pub struct Begun {
    // Whether the gate of the free slot reads as open.
    gate: bool,
}

/// The gate of the free slot is closed.
#[derive(Clone, Copy)]
pub struct ClosingGate;

/// The gate of the free slot stays closed.
#[derive(Clone, Copy)]
pub struct Closed;

/// The page stands behind the closed gate.
#[derive(Clone, Copy)]
pub struct Filling;

/// The page stays behind the closed gate.
#[derive(Clone, Copy)]
pub struct Filled;

/// The gate is open.
#[derive(Clone, Copy)]
pub struct OpeningGate;

impl<State> PageWrite<State> {
    /// What is written, and where.
    pub fn draft(&self) -> &Draft
        ensures { result.now ≡ self.now.draft }
    {
        &self.draft
    }
}

impl PageWrite<Begun> {
    /// Begins to write a page under a number, with a copy of its bytes. The number is at most 2^60: `is_sequence` tests
    /// it. Refused where the page has uncommitted references, and then where the number is not above the page's
    /// sequence.
    pub fn begin(
        vector: &PageVector,
        page: u32,
        bytes: &[u8; 256],
        seq: u64,
    ) -> Result<PageWrite<Begun>, PageFault>
        requires page { page < length vector.now }
        requires seq { seq ≤ 2 ^ 60 }
        ensures uncommitted { (result ≡ Err PageFault.Uncommitted) ↔ (0 < (entry_at vector.now page).uncommitted) }
        ensures not_newer { (result ≡ Err PageFault.NotNewer)
            ↔ (((entry_at vector.now page).uncommitted ≡ 0) × (seq ≤ (entry_at vector.now page).stable)) }
        ensures done { IsOk result
            ↔ (((entry_at vector.now page).uncommitted ≡ 0) × ((entry_at vector.now page).stable < seq)) }
        ensures draft { IfOk result (λ w. w.draft
            ≡ record { page = page; slot = next_slot (entry_at vector.now page).slot; seq = seq; bytes = bytes.now }) }
        ensures begun { IfOk result (λ w. IsBegun w.draft w.state.gate (entry_text (entry_at vector.now page))) }
    {
        let entry = vector.entry(page);
        if entry.uncommitted > 0 {
            return Err(PageFault::Uncommitted);
        }
        if seq <= entry.stable {
            return Err(PageFault::NotNewer);
        }
        let slot = entry.next_slot();
        let gate = entry.gates[slot.number()];
        let draft = Draft {
            page,
            slot,
            seq,
            bytes: *bytes,
        };
        Ok(PageWrite {
            draft,
            state: Begun { gate },
        })
    }

    /// The first call: closes the gate of the free slot. Where it reads as closed the write has no bytes.
    pub fn close_gate<D: Area>(self, area: &mut D) -> Result<PageWrite<ClosingGate>, PageFault>
        requires { (2 * self.draft.page + 2) * 272 ≤ length (D.now area.old) }
        ensures draft { IfOk result (λ w. w.draft ≡ self.draft) }

        ensures closing { OnOk result ((text : PageText) → IsBegun self.draft self.state.gate text
            → SettledIn D.Area area.old self.draft.page text
            → ClosingIn D.Area area.new self.draft text (page_in (D.now area.old) self.draft.page)) }

        // After a fault too.
        ensures page { (text : PageText) → IsBegun self.draft self.state.gate text
            → SettledIn D.Area area.old self.draft.page text
            → HasPage D.Area area.new self.draft.page (λ page. page ≡ page_in (D.now area.old) self.draft.page) }

        // A closed gate is not closed again.
        ensures nothing { self.state.gate ≡ false → D.honest area.old ≡ true
            → (k : ℕ) → D.dirty area.new k ≡ D.dirty area.old k }

        ensures call { Writes D.Area self.draft.page (slot_at self.draft.page self.draft.slot)
            (closing_bytes self.state.gate)
            area.old area.new (is_ok result) }
        ensures fault { IfErr result (λ f. f ≡ PageFault.DeviceFault) }
    {
        let PageWrite { draft, state } = self;
        let gate: &[u8] = if state.gate { &[GATE_CLOSED] } else { &[] };
        match area.write_at(draft.place(), gate) {
            Ok(()) => Ok(PageWrite {
                draft,
                state: ClosingGate,
            }),
            Err(_) => Err(PageFault::DeviceFault),
        }
    }
}

impl PageWrite<ClosingGate> {
    /// The second call: makes the closed gate stable.
    pub fn sync_closed<D: Area>(self, area: &mut D) -> Result<PageWrite<Closed>, PageFault>
        ensures draft { IfOk result (λ w. w.draft ≡ self.draft) }

        ensures closed { OnOk result ((text : PageText) (old : Page) → ClosingIn D.Area area.old self.draft text old
            → ClosedIn D.Area area.new self.draft text old) }

        // After a fault too.
        ensures page { (text : PageText) (old : Page) → ClosingIn D.Area area.old self.draft text old
            → HasPage D.Area area.new self.draft.page (λ page. page ≡ old) }

        ensures call { Syncs D.Area area.old area.new (is_ok result) }
        ensures fault { IfErr result (λ f. f ≡ PageFault.DeviceFault) }
    {
        let PageWrite { draft, state: _ } = self;
        let closed = area.sync();
        match closed {
            Ok(()) => Ok(PageWrite {
                draft,
                state: Closed,
            }),
            Err(_) => Err(PageFault::DeviceFault),
        }
    }
}

impl PageWrite<Closed> {
    /// The third call: writes zeros, the sequence and the page behind the closed gate.
    pub fn fill<D: Area>(self, area: &mut D) -> Result<PageWrite<Filling>, PageFault>
        requires { (2 * self.draft.page + 2) * 272 ≤ length (D.now area.old) }
        ensures draft { IfOk result (λ w. w.draft ≡ self.draft) }

        ensures filling { OnOk result ((text : PageText) (old : Page) → ClosedIn D.Area area.old self.draft text old
            → FillingIn D.Area area.new self.draft text old) }

        // After a fault too.
        ensures page { (text : PageText) (old : Page) → ClosedIn D.Area area.old self.draft text old
            → HasPage D.Area area.new self.draft.page (λ page. page ≡ old) }

        ensures call { Writes D.Area self.draft.page (slot_at self.draft.page self.draft.slot + 1)
            (behind_gate self.draft.seq self.draft.bytes) area.old area.new (is_ok result) }
        ensures fault { IfErr result (λ f. f ≡ PageFault.DeviceFault) }
    {
        let PageWrite { draft, state: _ } = self;
        match area.write_at(draft.place() + 1, &draft.behind_gate()) {
            Ok(()) => Ok(PageWrite {
                draft,
                state: Filling,
            }),
            Err(_) => Err(PageFault::DeviceFault),
        }
    }
}

impl PageWrite<Filling> {
    /// The fourth call: makes the page behind the closed gate stable.
    pub fn sync_filled<D: Area>(self, area: &mut D) -> Result<PageWrite<Filled>, PageFault>
        ensures draft { IfOk result (λ w. w.draft ≡ self.draft) }

        ensures filled { OnOk result ((text : PageText) (old : Page) → FillingIn D.Area area.old self.draft text old
            → FilledIn D.Area area.new self.draft text old) }

        // After a fault too.
        ensures page { (text : PageText) (old : Page) → FillingIn D.Area area.old self.draft text old
            → HasPage D.Area area.new self.draft.page (λ page. page ≡ old) }

        ensures call { Syncs D.Area area.old area.new (is_ok result) }
        ensures fault { IfErr result (λ f. f ≡ PageFault.DeviceFault) }
    {
        let PageWrite { draft, state: _ } = self;
        let filled = area.sync();
        match filled {
            Ok(()) => Ok(PageWrite {
                draft,
                state: Filled,
            }),
            Err(_) => Err(PageFault::DeviceFault),
        }
    }
}

impl PageWrite<Filled> {
    /// The fifth call: opens the gate.
    pub fn open_gate<D: Area>(self, area: &mut D) -> Result<PageWrite<OpeningGate>, PageFault>
        requires { (2 * self.draft.page + 2) * 272 ≤ length (D.now area.old) }
        ensures draft { IfOk result (λ w. w.draft ≡ self.draft) }

        ensures opening { OnOk result ((text : PageText) (old : Page) → FilledIn D.Area area.old self.draft text old
            → OpeningIn D.Area area.new self.draft text old) }

        // After a fault too.
        ensures page { (text : PageText) (old : Page) → FilledIn D.Area area.old self.draft text old
            → HasPage D.Area area.new self.draft.page (IsEither old (drafted self.draft)) }

        ensures call { Writes D.Area self.draft.page (slot_at self.draft.page self.draft.slot) (165 ∷ [])
            area.old area.new (is_ok result) }
        ensures fault { IfErr result (λ f. f ≡ PageFault.DeviceFault) }
    {
        let PageWrite { draft, state: _ } = self;
        match area.write_at(draft.place(), &[GATE_OPEN]) {
            Ok(()) => Ok(PageWrite {
                draft,
                state: OpeningGate,
            }),
            Err(_) => Err(PageFault::DeviceFault),
        }
    }
}

impl PageWrite<OpeningGate> {
    /// The sixth call: makes the open gate stable, and so the page. `PageVector::settle` notes it.
    pub fn sync_open<D: Area>(self, area: &mut D) -> Result<(), PageFault>
        requires { (2 * self.draft.page + 2) * 272 ≤ length (D.now area.old) }

        ensures settled { OnOk result ((text : PageText) (old : Page) → OpeningIn D.Area area.old self.draft text old
            → SettledIn D.Area area.new self.draft.page (settled_text text self.draft.seq)) }

        ensures page { OnOk result ((text : PageText) (old : Page) → OpeningIn D.Area area.old self.draft text old
            → HasPage D.Area area.new self.draft.page (λ page. page ≡ drafted self.draft)) }

        ensures failed { OnErr result ((text : PageText) (old : Page) → OpeningIn D.Area area.old self.draft text old
            → HasPage D.Area area.new self.draft.page (IsEither old (drafted self.draft))) }

        ensures call { Syncs D.Area area.old area.new (is_ok result) }
        ensures fault { IfErr result (λ f. f ≡ PageFault.DeviceFault) }
    {
        match area.sync() {
            Ok(()) => Ok(()),
            Err(_) => Err(PageFault::DeviceFault),
        }
    }
}
