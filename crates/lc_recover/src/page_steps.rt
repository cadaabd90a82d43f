//! The steps that write pages.
ghost use Rattle.std.specs.Prelude.{◌≡◌, ◌≢◌, ◌∷◌, drop, ◌+◌, ◌*◌, ◌<◌, ◌≤◌, ℕ, Some, None, IfOk, OnOk, length, is_ok};
ghost use Rattle.std.specs.Prelude.{true, false, slice_get, slice_index_or};
ghost use Rattle.lc_log.specs.OneCall.{IsOneCall};
ghost use Rattle.lc_page.specs.Page.{Page, page_in};
ghost use Rattle.lc_page.specs.PageVector.{entry_at, entry_text};
ghost use Rattle.lc_page.specs.PageWrite.{SettledIn, HasPage, KeepsPage, IsEither, drafted};
ghost use Rattle.lc_page.specs.declared.page_text.PageText.{PageText};
ghost use Rattle.lc_page.specs.Writing.{calls_of, draft_of, IsNextOf, IsUnderWay, GoesOn};
ghost use Rattle.lc_recover.specs.Page.{page_of, pages_of};
ghost use Rattle.lc_recover.specs.Reads.{AreHonest};
ghost use Rattle.lc_recover.specs.Recovery.{recovering, Renews};
ghost use Rattle.lc_recover.specs.Shows.{ShowPages};
ghost use Rattle.lc_recover.specs.RecoveryPhase.{AreasFit, Fits, OneCall, IsWriting, IsDraft, IsNext, IsSettledPage};
ghost use Rattle.lc_recover.specs.Steps.{writes_done, all_pages};
ghost use Rattle.lc_recover.specs.declared.redo_range.RedoRange.{RedoRange};
ghost use Rattle.lc_recover.specs.declared.segment_pages.SegmentPages.{SegmentPages};
ghost use Rattle.lc_recover.specs.declared.recovery_phase.RecoveryPhase.{RecoveryPhase};

use crate::page::{first_page, put_changes};
use crate::page_writes::PageWrites;
use lc_disk::{Area, DeviceFault};
use lc_page::{Draft, PAGE_BYTES, PageFault, PageWrite, Writing};
use lc_record::Geometry;

/// Makes the next device call: the first of the next page, or the next one of the page that is being written. After the
/// last one its bytes take the place of those before.
pub(crate) fn write_next<D: Area>(
    geometry: &Geometry,
    areas: &mut [D],
    writes: &mut PageWrites,
) -> Result<(), DeviceFault>
    requires fits { Fits D.Area geometry.now (RecoveryPhase.Writing writes.old) areas.old }
    requires left { writes.old.next < length writes.old.merged.changes.items }
    ensures fits { OnOk result (Fits D.Area geometry.now (RecoveryPhase.Writing writes.new) areas.new) }
    ensures areas { AreasFit D.Area geometry.now (RecoveryPhase.Syncing 0) areas.new }
    ensures call { (place : ℕ) × (geometry.now.nodes ≤ place)
        × OneCall D.Area place areas.old areas.new (is_ok result) }
    // After a fault too.
    ensures shows { (i : IsWriting geometry.now writes.old) → AreHonest D.Area areas.new
        → ShowPages D.Area geometry.now areas.new i.store i.content i.numbers }
    ensures steps { OnOk result (writes_done writes.new ≡ writes_done writes.old + 1) }
    ensures pages { OnOk result (all_pages writes.new ≡ all_pages writes.old) }
    ensures keeps { OnOk result (AreHonest D.Area areas.new
        → Renews D.Area (recovering geometry.now areas.old (RecoveryPhase.Writing writes.old))
        (recovering geometry.now areas.new (RecoveryPhase.Writing writes.new))) }
{
    let place = place_of(geometry, writes);
    match writes.current.take() {
        None => writes.current = Some(begin_next(geometry, areas, place, writes)?),
        Some(write) => go_on_next(geometry, areas, place, writes, write)?,
    }
    Ok(())
}

// Makes the first call of the next page.
fn begin_next<D: Area>(
    geometry: &Geometry,
    areas: &mut [D],
    place: usize,
    writes: &PageWrites,
) -> Result<Writing, DeviceFault>
    requires fits { Fits D.Area geometry.now (RecoveryPhase.Writing writes.now) areas.old }
    requires left { writes.now.next < length writes.now.merged.changes.items }
    requires none { writes.now.current ≡ None }
    requires within { place < length areas.old }
    requires here { (c : RedoRange) (pages : SegmentPages) → IsNext writes.now c pages
        → place + 1 ≡ geometry.now.nodes + c.segment }
    ensures fits { IfOk result (λ write.
        Fits D.Area geometry.now (RecoveryPhase.Writing (record writes.now { current = Some write })) areas.new) }
    ensures first { IfOk result (λ write. calls_of write ≡ 1) }
    ensures areas { AreasFit D.Area geometry.now (RecoveryPhase.Syncing 0) areas.new }
    ensures call { OneCall D.Area place areas.old areas.new (is_ok result) }
    // After a fault too.
    ensures shows { (i : IsWriting geometry.now writes.now) → AreHonest D.Area areas.new
        → ShowPages D.Area geometry.now areas.new i.store i.content i.numbers }
{
    begin_page(geometry, writes, &mut areas[place])
}

// Makes the next call of the page that is being written.
fn go_on_next<D: Area>(
    geometry: &Geometry,
    areas: &mut [D],
    place: usize,
    writes: &mut PageWrites,
    write: Writing,
) -> Result<(), DeviceFault>
    requires fits { Fits D.Area geometry.now
        (RecoveryPhase.Writing (record writes.old { current = Some write })) areas.old }
    requires left { writes.old.next < length writes.old.merged.changes.items }
    requires none { writes.old.current ≡ None }
    requires within { place < length areas.old }
    requires here { (c : RedoRange) (pages : SegmentPages) → IsNext writes.old c pages
        → place + 1 ≡ geometry.now.nodes + c.segment }
    ensures fits { OnOk result (Fits D.Area geometry.now (RecoveryPhase.Writing writes.new) areas.new) }
    ensures areas { AreasFit D.Area geometry.now (RecoveryPhase.Syncing 0) areas.new }
    ensures call { OneCall D.Area place areas.old areas.new (is_ok result) }
    // After a fault too.
    ensures shows { (i : IsWriting geometry.now (record writes.old { current = Some write }))
        → AreHonest D.Area areas.new
        → ShowPages D.Area geometry.now areas.new i.store i.content i.numbers }
    ensures steps { OnOk result (writes_done writes.new ≡ 6 * writes.old.written + calls_of write + 1) }
    ensures pages { OnOk result (all_pages writes.new ≡ all_pages writes.old) }
    ensures keeps { OnOk result (AreHonest D.Area areas.new
        → Renews D.Area (recovering geometry.now areas.old (RecoveryPhase.Writing writes.old))
        (recovering geometry.now areas.new (RecoveryPhase.Writing writes.new))) }
{
    let draft = *write.draft();
    writes.current = go_on(write, &mut areas[place])?;
    if writes.current.is_none() {
        settle_page(geometry, writes, &draft);
    }
    Ok(())
}

// Where the area of the next change stands.
fn place_of(geometry: &Geometry, writes: &PageWrites) -> usize
    requires sound { IsWriting geometry.now writes.now }
    requires left { writes.now.next < length writes.now.merged.changes.items }
    ensures { (c : RedoRange) (pages : SegmentPages) → IsNext writes.now c pages
        → result + 1 ≡ geometry.now.nodes + c.segment }
{
    geometry.nodes as usize + writes.merged.changes[writes.next].segment as usize - 1
}

// Makes the bytes of the next page, and the first call of its write.
fn begin_page<D: Area>(
    geometry: &Geometry,
    writes: &PageWrites,
    area: &mut D,
) -> Result<Writing, DeviceFault>
    requires sound { IsWriting geometry.now writes.now }
    requires left { writes.now.next < length writes.now.merged.changes.items }
    requires room { length (D.now area.old) ≡ 2 * 272 * geometry.now.pages }
    ensures drafted { IfOk result (λ write. (i : IsWriting geometry.now writes.now) (c : RedoRange)
        (pages : SegmentPages) → IsNext writes.now c pages
        → IsDraft i.content i.numbers c (draft_of write)) }
    ensures begun { IfOk result (λ write. (c : RedoRange) (pages : SegmentPages) → IsNext writes.now c pages
        → SettledIn D.Area area.old c.page (entry_text (entry_at pages.texts c.page))
        → IsUnderWay D.Area area.new write (entry_text (entry_at pages.texts c.page))
        (page_in (D.now area.old) c.page)) }
    ensures first { IfOk result (λ write. calls_of write ≡ 1) }
    // After a fault too.
    ensures page { (c : RedoRange) (pages : SegmentPages) → IsNext writes.now c pages
        → SettledIn D.Area area.old c.page (entry_text (entry_at pages.texts c.page))
        → HasPage D.Area area.new c.page (λ page. page ≡ page_in (D.now area.old) c.page) }
    ensures others { (c : RedoRange) (pages : SegmentPages) → IsNext writes.now c pages
        → (page : ℕ) → page ≢ c.page → KeepsPage D.Area page area.old area.new }
    ensures device { IsOneCall D.Area (is_ok result) area.old area.new }
    ensures bytes { D.honest area.new ≡ true → (at : ℕ) → slice_index_or (D.now area.new) at 0 < 256 }
{
    let changes = first_page(&writes.merged.changes[writes.next..]);
    let change = changes[0];
    let segment = change.segment as usize - 1;
    let pages = &writes.kept.segments[segment];
    let mut bytes = [0; PAGE_BYTES];
    bytes.copy_from_slice(pages.page(change.page));
    put_changes(&writes.kept.logs, changes, &mut bytes);
    let number = writes.merged.numbers[segment];
    match PageWrite::begin(&pages.texts, change.page, &bytes, number) {
        Ok(write) => match Writing::begin(write, area) {
            Ok(write) => Ok(write),
            Err(fault) => Err(device_fault(fault)),
        },
        Err(fault) => Err(device_fault(fault)),
    }
}

// Makes the next call of a page write.
fn go_on<D: Area>(write: Writing, area: &mut D) -> Result<Option<Writing>, DeviceFault>
    requires { (2 * (draft_of write).page + 2) * 272 ≤ length (D.now area.old) }
    ensures next { IfOk result (IsNextOf write) }
    ensures goes_on { IfOk result (λ next. (text : PageText) (old : Page) → IsUnderWay D.Area area.old write text old
        → GoesOn D.Area area.new (draft_of write) text old next) }
    ensures page { (text : PageText) (old : Page) → IsUnderWay D.Area area.old write text old
        → HasPage D.Area area.new (draft_of write).page (IsEither old (drafted (draft_of write))) }
    ensures others { (page : ℕ) → page ≢ (draft_of write).page → KeepsPage D.Area page area.old area.new }
    ensures device { IsOneCall D.Area (is_ok result) area.old area.new }
    ensures clean { OnOk result (calls_of write ≡ 5 → D.honest area.old ≡ true → (k : ℕ) → D.dirty area.new k ≡ false) }
    ensures bytes { D.honest area.new ≡ true → (at : ℕ) → slice_index_or (D.now area.new) at 0 < 256 }
{
    write.step(area).map_err(device_fault)
}

// Puts a page that was written in the place of the one before.
fn settle_page(geometry: &Geometry, writes: &mut PageWrites, draft: &Draft)
    requires left { writes.old.next < length writes.old.merged.changes.items }
    requires none { writes.old.current ≡ None }
    requires drafted { (i : IsWriting geometry.now writes.old)
        × ((c : RedoRange) (pages : SegmentPages) → IsNext writes.old c pages
        → IsDraft i.content i.numbers c draft.now) }
    ensures sound { IsWriting geometry.now writes.new }
    ensures settled { IsSettledPage writes.old writes.new draft.now }
    ensures pages { all_pages writes.new ≡ all_pages writes.old }
    ensures left { (c : RedoRange) → slice_get writes.old.merged.changes.items writes.old.next ≡ Some c
        → pages_of (drop writes.old.next writes.old.merged.changes.items)
        ≡ page_of c ∷ pages_of (drop writes.new.next writes.new.merged.changes.items) }
{
    let changes = first_page(&writes.merged.changes[writes.next..]);
    let segment = changes[0].segment as usize - 1;
    writes.kept.segments[segment].renew(draft.page, &draft.bytes, draft.seq);
    writes.next += changes.len();
    writes.written += 1;
}

fn device_fault(_fault: PageFault) -> DeviceFault {
    DeviceFault
}
