//! The dirty pages of a segment are written.
ghost use Rattle.std.specs.Prelude.{◌≡◌, ◌≢◌, ◌+◌, ◌*◌, ◌≤◌, ◌<◌, ◌^◌, ℕ, List, true, [], IfOk, IfErr, OnErr, OnOk};
ghost use Rattle.std.specs.Prelude.{IsSomeAnd, length, is_ok};
ghost use Rattle.std.specs.Option.{ForSome};
ghost use Rattle.std.specs.VecDeque.{deque_capacity};
ghost use Rattle.lc_segments.specs.Pages.{AreWritten, FitsToken, HaveBytes};
ghost use Rattle.lc_segments.specs.Writes.{AreOver, AreUnderWay, HaveRoom, IsWriteOf};
ghost use Rattle.lc_page.specs.PageVector.{entry_at, entry_text, is_dirty};
ghost use Rattle.lc_page.specs.PageWrite.{Continues, KeepsPage, SettledIn};
ghost use Rattle.lc_page.specs.Writing.{draft_of};
ghost use Rattle.lc_page.specs.declared.fault.PageFault.TheVariants.{DeviceFault};
ghost use Rattle.lc_token.specs.declared.token.Token.{Token as TheToken};

use lc_disk::Area;
use lc_page::{PAGE_BYTES, PageFault, PageWrite, Writing};
use lc_token::{Token, TokenPlace};
use std::collections::VecDeque;

/// Writes each dirty page of a segment, whose bytes these are and whose token stands here, under the token's number,
/// and the token notes it; the other pages stay as they are. Each page makes its call number i before any makes the
/// next, so that of the syncs with one number the first makes all pages stable. `writes` is empty, with room for a
/// write of each page. It takes no memory.
pub(crate) fn write_dirty<D: Area>(
    area: &mut D,
    place: &mut TokenPlace,
    bytes: &[u8],
    writes: &mut VecDeque<Writing>,
) -> Result<(), PageFault>
    requires fits { IsSomeAnd place.old.token (λ t. (since : ℕ) × FitsToken D.Area since area.old t bytes.now) }
    requires none { writes.old.items ≡ [] }
    requires room { ForSome place.old.token (λ t. length t.pages ≤ deque_capacity writes.old) }
    ensures written { OnOk result (ForSome place.old.token (λ t. IsSomeAnd place.new.token (AreWritten t))) }
    ensures fits { OnOk result ((since : ℕ)
        → IsSomeAnd place.old.token (λ t. FitsToken D.Area since area.old t bytes.now)
        → IsSomeAnd place.new.token (λ t. FitsToken D.Area since area.new t bytes.now)) }
    ensures wrote { OnOk result (ForSome place.old.token (λ t. HaveBytes D.Area area.new t bytes.now)) }
    ensures segment { place.new.segment ≡ place.old.segment }
    ensures none { writes.new.items ≡ [] }
    ensures room { deque_capacity writes.old ≤ deque_capacity writes.new }
    ensures refused { IfErr result (λ fault. (fault ≡ DeviceFault) × (D.failures area.new ≡ D.failures area.old + 1)) }
    ensures same { OnErr result (place.new ≡ place.old) }
{
    let Some(token) = place.token() else {
        unreachable!()
    };
    let written = write_pages(area, token, bytes, writes);
    writes.clear();
    written?;
    note_written(place);
    Ok(())
}

// Writes each dirty page. After a fault some writes may be left.
fn write_pages<D: Area>(
    area: &mut D,
    token: &Token,
    bytes: &[u8],
    writes: &mut VecDeque<Writing>,
) -> Result<(), PageFault>
    requires fits { (since : ℕ) × FitsToken D.Area since area.old token.now bytes.now }
    requires none { writes.old.items ≡ [] }
    requires room { length token.now.pages ≤ deque_capacity writes.old }
    ensures over { OnOk result ((since : ℕ) → FitsToken D.Area since area.old token.now bytes.now
        → AreOver D.Area since area.new token.now bytes.now) }
    ensures room { deque_capacity writes.new ≡ deque_capacity writes.old }
    ensures fault { IfErr result (λ fault. (fault ≡ DeviceFault) × (D.failures area.new ≡ D.failures area.old + 1)) }
{
    begin_all(area, token, bytes, writes)?;
    finish_all(area, writes)
}

// Each dirty page makes its first call.
fn begin_all<D: Area>(
    area: &mut D,
    token: &Token,
    bytes: &[u8],
    writes: &mut VecDeque<Writing>,
) -> Result<(), PageFault>
    requires fits { (since : ℕ) × FitsToken D.Area since area.old token.now bytes.now }
    requires none { writes.old.items ≡ [] }
    requires room { length token.now.pages ≤ deque_capacity writes.old }
    ensures under_way { OnOk result ((since : ℕ) → FitsToken D.Area since area.old token.now bytes.now
        → AreUnderWay D.Area since area.new token.now bytes.now (length token.now.pages) writes.new.items) }
    ensures room { deque_capacity writes.new ≡ deque_capacity writes.old }
    ensures counted { OnOk result (D.failures area.new ≡ D.failures area.old) }
    ensures fault { IfErr result (λ fault. (fault ≡ DeviceFault) × (D.failures area.new ≡ D.failures area.old + 1)) }
{
    let pages = token.pages();
    for page in 0..pages.len() as u32 {
        if pages.dirty(page) {
            let write = begin_page(area, token, bytes, page)?;
            writes.push_back_reserved(write);
        }
    }
    Ok(())
}

// A dirty page makes its first call.
fn begin_page<D: Area>(
    area: &mut D,
    token: &Token,
    bytes: &[u8],
    page: u32,
) -> Result<Writing, PageFault>
    requires page { page < length token.now.pages }
    requires dirty { is_dirty (entry_at token.now.pages page) ≡ true }
    requires free { (entry_at token.now.pages page).uncommitted ≡ 0 }
    requires touched { (entry_at token.now.pages page).touched ≤ token.now.seq }
    requires small { token.now.seq ≤ 2 ^ 60 }
    requires long { length bytes.now ≡ length token.now.pages * 256 }
    requires room { length token.now.pages * 544 ≤ length (D.now area.old) }
    requires settled { SettledIn D.Area area.old page (entry_text (entry_at token.now.pages page)) }
    ensures page { IfOk result (λ write. (draft_of write).page ≡ page) }
    ensures under_way { IfOk result (IsWriteOf D.Area area.new token.now bytes.now (page + 1)) }
    ensures device { Continues D.Area area.old area.new (is_ok result) }
    ensures others { (other : ℕ) → other ≢ page → KeepsPage D.Area other area.old area.new }
    ensures fault { IfErr result (λ fault. fault ≡ DeviceFault) }
{
    let start = page as usize * PAGE_BYTES;
    let mut content = [0; PAGE_BYTES];
    content.copy_from_slice(&bytes[start..start + PAGE_BYTES]);
    let Ok(write) = PageWrite::begin(token.pages(), page, &content, token.seq()) else {
        unreachable!()
    };
    Writing::begin(write, area)
}

// They make their other calls, in turn. After a fault some writes may be left.
fn finish_all<D: Area>(area: &mut D, writes: &mut VecDeque<Writing>) -> Result<(), PageFault>
    requires { HaveRoom D.Area area.old writes.old.items }
    ensures over { OnOk result ((since : ℕ) (token : TheToken) (bytes : List ℕ)
        → AreUnderWay D.Area since area.old token bytes (length token.pages) writes.old.items
        → AreOver D.Area since area.new token bytes) }
    ensures room { deque_capacity writes.new ≡ deque_capacity writes.old }
    ensures fault { IfErr result (λ fault. (fault ≡ DeviceFault) × (D.failures area.new ≡ D.failures area.old + 1)) }
{
    while let Some(write) = writes.pop_front() {
        if let Some(next) = write.step(area)? {
            writes.push_back_reserved(next);
        }
    }
    Ok(())
}

// The token that stands here notes that each of its dirty pages is written.
fn note_written(place: &mut TokenPlace)
    requires few { IsSomeAnd place.old.token (λ t. length t.pages ≤ 1024) }
    requires stable { ForSome place.old.token (λ t. (page : ℕ) → page < length t.pages
        → (entry_at t.pages page).stable ≤ t.seq) }
    requires touched { ForSome place.old.token (λ t. (page : ℕ) → page < length t.pages
        → (entry_at t.pages page).touched ≤ t.seq) }
    ensures written { ForSome place.old.token (λ t. IsSomeAnd place.new.token (AreWritten t)) }
    ensures segment { place.new.segment ≡ place.old.segment }
{
    let Some(token) = place.token() else {
        unreachable!()
    };
    let seq = token.seq();
    for page in 0..token.pages().len() as u32 {
        if is_dirty(place, page) {
            place.written(page, seq);
        }
    }
}

// Whether a page of the token that stands here is dirty.
fn is_dirty(place: &TokenPlace, page: u32) -> bool
    requires { IsSomeAnd place.now.token (λ t. page < length t.pages) }
    ensures { ForSome place.now.token (λ t. result ≡ is_dirty (entry_at t.pages page)) }
{
    let Some(token) = place.token() else {
        unreachable!()
    };
    token.pages().dirty(page)
}
