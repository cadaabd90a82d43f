//! Pages: two slots take turns, and a stop leaves the old page or the new one.
ghost use Rattle.std.specs.Prelude.{◌≡◌, ◌+◌, ◌*◌, ◌≤◌, length, IfOk};
ghost use Rattle.lc_disk.specs.MemArea.{memory_now};

use crate::expect::equal;
use lc_disk::{Area, Choice, MemArea, Stoppable};
use lc_page::{Begun, PageFault, PageVector, PageWrite, Slot, Writing, page_bytes, read_page};
use std::alloc::Global;
use std::test::Fail;

const AREA_BYTES: usize = 1088;

// Two pages, of which the second has number 7 in its first slot and number 9 in its second, as many as these slots.
fn two_pages(slots: u8) -> [u8; AREA_BYTES] {
    let mut bytes = [0; AREA_BYTES];
    if slots > 0 {
        bytes[544] = 0xa5;
        bytes[552] = 7;
        bytes[560..816].fill(0x77);
    }
    if slots > 1 {
        bytes[816] = 0xa5;
        bytes[824] = 9;
        bytes[832..].fill(0x99);
    }
    bytes
}

// A write of the second of these pages under this number.
fn begun(
    alloc: Global,
    bytes: &[u8; AREA_BYTES],
    seq: u8,
) -> Result<Result<PageWrite<Begun>, PageFault>, Fail>
    ensures { IfOk result (λ begun. IfOk begun (λ w. w.draft.page ≡ 1)) }
{
    let pages = PageVector::new(alloc, &[read_page(bytes, 0), read_page(bytes, 1)])?;
    if pages.len() != 2 {
        return Err(Fail::from("there are two pages"));
    }
    Ok(PageWrite::begin(&pages, 1, &[0xaa; 256], u64::from(seq)))
}

// The first calls of a write, so many of them.
fn make_calls<D: Area>(area: &mut D, write: PageWrite<Begun>, calls: u8) -> Result<(), PageFault>
    requires { (2 * write.draft.page + 2) * 272 ≤ length (D.now area.old) }
    ensures { length (D.now area.new) ≡ length (D.now area.old) }
{
    let mut writing = Writing::begin(write, area)?;
    for _ in 1..calls {
        match writing.step(area)? {
            Some(next) => writing = next,
            None => return Ok(()),
        }
    }
    Ok(())
}

// What a stop leaves after so many calls of a write under this number, over the pages with so many slots.
fn left(alloc: Global, slots: u8, seq: u8, calls: u8, choice: Choice) -> Result<MemArea, Fail>
    ensures { IfOk result (λ area. length (memory_now area) ≡ 1088) }
{
    let bytes = two_pages(slots);
    let mut area = MemArea::from_bytes(alloc, &bytes)?;
    make_calls(&mut area, begun(alloc, &bytes, seq)??, calls)?;
    area.stop(&[choice]);
    Ok(area)
}

// How many slots there are, the number of a write, how many calls it makes, and which positions are dirty then: the
// first of them, and how many. The first slot begins at 544, and the second at 816.
static DIRTY: [(u8, u8, u8, Option<usize>, usize); 6] = [
    (0, 7, 1, None, 0),
    (0, 7, 3, Some(545), 271),
    (0, 7, 5, Some(544), 1),
    (1, 9, 1, None, 0),
    (1, 9, 5, Some(816), 1),
    (2, 10, 1, Some(544), 1),
];

// The first of these bytes that is 238, and how many are.
fn chosen(bytes: &[u8]) -> (Option<usize>, usize) {
    let mut first = None;
    let mut count = 0usize;
    for (i, byte) in bytes.iter().enumerate() {
        if *byte == 0xee {
            first = first.or(Some(i));
            count = count.wrapping_add(1);
        }
    }
    (first, count)
}

#[test]
fn a_write_makes_the_free_slot_dirty(rt: HostRuntime) -> Result<(), Fail> {
    for (slots, seq, calls, first, count) in &DIRTY {
        let area = left(rt.alloc(), *slots, *seq, *calls, Choice::Byte(0xee))?;
        equal(
            &rt,
            &format_args!("number {seq}, {calls} calls: first and count"),
            &chosen(area.bytes()),
            &(*first, *count),
        );
    }
    Ok(())
}

// The number and the first byte of the second page, and whether it stands in the second slot.
fn second_page(area: &MemArea) -> (u64, u8, bool)
    requires { length (memory_now area.now) ≡ 1088 }
{
    let bytes = area.bytes();
    let text = read_page(bytes, 1);
    let is_second = text.slot == Some(Slot::Second);
    (text.seq, page_bytes(bytes, 1)[0], is_second)
}

#[test]
fn numbers_go_to_the_free_slot_and_rise(rt: HostRuntime) -> Result<(), Fail> {
    let alloc = rt.alloc();
    let seventh = left(alloc, 0, 7, 6, Choice::Stable)?;
    equal(&rt, &"number 7", &second_page(&seventh), &(7, 0xaa, false));
    let ninth = left(alloc, 1, 9, 6, Choice::Stable)?;
    equal(&rt, &"number 9", &second_page(&ninth), &(9, 0xaa, true));
    let again = begun(alloc, &two_pages(2), 9)?.err();
    equal(&rt, &"number 9 again", &again, &Some(PageFault::NotNewer));
    Ok(())
}

static CHOICES: [Choice; 4] = [
    Choice::Keep,
    Choice::Stable,
    Choice::Byte(0),
    Choice::Byte(0xa5),
];

// How many calls of a write of number 10 over number 9 are made, and whether the page is the new one after a stop with
// each of these choices.
static LEFT: [(u8, [bool; 4]); 6] = [
    (1, [false; 4]),
    (2, [false; 4]),
    (3, [false; 4]),
    (4, [false; 4]),
    (5, [true, false, false, true]),
    (6, [true; 4]),
];

const OLD: (u64, u8, bool) = (9, 0x99, true);

const NEW: (u64, u8, bool) = (10, 0xaa, false);

#[test]
fn a_stop_leaves_the_old_page_or_the_new_one(rt: HostRuntime) -> Result<(), Fail> {
    for (calls, are_new) in &LEFT {
        for (number, choice) in CHOICES.iter().enumerate() {
            let area = left(rt.alloc(), 2, 10, *calls, *choice)?;
            let is_new = are_new.get(number) == Some(&true);
            let wanted = if is_new { NEW } else { OLD };
            let row = format_args!("{calls} calls, choice {number}");
            equal(&rt, &row, &second_page(&area), &wanted);
        }
    }
    Ok(())
}
