//! Ranges that were set, the bytes that stood there, and the parts that are applied.
ghost use Rattle.std.specs.Prelude.{IfOk};
ghost use Rattle.lc_range.specs.Undo.{LiesBelow};

use crate::expect::equal;
use lc_applied::AppliedParts;
use lc_range::{Range, RangeFault, RangeSet, Undo};
use lc_tx::Image;
use std::alloc::{AllocError, Global};
use std::test::Fail;

#[test]
fn sixty_four_ranges_are_taken(rt: HostRuntime) -> Result<(), Fail> {
    let mut set = RangeSet::new(rt.alloc());
    for i in 0..64 {
        set.add(1, 256, 2 * i, 1)?;
    }
    equal(&rt, &"the ranges", &set.ranges().len(), &64);
    let fault = set.add(1, 256, 200, 1);
    equal(&rt, &"at 200", &fault, &Err(RangeFault::TooManyRanges));
    set.add(1, 256, 1, 1)?;
    equal(&rt, &"the ranges then", &set.ranges().len(), &63);
    assert!(rt; set.covers(1, 0, 3) && !set.covers(1, 0, 4));
    Ok(())
}

// Five bytes from 2 on of these eight.
fn five_kept(alloc: Global) -> Result<Undo, AllocError>
    ensures { IfOk result (λ undo. LiesBelow undo 1 8) }
{
    let mut undo = Undo::new(alloc);
    undo.keep_old(&RangeSet::new(alloc), 1, 2, 5, &[1, 2, 3, 4, 5, 6, 7, 8])?;
    Ok(undo)
}

#[test]
fn old_bytes_come_back(rt: HostRuntime) -> Result<(), Fail> {
    let undo = five_kept(rt.alloc())?;
    equal(
        &rt,
        &"copies and bytes",
        &(undo.copies(), undo.len()),
        &(1, 5),
    );
    let mut later = [9; 8];
    undo.restore(1, &mut later);
    equal(&rt, &"the bytes", &later, &[9, 9, 3, 4, 5, 6, 7, 9]);
    Ok(())
}

static RUNS: [Range; 3] = [
    Range {
        segment: 1,
        offset: 1,
        len: 3,
    },
    Range {
        segment: 2,
        offset: 0,
        len: 2,
    },
    Range {
        segment: 1,
        offset: 6,
        len: 2,
    },
];

#[test]
fn parts_are_laid_in_their_order(rt: HostRuntime) -> Result<(), Fail> {
    let mut image = Image::new(Vec::from_slice(rt.alloc(), b"........")?);
    let mut parts = AppliedParts::new(rt.alloc());
    parts.reserve_runs(1, &RUNS)?;
    parts.push_runs(1, 1, &RUNS, b"abcdefgh");
    parts.reserve_runs(1, &RUNS[..1])?;
    parts.push_runs(1, 2, &RUNS[..1], b"ABCDEFGH");
    parts.lay_on(&mut image);
    assert!(rt; image.bytes() == b".BCD..gh".as_slice());
    Ok(())
}
