//! Areas over files.
ghost use Rattle.std.specs.Prelude.{◌≤◌, length};

use crate::expect::equal;
use crate::fake_file::{FakeFile, FakeFolder, Manner};
use lc_disk::{Area, DeviceFault, FileArea, OpenFault};
use std::alloc::Global;
use std::process::Abort;
use std::test::Fail;

// Eight zeros in a file whose calls go so.
fn eight_bytes(alloc: Global, manner: Manner) -> Result<FileArea<FakeFile>, OpenFault> {
    FileArea::open(alloc, &FakeFolder { manner }, "area")
}

static FOUR_OF_EIGHT: [u8; 8] = [0, 0, 0, 1, 2, 3, 4, 0];

// Writes four bytes, and reads all eight.
fn four_are_read<D: Area>(rt: &impl Abort, area: &mut D) -> Result<(), DeviceFault>
    requires { 8 ≤ length (D.now area.old) }
{
    area.write_at(3, &[1, 2, 3, 4])?;
    let mut bytes = [9; 8];
    area.read(0, &mut bytes)?;
    equal(rt, &"the eight bytes", &bytes, &FOUR_OF_EIGHT);
    Ok(())
}

#[test]
fn short_and_interrupted_calls_go_on(rt: HostRuntime) -> Result<(), Fail> {
    let mut area = eight_bytes(rt.alloc(), Manner::Slow)?;
    assert!(rt; area.len() == 8);
    four_are_read(&rt, &mut area)?;
    assert!(rt; area.faults() == 0);
    Ok(())
}

// How many of these calls failed.
fn count(failed: [bool; 4]) -> u64 {
    let mut count = 0u64;
    for it in failed {
        count = count.wrapping_add(u64::from(it));
    }
    count
}

// What fails of a write, a sync, a read and a write.
fn four_calls<D: Area>(area: &mut D) -> [bool; 4]
    requires { 8 ≤ length (D.now area.old) }
{
    [
        area.write_at(0, &[7]).is_err(),
        area.sync().is_err(),
        area.read(0, &mut [9; 8]).is_err(),
        area.write_at(0, &[8]).is_err(),
    ]
}

// After a write or a sync that failed no call is made, and each is a fault; after a read that failed they go on.
const OF_FOUR: [(u32, [bool; 4]); 4] = [
    (1, [true, true, true, true]),
    (2, [false, true, true, true]),
    (3, [false, false, true, false]),
    (4, [false, false, false, true]),
];

#[test]
fn each_failing_call_is_counted(rt: HostRuntime) -> Result<(), Fail> {
    for (failing, want) in &OF_FOUR {
        let mut area = eight_bytes(rt.alloc(), Manner::Fails(*failing))?;
        let len = area.len();
        assert!(rt; len == 8, "call {failing}: {len}, where 8 is wanted");
        let failed = four_calls(&mut area);
        equal(
            &rt,
            failing,
            &(failed, area.faults()),
            &(*want, count(failed)),
        );
    }
    Ok(())
}

#[test]
fn a_file_that_ends_early_has_failed(rt: HostRuntime) -> Result<(), Fail> {
    let mut area = eight_bytes(rt.alloc(), Manner::Ends)?;
    assert!(rt; area.len() == 8);
    assert!(rt; area.read(0, &mut [9; 8]).is_err() && area.write_at(0, &[1]).is_err());
    equal(&rt, &"the faults", &area.faults(), &2);
    Ok(())
}
