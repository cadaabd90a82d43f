//! What a recovery calls, and what is called after a call that failed, over a folder of files that list their calls;
//! and what is said on standard error.
use crate::expect::equal;
use lc_fixture::{FOLDER, Listed, Shelf, Trouble};
use lc_record::Geometry;
use lc_tool::{ErrorOutput, answer};
use lc_words::{Asked, RunStore, Size};
use std::alloc::Global;
use std::fmt::Display;
use std::process::Abort;
use std::test::*;

// The size of a store of one node: of one segment with one page, or with two, or of two such segments.
#[derive(Clone, Copy)]
enum Of {
    One,
    TwoPages,
    Four,
}

// What is asked; the first three of the store in the folder.
#[derive(Clone, Copy)]
enum Ask {
    Init(Of),
    Run(Of),
    Recover(Of),
    Help,
    Faulty,
    NotUnderstood,
}

// What is asked, what goes wrong, and what comes of it.
#[derive(Clone, Copy)]
struct Step {
    ask: Ask,
    trouble: Trouble,
    printed: &'static str,
    status: u8,
    // The last calls, which begin before the one that fails.
    calls: &'static str,
    // What is said on standard error.
    said: &'static str,
}

// A store is made, and nothing goes wrong.
const MADE: Step = Step {
    ask: Ask::Init(Of::One),
    trouble: Trouble::Nothing,
    printed: "",
    status: 0,
    calls: "",
    said: "",
};

// A commit on segment 1 that puts `hello` at byte 3, made stable.
const COMMIT: &str = "begin 0 0 1\nrange 0 0 1 3 5\nwrite 0 0 1 3 68656c6c6f\nend 0 0\nflush 0\n";

// A commit on the two pages of two segments.
const COMMIT_OF_FOUR: &str = "begin 0 0 1 2\nrange 0 0 2 256 1\nrange 0 0 2 0 1\n\
range 0 0 1 256 1\nrange 0 0 1 0 1\nend 0 0\nflush 0\n";

fn geometry_of(of: Of) -> Result<Geometry, Fail> {
    let (segments, pages) = match of {
        Of::One => (1, 1),
        Of::TwoPages => (1, 2),
        Of::Four => (2, 2),
    };
    Ok(Geometry::new(1, 1, segments, pages, 64).ok_or("it is a size of a store")?)
}

// What is asked for, and the script that is run.
fn asked_of(alloc: Global, ask: Ask) -> Result<(Asked, &'static str), Fail> {
    let folder = String::from_str(alloc, FOLDER)?;
    let asked = match ask {
        Ask::Init(of) => Asked::Init {
            folder,
            geometry: geometry_of(of)?,
        },
        Ask::Run(of) => Asked::Run {
            store: RunStore::InFolder {
                folder,
                size: Size::Given(geometry_of(of)?),
            },
            follow: false,
            number: false,
        },
        Ask::Recover(of) => Asked::Recover {
            folder,
            size: Size::Given(geometry_of(of)?),
        },
        Ask::Help => Asked::Help(String::from_str(alloc, "help\n")?),
        Ask::Faulty => Asked::Faulty(String::from_str(alloc, "why\n")?),
        Ask::NotUnderstood => Asked::NotUnderstood,
    };
    let script = match ask {
        Ask::Run(Of::Four) => COMMIT_OF_FOUR,
        _ => COMMIT,
    };
    Ok((asked, script))
}

// Asks this, and looks at all that comes of it.
fn check(
    rt: &impl Abort,
    row: &impl Display,
    alloc: Global,
    shelf: &Shelf,
    step: &Step,
) -> Result<(), Fail> {
    shelf.meets(step.trouble);
    let (asked, script) = asked_of(alloc, step.ask)?;
    let mut text = Vec::new(alloc);
    let mut reader = script.as_bytes();
    let rows = &Listed(shelf);
    let status = answer(
        alloc,
        rows,
        ErrorOutput::Other,
        &asked,
        &mut reader,
        &mut text,
    )?;
    let printed = str::from_utf8(text.as_slice()).ok();
    let wanted = (Some(step.printed), step.status);
    equal(rt, row, &(printed, status), &wanted);
    let said = shelf.said()?;
    equal(
        rt,
        &format_args!("{row}, what is said"),
        &said.as_str(),
        &step.said,
    );
    let calls = shelf.calls()?;
    assert!(rt;
        calls.as_str().ends_with(step.calls),
        "{row}, the calls: {calls:?}"
    );
    Ok(())
}

// The same of some steps in a row, on a new folder.
fn check_all(rt: &impl Abort, alloc: Global, steps: &[Step]) -> Result<(), Fail> {
    let shelf = Shelf::new(alloc);
    for (place, step) in steps.iter().enumerate() {
        check(rt, &place, alloc, &shelf, step)?;
    }
    Ok(())
}

// The sync of the group fails, after those of the size and of the folder and the two of the recovery.
const SYNC_FAILS: Step = Step {
    ask: Ask::Run(Of::One),
    trouble: Trouble::Sync(5),
    printed: "ok\nok\nok\nclosed 0 8\ndevice fault\n",
    status: 3,
    calls: "write store/log0 1 71\nsync store/log0\nmake store/fault\n",
    said: "lcrvm: store/log0: the sync failed\n",
};

// The first write is that of the group.
const WRITE_FAILS: Step = Step {
    trouble: Trouble::Write(1),
    calls: "write store/log0 1 71\nmake store/fault\n",
    said: "lcrvm: store/log0: the write failed\n",
    ..SYNC_FAILS
};

// Then the files are copied and put in place of the old ones, and the mark goes once that is stable.
const COPIED: Step = Step {
    ask: Ask::Recover(Of::One),
    printed: "segment 1 sequence 0\nrecovered\n",
    calls: "look store/log0\nlook store/log0.new\nopen store/log0\nlock store/log0\nlook store/log0\n\
make store/log0.new\nmode store/log0.new\nread store/log0\n\
write store/log0.new 0 520\nsync store/log0.new\nlook store/log0\nrename store/log0.new\n\
look store/seg1\nlook store/seg1.new\nopen store/seg1\nlock store/seg1\nlook store/seg1\n\
make store/seg1.new\nmode store/seg1.new\nread store/seg1\n\
write store/seg1.new 0 544\nsync store/seg1.new\nlook store/seg1\nrename store/seg1.new\n\
open store\nsync store\nopen store/..\nsync store/..\nlook store/fault\nremove store/fault\n\
open store/log0\nlock store/log0\nopen store/seg1\nlock store/seg1\n\
look store/lcrvm.store\nopen store/lcrvm.store\nsync store/lcrvm.store\nsync store\n\
sync store/log0\nsync store/seg1\nread store/log0\nread store/seg1\n",
    ..MADE
};

// The store goes on with the four calls of a flush.
const GOES_ON: Step = Step {
    ask: Ask::Run(Of::One),
    printed: "ok\nok\nok\nclosed 0 8\nacked 1\n",
    calls: "write store/log0 1 71\nsync store/log0\nwrite store/log0 0 1\nsync store/log0\n",
    ..MADE
};

#[test]
fn a_failed_call_has_the_files_copied(rt: HostRuntime) -> Result<(), Fail> {
    for failing in [SYNC_FAILS, WRITE_FAILS] {
        check_all(&rt, rt.alloc(), &[MADE, failing, COPIED, GOES_ON])?;
    }
    Ok(())
}

// The sync of the log fails, and what was made is taken away.
const NOT_MADE: Step = Step {
    trouble: Trouble::Sync(2),
    printed: "device fault\n",
    status: 3,
    calls: "make store/log0\nwrite store/log0 0 520\nsync store/log0\n\
look store/log0\nremove store/log0\nlook store/lcrvm.store\nremove store/lcrvm.store\n",
    said: "lcrvm: store/log0: the sync failed\n",
    ..MADE
};

// The sync of the parent fails, which is said alone.
const PARENT_NOT_SYNCED: Step = Step {
    trouble: Trouble::Sync(5),
    calls: "sync store/seg1\nopen store\nsync store\nopen store/..\nsync store/..\n",
    said: "lcrvm: store/..: the sync failed\n",
    ..MADE
};

#[test]
fn an_init_that_fails_takes_away_what_it_made(rt: HostRuntime) -> Result<(), Fail> {
    check_all(&rt, rt.alloc(), &[NOT_MADE, PARENT_NOT_SYNCED])
}

static IN_ORDER: [Step; 3] = [
    Step {
        ask: Ask::Init(Of::Four),
        ..MADE
    },
    Step {
        ask: Ask::Run(Of::Four),
        printed: "ok\nok\nok\nok\nok\nclosed 0 19\nacked 1\n",
        ..MADE
    },
    Step {
        ask: Ask::Recover(Of::Four),
        printed: "segment 1 sequence 1\nsegment 2 sequence 1\nrecovered\n",
        calls: "sync store/log0\nsync store/seg1\nsync store/seg2\n\
read store/log0\nread store/seg1\nread store/seg2\n\
write store/seg1 1 271\nsync store/seg1\nwrite store/seg1 0 1\nsync store/seg1\n\
write store/seg1 545 271\nsync store/seg1\nwrite store/seg1 544 1\nsync store/seg1\n\
write store/seg2 1 271\nsync store/seg2\nwrite store/seg2 0 1\nsync store/seg2\n\
write store/seg2 545 271\nsync store/seg2\nwrite store/seg2 544 1\nsync store/seg2\n\
write store/log0 0 1\nsync store/log0\n",
        ..MADE
    },
];

#[test]
fn a_recovery_writes_pages_in_order(rt: HostRuntime) -> Result<(), Fail> {
    check_all(&rt, rt.alloc(), &IN_ORDER)
}

// What no file is opened for, and a size that is not the store's.
static SAID: [Step; 5] = [
    Step {
        ask: Ask::Help,
        printed: "help\n",
        ..MADE
    },
    Step {
        ask: Ask::Faulty,
        status: 2,
        said: "command line not understood\nwhy\n",
        ..MADE
    },
    Step {
        ask: Ask::NotUnderstood,
        status: 2,
        said: "command line not understood\n\
--as-found: a store in memory has no files; --store DIR names one that has\n",
        ..MADE
    },
    MADE,
    Step {
        ask: Ask::Recover(Of::TwoPages),
        printed: "refused BadGeometry 1\n",
        status: 1,
        said: "lcrvm: store/lcrvm.store: nodes 1 segments 1 pages 1 words 64\n\
lcrvm: store: --as-found takes nodes 1 segments 1 pages 1 words 64\n",
        ..MADE
    },
];

#[test]
fn what_is_wrong_is_said_on_standard_error(rt: HostRuntime) -> Result<(), Fail> {
    check_all(&rt, rt.alloc(), &SAID)
}

// A list of locks, which processes are there, and what is said of a store that is in use.
struct Locks {
    locks: &'static str,
    running: &'static [&'static str],
    said: &'static str,
}

const UNKNOWN: &str = "lcrvm: store: store in use\n";

const BY_1234: &str = "lcrvm: store: store in use by process 1234\n";

// Every file of the folder is number 0 on device 0.
static LOCKS: [Locks; 10] = [
    Locks {
        locks: "1: FLOCK  ADVISORY  WRITE 1234 00:00:0 0 EOF\n",
        running: &["/proc/1234"],
        said: BY_1234,
    },
    // One that only looks is in the way of one that changes the store.
    Locks {
        locks: "1: FLOCK  ADVISORY  READ 1234 00:00:0 0 EOF",
        running: &["/proc/1234"],
        said: BY_1234,
    },
    // Of other files.
    Locks {
        locks: "1: FLOCK  ADVISORY  WRITE 7 00:00:3 0 EOF\n2: FLOCK  ADVISORY  WRITE 7 00:01:0 0 EOF\n\
3: FLOCK  ADVISORY  WRITE 7 08:00:0 0 EOF\n4: FLOCK  ADVISORY  WRITE 1234 00:00:0 0 EOF\n",
        running: &["/proc/1234", "/proc/7"],
        said: BY_1234,
    },
    // Of another kind, and of one that waits.
    Locks {
        locks: "1: POSIX  ADVISORY  WRITE 7 00:00:0 0 EOF\n2: -> FLOCK  ADVISORY  WRITE 7 00:00:0 0 EOF\n\
3: FLOCK  ADVISORY  WRITE 1234 00:00:0 0 EOF\n",
        running: &["/proc/1234", "/proc/7"],
        said: BY_1234,
    },
    // The process that took the lock is there no more, and its child holds it.
    Locks {
        locks: "1: FLOCK  ADVISORY  WRITE 7 00:00:0 0 EOF\n",
        running: &["/proc/1234"],
        said: UNKNOWN,
    },
    Locks {
        locks: "1: FLOCK  ADVISORY  READ 7 00:00:0 0 EOF\n2: FLOCK  ADVISORY  READ 1234 00:00:0 0 EOF\n",
        running: &["/proc/1234"],
        said: BY_1234,
    },
    // Of another machine, or of another space of numbers.
    Locks {
        locks: "1: FLOCK  ADVISORY  WRITE 0 00:00:0 0 EOF\n",
        running: &["/proc/0"],
        said: UNKNOWN,
    },
    Locks {
        locks: "1: FLOCK  ADVISORY  WRITE -1 00:00:0 0 EOF\n",
        running: &["/proc/-1"],
        said: UNKNOWN,
    },
    // Lines that are cut short.
    Locks {
        locks: "1: FLOCK  ADVISORY  WRITE 1234\n",
        running: &["/proc/1234"],
        said: UNKNOWN,
    },
    Locks {
        locks: "FLOCK\n\n: \n",
        running: &["/proc/1234"],
        said: UNKNOWN,
    },
];

// The store is made, and then in use by such a list.
fn check_locks(rt: &impl Abort, row: usize, alloc: Global, locks: &Locks) -> Result<(), Fail> {
    let shelf = Shelf::new(alloc);
    check(rt, &row, alloc, &shelf, &MADE)?;
    shelf.put_text("/proc/locks", locks.locks)?;
    for path in locks.running {
        shelf.put_text(path, "")?;
    }
    let in_use = Step {
        ask: Ask::Recover(Of::One),
        trouble: Trouble::InUse,
        printed: "device fault\n",
        status: 3,
        said: locks.said,
        ..MADE
    };
    check(rt, &row, alloc, &shelf, &in_use)
}

#[test]
fn the_first_holder_of_a_lock_that_is_there_is_named(rt: HostRuntime) -> Result<(), Fail> {
    for (row, locks) in LOCKS.iter().enumerate() {
        check_locks(&rt, row, rt.alloc(), locks)?;
    }
    Ok(())
}
