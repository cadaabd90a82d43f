//! Stores in folders of the system.
use crate::expect::equal;
use crate::stream_tests::WHOLE;
use lc_fixture::ONE;
use lc_tool::{ErrorOutput, init_store, inspect_file, recover_store, run_store};
use std::fs::{self, OpenFile, OpenOptions};
use std::process::Abort;
use std::test::*;
use std::{env, process};

// What is asked of the store in a folder, or of its log.
#[derive(Clone, Copy, Debug)]
enum Ask {
    Init,
    Run(&'static str),
    Recover,
    Inspect,
    InspectBackwards,
}

// What is asked, what is printed, and the status.
type Step = (Ask, &'static str, u8);

// A folder of this process and this test, with nothing in it.
fn new_folder(rt: &HostRuntime, name: &str) -> Result<String, Fail> {
    let alloc = rt.alloc();
    let temporary = env::temp_dir(rt)?;
    let id = process::id(rt.process());
    let folder = format!(in alloc; "{}/lc_tests-{id}-{name}", temporary.as_str())?;
    let _ = fs::remove_dir_all(rt, &folder);
    fs::create_dir(rt, &folder)?;
    Ok(folder)
}

// What is printed, and the status.
fn asked(rt: &HostRuntime, folder: &str, ask: Ask) -> Result<(Vec<u8>, u8), Fail> {
    let alloc = rt.alloc();
    let errors = ErrorOutput::Other;
    let log = format!(in alloc; "{folder}/log0")?;
    let mut text = Vec::new(alloc);
    let status = match ask {
        Ask::Init => init_store(alloc, rt, folder, ONE, &mut text)?,
        Ask::Run(script) => {
            let mut reader = script.as_bytes();
            run_store(
                alloc,
                rt,
                errors,
                folder,
                ONE,
                WHOLE,
                &mut reader,
                &mut text,
            )?
        }
        Ask::Recover => recover_store(alloc, rt, errors, folder, ONE, &mut text)?,
        Ask::Inspect => inspect_file(alloc, rt, &log, false, &mut text)?,
        Ask::InspectBackwards => inspect_file(alloc, rt, &log, true, &mut text)?,
    };
    Ok((text, status))
}

// What is printed at each of these steps, and its status.
fn check_all(
    test: &impl Abort,
    rt: &HostRuntime,
    folder: &str,
    steps: &[Step],
) -> Result<(), Fail> {
    for (place, (ask, want, status)) in steps.iter().enumerate() {
        let (text, answered) = asked(rt, folder, *ask)?;
        equal(
            test,
            &format_args!("step {place}, {ask:?}"),
            &(str::from_utf8(text.as_slice()).ok(), answered),
            &(Some(*want), *status),
        );
    }
    Ok(())
}

// One commit on segment 1 that puts `hello` at byte 3, made stable.
const COMMIT: &str = "begin 0 0 1\nrange 0 0 1 3 5\nwrite 0 0 1 3 68656c6c6f\nend 0 0\nflush 0\n";

static MADE: [Step; 2] = [(Ask::Init, "", 0), (Ask::Init, "refused Exists\n", 1)];

static USED: [Step; 5] = [
    (Ask::Run(COMMIT), "ok\nok\nok\nclosed 0 8\nacked 1\n", 0),
    (Ask::Inspect, "0 8 node 0 locks 1:1 ranges 1:3+5\n", 0),
    (Ask::Recover, "segment 1 sequence 1\nrecovered\n", 0),
    (Ask::Inspect, "", 0),
    (
        Ask::Run("begin 0 0 1\nread 0 0 1 3 5\n"),
        "ok\nbytes 68656c6c6f\n",
        0,
    ),
];

// Whether the log and the segment have these many bytes.
fn have_lens(rt: &HostRuntime, folder: &str, log: u64, segment: u64) -> Result<bool, Fail> {
    let alloc = rt.alloc();
    let has_log = fs::metadata(rt, &format!(in alloc; "{folder}/log0")?)?.len() == log;
    Ok(has_log && fs::metadata(rt, &format!(in alloc; "{folder}/seg1")?)?.len() == segment)
}

#[test]
fn a_store_lives_in_a_folder(rt: HostRuntime) -> Result<(), Fail> {
    let folder = new_folder(&rt, "lives")?;
    check_all(&rt, &rt, &folder, &MADE)?;
    assert!(rt; have_lens(&rt, &folder, 520, 544)?);
    check_all(&rt, &rt, &folder, &USED)?;
    fs::remove_dir_all(&rt, &folder)?;
    Ok(())
}

// Three commits of one byte on segment 1, made stable.
const COMMITS: &str =
    "begin 0 0 1\nrange 0 0 1 0 1\nend 0 0\nbegin 0 0 1\nrange 0 0 1 0 1\nend 0 0\n\
begin 0 0 1\nrange 0 0 1 0 1\nend 0 0\nflush 0\n";

static INSPECTED: [Step; 4] = [
    (Ask::Init, "", 0),
    (
        Ask::Run(COMMITS),
        "ok\nok\nclosed 0 8\nok\nok\nclosed 8 8\nok\nok\nclosed 16 8\nacked 3\n",
        0,
    ),
    (
        Ask::Inspect,
        "0 8 node 0 locks 1:1 ranges 1:0+1\n8 8 node 0 locks 1:2 ranges 1:0+1\n\
16 8 node 0 locks 1:3 ranges 1:0+1\n",
        0,
    ),
    (
        Ask::InspectBackwards,
        "16 8 node 0 locks 1:3 ranges 1:0+1\n8 8 node 0 locks 1:2 ranges 1:0+1\n\
0 8 node 0 locks 1:1 ranges 1:0+1\n",
        0,
    ),
];

#[test]
fn a_log_is_inspected_both_ways(rt: HostRuntime) -> Result<(), Fail> {
    let folder = new_folder(&rt, "inspected")?;
    check_all(&rt, &rt, &folder, &INSPECTED)?;
    fs::remove_dir_all(&rt, &folder)?;
    Ok(())
}

const NO_LOG: [Step; 2] = [
    (Ask::Inspect, "refused BadGeometry 0\n", 1),
    (Ask::InspectBackwards, "refused BadGeometry 0\n", 1),
];

const EMPTY_LOG: [Step; 1] = [(Ask::Inspect, "", 0)];

// How long a file is, and whether it may be a log. The longest takes more memory than there is.
const LENS: [(u64, &[Step]); 8] = [
    (0, &NO_LOG),
    (8, &NO_LOG),
    (512, &NO_LOG),
    (521, &NO_LOG),
    (32784, &NO_LOG),
    (1 << 40, &NO_LOG),
    (520, &EMPTY_LOG),
    (32776, &EMPTY_LOG),
];

#[test]
fn a_file_that_is_no_log_is_refused(rt: HostRuntime) -> Result<(), Fail> {
    let folder = new_folder(&rt, "no-log")?;
    let path = format!(in rt.alloc(); "{folder}/log0")?;
    let mut options = OpenOptions::new();
    let file = options.write(true).create(true).open(&rt, &path)?;
    for (len, steps) in &LENS {
        file.set_len(*len)?;
        check_all(&rt, &rt, &folder, *steps)?;
    }
    fs::remove_dir_all(&rt, &folder)?;
    Ok(())
}
