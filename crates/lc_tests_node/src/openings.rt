//! Stores in folders of the system that are opened by one call.
use crate::stores::two_segments;
use lc_disk::FileArea;
use lc_files::{FileName, FolderFault, Misfit, StoreFolder};
use lc_node::{Commit, Mode, Put};
use lc_node_fixture::{LOG_BYTES, SEGMENT_BYTES, get, put};
use lc_record::Geometry;
use lc_store::{Serving, Store, StoreOpenFault};
use std::string::String;
use std::test::*;
use std::{env, fs, process};

const HELLO: Put<'static> = Put {
    segment: 2,
    offset: 3,
    bytes: b"hello",
};

const IN_USE: StoreOpenFault = StoreOpenFault::Folder(FolderFault::Failed);

const NO_LOG: StoreOpenFault = StoreOpenFault::NoStore(Misfit::Missing(FileName::Log(0)));

// The segments are after the one log.
const SHORT_SEGMENT: StoreOpenFault = StoreOpenFault::BadGeometry { area: 1 };

// A folder of this process with this name at its end, and nothing in it.
fn new_folder(rt: &HostRuntime, name: &str) -> Result<String, Fail> {
    let temporary = env::temp_dir(rt)?;
    let id = process::id(rt.process());
    let folder = format!(in rt.alloc(); "{}/lc_tests_node-{id}-{name}", temporary.as_str())?;
    let _ = fs::remove_dir_all(rt, &folder);
    fs::create_dir(rt, &folder)?;
    Ok(folder)
}

// Makes files of zeros for a log and two segments.
fn make_files(rt: &HostRuntime, folder: &str) -> Result<(), Fail> {
    for (name, len) in [
        ("log0", LOG_BYTES),
        ("seg1", SEGMENT_BYTES),
        ("seg2", SEGMENT_BYTES),
    ] {
        let path = format!(in rt.alloc(); "{folder}/{name}")?;
        drop(FileArea::try_make(rt, &path, len)?);
    }
    Ok(())
}

#[test]
fn what_a_node_made_durable_is_there_when_it_is_opened_again(rt: HostRuntime) -> Result<(), Fail> {
    let alloc = rt.alloc();
    let path = new_folder(&rt, "openings")?;
    make_files(&rt, &path)?;
    let folder = StoreFolder::shared(alloc, rt, &path)?;
    let (serving, seat) = Serving::open(alloc, &folder, two_segments()?)?;
    let (_seat, done) = put(&rt, alloc, &serving.node, seat, &[2], HELLO, Mode::Flush);
    assert!(rt; matches!(done, Ok(Commit::Flushed(_))));
    assert!(rt; Store::open_as_found(alloc, &folder, 1).err() == Some(IN_USE));
    drop(serving);

    let mut store = Store::open(alloc, &folder, two_segments()?)?;
    assert!(rt; store.world.begin(0, 0, &[], &[2]) == Ok(()));
    let mut buffer = [7; 7];
    assert!(rt; store.world.read(0, 0, 2, 2, &mut buffer) == Ok(()));
    assert!(rt; buffer == *b"\0hello\0");
    drop(store);

    let (serving, seat) = Serving::open_as_found(alloc, &folder)?;
    // The running node is the last owner of its folder.
    drop(folder);
    let (_seat, found) = get(&rt, alloc, &serving.node, seat, 2, 2, 7);
    assert!(rt; found.expect(&rt, "it is read").as_slice() == b"\0hello\0".as_slice());
    drop(serving);
    fs::remove_dir_all(&rt, &path)?;
    Ok(())
}

#[test]
fn what_is_no_store_is_not_opened(rt: HostRuntime) -> Result<(), Fail> {
    let alloc = rt.alloc();
    let path = new_folder(&rt, "no-openings")?;
    let folder = StoreFolder::shared(alloc, rt, &path)?;
    assert!(rt; Store::open_as_found(alloc, &folder, 1).err() == Some(NO_LOG));
    assert!(rt; Serving::open_as_found(alloc, &folder).err() == Some(NO_LOG));
    make_files(&rt, &path)?;
    let longer = Geometry::new(1, 1, 2, 3, 4096).ok_or("these numbers are a geometry")?;
    assert!(rt; Store::open(alloc, &folder, longer).err() == Some(SHORT_SEGMENT));
    assert!(rt; Serving::open(alloc, &folder, longer).err() == Some(SHORT_SEGMENT));
    drop(Store::open_as_found(alloc, &folder, 1)?);
    fs::remove_dir_all(&rt, &path)?;
    Ok(())
}
