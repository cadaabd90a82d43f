//! The records of a node of a cluster at rest.
ghost use Rattle.std.specs.Prelude.{◌≡◌, ◌++◌, ◌<◌, ◌^◌, List, IfOk, length};
ghost use Rattle.lc_record.specs.declared.record.Record.{Record as TheRecord};
ghost use Rattle.lc_rest.specs.Parts.{AreSpelled};

use lc_record::{Record, decode};
use std::alloc::{AllocError, Global};

/// The records of a node, in the order of its log: first those of the rounds that have ended, so many, then those that
/// the log has, up to so many, and then those that are staged.
#[derive(Drop)]
pub struct NodeRecords {
    pub(crate) records: Vec<Record>,
    pub(crate) dropped: usize,
    pub(crate) stable: usize,
}

impl NodeRecords {
    /// Those of these words. It takes memory for the records.
    pub fn read(
        alloc: Global,
        ended: &[u64],
        stable: &[u64],
        staged: &[u64],
    ) -> Result<NodeRecords, AllocError>
        ensures records { IfOk result (λ read. (gone front behind : List TheRecord) → AreSpelled ended.now gone
            → AreSpelled stable.now front → AreSpelled staged.now behind
            → read.records.items ≡ gone ++ front ++ behind) }
        ensures dropped { IfOk result (λ read. (gone : List TheRecord) → AreSpelled ended.now gone
            → read.dropped ≡ length gone) }
        ensures few { IfOk result (λ read. read.dropped < 2 ^ 63) }
        ensures stable { IfOk result (λ read. (gone front : List TheRecord) → AreSpelled ended.now gone
            → AreSpelled stable.now front → read.stable ≡ length (gone ++ front)) }
    {
        let mut records = Vec::new(alloc);
        read_records(alloc, ended, &mut records)?;
        let dropped = records.len();
        read_records(alloc, stable, &mut records)?;
        let stable = records.len();
        read_records(alloc, staged, &mut records)?;
        Ok(NodeRecords {
            records,
            dropped,
            stable,
        })
    }
}

// Adds the records that these words begin with, up to the first place where none begins.
fn read_records(alloc: Global, words: &[u64], records: &mut Vec<Record>) -> Result<(), AllocError>
    ensures { IfOk result (λ _. (rs : List TheRecord) → AreSpelled words.now rs
        → records.new.items ≡ records.old.items ++ rs) }
{
    let mut place = 0;
    while let Some((record, len)) = decode(alloc, &words[place..])? {
        records.push(record)?;
        place += len;
    }
    Ok(())
}
