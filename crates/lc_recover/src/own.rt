//! Whose records stand in the logs.
ghost use Rattle.std.specs.Prelude.{◌≡◌, ◌≢◌, ◌≤◌, All, Contains, IfErr, OnOk, MatchBool, List, length};
ghost use Rattle.lc_record.specs.declared.record.Record.{Record};
ghost use Rattle.lc_log.specs.InPlace.{records_in};
ghost use Rattle.lc_model.specs.Merge.{AreOwn};
ghost use Rattle.lc_recover.specs.Fault.{IsRefusal};
ghost use Rattle.lc_recover.specs.Reading.{store_of};
ghost use Rattle.lc_recover.specs.declared.fault.RecoverFault.TheVariants.{NoMemory};
ghost use Rattle.lc_recover.specs.declared.segment_pages.SegmentPages.{SegmentPages};

use crate::RecoverFault;
use crate::record_cursor::records_of;
use lc_record::Items;

/// Refuses the first log with a record of another node than the one of the log's number.
pub(crate) fn own(logs: &[Items<u64>]) -> Result<(), RecoverFault>
    requires { length logs.now ≤ 8 }
    ensures refused { IfErr result (λ fault. (segments : List SegmentPages)
        → IsRefusal (store_of logs.now segments) fault) }
    ensures named { IfErr result (λ fault. fault ≢ NoMemory) }
    ensures own { OnOk result ((segments : List SegmentPages) → AreOwn (store_of logs.now segments)) }
{
    for (area, log) in logs.iter().enumerate() {
        if !is_own(area, log.as_slice()) {
            return Err(RecoverFault::BadGeometry { area: area as u32 });
        }
    }
    Ok(())
}

fn is_own(node: usize, words: &[u64]) -> bool
    ensures { MatchBool result (All (λ r. r.node ≡ node) (records_in words.now))
        ((r : Record) × Contains (records_in words.now) r × (r.node ≢ node)) }
{
    for (_, record) in records_of(words) {
        if record.node() as usize != node {
            return false;
        }
    }
    true
}
