//! What the logs and the pages of a store make together.
ghost use Rattle.std.specs.Prelude.{◌≡◌, ◌≤◌, All, Err, IfErr, IfOk, OnErr, length};
ghost use Rattle.lc_model.specs.Merge.{StoreText};
ghost use Rattle.lc_recover.specs.Fault.{IsRefusal};
ghost use Rattle.lc_recover.specs.StoreContents.{HasNewer, IsFaultless, IsKept, IsMerging};
ghost use Rattle.lc_recover.specs.KeptAreas.{IsCounted};
ghost use Rattle.lc_recover.specs.declared.fault.RecoverFault.TheVariants.{NoMemory};
ghost use Rattle.lc_recover.specs.declared.segment_pages.SegmentPages.{SegmentPages};

use crate::RecoverFault;
use crate::index::index;
use crate::numbers::{counted, once};
use crate::own::own;
use crate::read_areas::ReadAreas;
use crate::redo_range::RedoRange;
use crate::within::within;
use std::alloc::Global;

/// What the logs and the pages of a store make together: the changes of its pages, and in place of the sequences of the
/// pages the number of each segment.
///
/// It is refused for the first of these that is found in the whole store. These are the first log with a record of
/// another node than the log's (`BadGeometry`), and the first with a record that lies outside of the segments
/// (`OutOfSegment`). Then comes the least number that stands twice (`Twice`; all numbers count, be they on the pages or
/// not), and then the least number above those of the pages that is missing below one that is there (`Gap`).
///
/// It takes the time of three readings of the logs, and of two sorts: of the numbers of all locks, and of the changes.
/// Memory is asked for the changes alone, after all refusals, and only where there is one. No record is copied.
pub(crate) fn merge(alloc: Global, read: &mut ReadAreas) -> Result<Vec<RedoRange>, RecoverFault>
    requires few_logs { length read.old.kept.logs.items ≤ 8 }
    requires few_segments { length read.old.kept.segments.items ≤ 16 }
    requires few_pages { All (λ (s : SegmentPages). length s.texts ≤ 1024) read.old.kept.segments.items }
    requires counted { IsCounted read.old }
    ensures kept { read.new.kept ≡ read.old.kept }
    ensures counted { OnErr result (IsCounted read.new) }
    ensures refused { IfErr result (λ fault. (store : StoreText)
        → IsKept read.old.kept.logs.items read.old.kept.segments.items store → IsRefusal store fault) }
    ensures merged { IfOk result (λ changes. (store : StoreText)
        → IsKept read.old.kept.logs.items read.old.kept.segments.items store
        → IsMerging read.old.kept.logs.items store (record { numbers = read.new.numbers; changes = changes })) }
    ensures no_memory { result ≡ Err NoMemory → (store : StoreText)
        → IsKept read.old.kept.logs.items read.old.kept.segments.items store → IsFaultless store × HasNewer store }
{
    own(read.kept.logs.as_slice())?;
    within(read.kept.logs.as_slice(), read.kept.segments.as_slice())?;
    read.locks.sort_unstable();
    once(read.locks.as_slice())?;
    let counts = counted(read.numbers.as_slice(), read.locks.as_slice())?;
    let changes = index(
        alloc,
        read.kept.logs.as_slice(),
        read.kept.segments.as_slice(),
    )?;
    let segments = read.numbers.len();
    read.numbers.copy_from_slice(&counts[..segments]);
    Ok(changes)
}
