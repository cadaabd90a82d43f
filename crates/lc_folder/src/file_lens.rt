//! How long the files of a folder are, and the size that they tell.
ghost use Rattle.std.specs.Prelude.{◌≡◌, ◌≤◌, ◌*◌, ◌+◌, IfErr, IfOk, IfSome, IsNone};
ghost use Rattle.lc_folder.specs.Files.{IsLogLen};
ghost use Rattle.lc_folder.specs.Found.{AreLensOf, IsMisfit, IsSegmentLen, log_misfit, place_of, segment_misfit};

use crate::file_name::FileName;
use crate::file_row::{FileRow, RowFault};
use crate::misfit::Misfit;
use lc_record::{Geometry, MAX_NODE, MAX_SEGMENT};

/// How many logs a store has at most.
pub const LOGS: usize = MAX_NODE as usize + 1;

/// How many segments a store has at most.
pub const SEGMENTS: usize = MAX_SEGMENT as usize;

// How many bytes a word of a log has.
const WORD: u64 = 8;

// How many bytes the two slots of a page have.
const SLOTS: u64 = 544;

/// How many bytes each file of a store has, where there is one: `log0` and the next ones, and `seg1` and the next ones.
#[derive(Clone, Copy)]
pub struct FileLens {
    pub logs: [Option<u64>; LOGS],
    pub segments: [Option<u64>; SEGMENTS],
}

impl FileLens {
    /// The size that the files tell, with one thread a node; or what of them does not fit.
    pub fn geometry(&self) -> Result<Geometry, Misfit>
        ensures found { IfOk result (AreLensOf self.now.logs self.now.segments) }
        ensures misfit { IfErr result (IsMisfit self.now.logs self.now.segments) }
    {
        let logs = match FileRow::of(&self.logs) {
            Ok(logs) => logs,
            Err(fault) => return Err(log_misfit(fault)),
        };
        let segments = match FileRow::of(&self.segments) {
            Ok(segments) => segments,
            Err(fault) => return Err(segment_misfit(fault)),
        };
        let Some(words) = words_of(logs.len) else {
            return Err(Misfit::NoLen(FileName::Log(0)));
        };
        let Some(pages) = pages_of(segments.len) else {
            return Err(Misfit::NoLen(FileName::Segment(1)));
        };
        match Geometry::new(logs.count as u16, 1, segments.count as u32, pages, words) {
            Some(geometry) => Ok(geometry),
            None => Err(Misfit::NoLen(FileName::Log(0))),
        }
    }
}

fn log_misfit(fault: RowFault) -> Misfit
    requires { place_of fault ≤ 16 }
    ensures { result ≡ log_misfit fault }
{
    match fault {
        RowFault::Missing(place) => Misfit::Missing(FileName::Log(place as u16)),
        RowFault::OtherLen(place) => Misfit::OtherLen(FileName::Log(place as u16)),
    }
}

fn segment_misfit(fault: RowFault) -> Misfit
    requires { place_of fault ≤ 16 }
    ensures { result ≡ segment_misfit fault }
{
    match fault {
        RowFault::Missing(place) => Misfit::Missing(FileName::Segment(place as u32 + 1)),
        RowFault::OtherLen(place) => Misfit::OtherLen(FileName::Segment(place as u32 + 1)),
    }
}

// The words of a log that is so many bytes long.
fn words_of(len: u64) -> Option<u32>
    ensures words { IfSome result (λ words. (64 ≤ words) × (words ≤ 4096) × (len ≡ 8 * (words + 1))) }
    ensures none { IsNone result → IsLogLen len → ⊥ }
{
    if len % WORD != 0 || len < 65 * WORD || len > 4097 * WORD {
        return None;
    }
    Some((len / WORD) as u32 - 1)
}

// The pages of a segment that is so many bytes long.
fn pages_of(len: u64) -> Option<u32>
    ensures pages { IfSome result (λ pages. (1 ≤ pages) × (pages ≤ 1024) × (len ≡ 2 * 272 * pages)) }
    ensures none { IsNone result → IsSegmentLen len → ⊥ }
{
    if len % SLOTS != 0 || len < SLOTS || len > 1024 * SLOTS {
        return None;
    }
    Some((len / SLOTS) as u32)
}
