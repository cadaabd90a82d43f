//! Files of one kind, in a row.
ghost use Rattle.std.specs.Prelude.{◌≤◌, IfErr, IfOk, length};
ghost use Rattle.lc_folder.specs.Found.{IsRow, IsRowFault, place_of};

/// Files that stand one after the other, all as long as the first.
#[derive(Clone, Copy)]
pub struct FileRow {
    /// How many there are, at least one.
    pub count: usize,
    /// How many bytes each has.
    pub len: u64,
}

/// Why files are in no row.
#[derive(Clone, Copy)]
pub enum RowFault {
    /// This one is not there, and it is the first, or one after it is there.
    Missing(usize),
    /// This one is not as long as the first.
    OtherLen(usize),
}

impl FileRow {
    /// The row of files with these lengths, where there is a file.
    pub(crate) fn of(lens: &[Option<u64>]) -> Result<FileRow, RowFault>
        ensures row { IfOk result (IsRow lens.now) }
        ensures fault { IfErr result (IsRowFault lens.now) }
        ensures within { IfErr result (λ fault. place_of fault ≤ length lens.now) }
    {
        let [Some(first), ..] = lens else {
            return Err(RowFault::Missing(0));
        };
        let mut count = 0;
        for (place, len) in lens.iter().enumerate() {
            let Some(len) = len else {
                continue;
            };
            if count < place {
                return Err(RowFault::Missing(count));
            }
            if len != first {
                return Err(RowFault::OtherLen(place));
            }
            count += 1;
        }
        Ok(FileRow { count, len: *first })
    }
}
