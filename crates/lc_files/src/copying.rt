//! What becomes of a file and its copy.
use crate::owned_file::OwnedFile;
use std::io;
use std::os::unix::fs::MetadataExt;

// How many bytes are copied at once.
const PIECE: usize = 4096;

/// Why a file was not copied.
pub(crate) enum CopyFault {
    /// It could not be read.
    Reading(io::Error),
    /// The copy could not be written, given away or made stable.
    Writing(io::Error),
}

/// Copies the first so many bytes of an open file into another one, with its owner and mode, and makes them stable.
pub(crate) fn copy_file<F: OwnedFile>(from: &F, to: &F, len: u64) -> Result<(), CopyFault> {
    let metadata = from.metadata().map_err(CopyFault::Reading)?;
    let made = to.metadata().map_err(CopyFault::Writing)?;
    if made.uid() != metadata.uid() || made.gid() != metadata.gid() {
        to.give_to(metadata.uid(), metadata.gid())
            .map_err(CopyFault::Writing)?;
    }
    to.set_permissions(metadata.permissions())
        .map_err(CopyFault::Writing)?;
    copy_bytes(from, to, len)?;
    to.sync_all().map_err(CopyFault::Writing)
}

fn copy_bytes<F: OwnedFile>(from: &F, to: &F, len: u64) -> Result<(), CopyFault> {
    let mut piece = [0; PIECE];
    for at in (0..len).step_by(PIECE) {
        let count = (len - at).min(PIECE as u64) as usize;
        from.read_exact_at(&mut piece[..count], at)
            .map_err(CopyFault::Reading)?;
        to.write_all_at(&piece[..count], at)
            .map_err(CopyFault::Writing)?;
    }
    Ok(())
}
