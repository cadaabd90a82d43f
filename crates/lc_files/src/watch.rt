//! Who is told of the faults of a store's files.
use crate::folder_ref::FolderRef;
use lc_disk::{FaultWitness, FileArea, FileCall, HeldFile};
use lc_folder::{FaultPlace, FileName, StoreName};
use std::io;
use std::rt::Files;

/// An area of a store in a folder.
pub type StoreArea<F> = FileArea<<<F as FolderRef>::Runtime as Files>::File, FileWatch<F>>;

/// Notes in its folder why a file of the store failed. After a write or a sync that failed it leaves a mark there,
/// before anybody is told: the system calls what could not be written clean, and would read it from its memory as if it
/// were on the device.
#[derive(Drop)]
pub struct FileWatch<F> {
    folder: F,
    name: FileName,
    mark: String,
}

impl<F> FileWatch<F> {
    // Of the file of this name, with the path of the mark.
    pub(crate) fn new(folder: F, name: FileName, mark: String) -> FileWatch<F> {
        FileWatch { folder, name, mark }
    }
}

impl<F: FolderRef> FaultWitness for FileWatch<F>
where
    <F::Runtime as Files>::File: HeldFile,
{
    fn failed(&self, call: FileCall, error: io::Error) {
        let folder = self.folder.folder();
        if call != FileCall::Read {
            folder.mark(&self.mark);
        }
        folder.note(FaultPlace::Name(StoreName::File(self.name)), error);
    }
}
