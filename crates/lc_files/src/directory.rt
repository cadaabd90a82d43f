//! A folder of the system.
use crate::copying::{CopyFault, copy_file};
use crate::owned_file::OwnedFile;
use crate::store_folder::{StoreFolder, exclusive};
use lc_disk::{FileArea, HeldFile};
use lc_folder::{
    FaultPlace, FileName, Folder, FolderFault, MakeFault, NewFile, SizeText, StoreName,
};
use lc_record::Geometry;
use std::fs::OpenFile;
use std::io;
use std::io::ErrorKind;
use std::os::unix::fs::FileExt;
use std::path::AsPath;
use std::rt::Files;

/// A folder of the system. Other processes may change what is in it, so contracts never see it as honest.
pub struct Directory<'a, R: Files, P: AsPath>
where
    R::File: OwnedFile,
{
    folder: &'a StoreFolder<R, P>,
    guard: Option<R::File>,
}

impl<R: Files, P: AsPath> Drop for Directory<'_, R, P>
where
    R::File: OwnedFile,
{
    fn drop(self) {
        let Directory {
            folder: _folder,
            guard: _guard,
        } = self;
    }
}

impl<'a, R: Files, P: AsPath> Directory<'a, R, P>
where
    R::File: OwnedFile,
{
    /// This folder, which is not held yet.
    pub fn new(folder: &'a StoreFolder<R, P>) -> Directory<'a, R, P> {
        Directory {
            folder,
            guard: None,
        }
    }

    /// Says on standard error which files of a store of this size stand.
    pub fn tell_left(&self, geometry: &Geometry)
    where
        R: Eprint,
    {
        for place in 0..geometry.nodes as usize + geometry.segments as usize + 1 {
            if let Some(file) = NewFile::at(geometry, place) {
                self.folder.tell_standing(file.name());
            }
        }
    }

    fn try_make(&self, file: NewFile) -> io::Result<()> {
        let path = self.folder.path_of(file.name())?;
        match file {
            NewFile::Size(geometry) => self.make_size(&path, geometry),
            NewFile::Area(area) => {
                FileArea::try_make(&self.folder.rt, &path, area.len)?;
                Ok(())
            }
        }
    }

    // Makes the file that says the size.
    fn make_size(&self, path: &str, geometry: Geometry) -> io::Result<()> {
        let text = SizeText { geometry }.to_string(self.folder.alloc)?;
        let file = self.make_at(path)?;
        file.write_all_at(text.as_bytes(), 0)?;
        file.sync_all()
    }

    // Copies the file of this name beside it. Of a link that is beside where it leads to.
    fn try_copy(&self, name: FileName) -> Result<(), FolderFault> {
        let place = FaultPlace::Name(StoreName::File(name));
        let beside = FaultPlace::Name(StoreName::Copy(name));
        let (file, len) = self.folder.noted(place, self.folder.open_to_copy(name))?;
        let made = self.folder.noted(beside, self.make_copy(name))?;
        match copy_file(&file, &made, len) {
            Ok(()) => Ok(()),
            Err(CopyFault::Reading(error)) => Err(self.folder.note_fault(place, error)),
            Err(CopyFault::Writing(error)) => Err(self.folder.note_fault(beside, error)),
        }
    }

    // A new file for a copy.
    fn make_copy(&self, name: FileName) -> io::Result<R::File> {
        let path = self.folder.copy_path(name)?;
        self.make_at(&path)
    }

    /// A new file of this name, which is empty.
    pub(crate) fn make_empty(&self, name: StoreName) -> io::Result<R::File> {
        let path = self.folder.path_of(name)?;
        self.make_at(&path)
    }

    fn make_at(&self, path: &str) -> io::Result<R::File> {
        exclusive()
            .open(&self.folder.rt, path)?
            .beside_standard_streams()
    }

    /// What became of the making of a file. Its error is noted, unless something stood under its name.
    pub(crate) fn told(&self, name: StoreName, made: io::Result<()>) -> Result<(), MakeFault> {
        match made {
            Ok(()) => Ok(()),
            Err(error) if error.kind() == ErrorKind::AlreadyExists => Err(MakeFault::Exists),
            Err(error) => {
                let fault = self.folder.note_fault(FaultPlace::Name(name), error);
                Err(MakeFault::Begun(fault))
            }
        }
    }
}

impl<R: Files, P: AsPath> Folder for Directory<'_, R, P>
where
    R::File: OwnedFile,
{
    ghost use Rattle.std.specs.Prelude.{None, false};

    ghost files = { λ _ _. None };

    ghost stable = { λ _ _. false };

    ghost honest = { λ _. false };

    fn is_taken(&mut self, name: StoreName) -> Result<bool, FolderFault> {
        self.folder
            .noted(FaultPlace::Name(name), self.folder.is_taken(name))
    }

    fn hold(&mut self) -> Result<(), FolderFault> {
        self.guard = Some(self.folder.noted(FaultPlace::Folder, self.folder.lock())?);
        Ok(())
    }

    fn make(&mut self, file: NewFile) -> Result<(), MakeFault> {
        let made = self.try_make(file);
        self.told(file.name(), made)
    }

    fn remove(&mut self, name: StoreName) -> Result<(), FolderFault> {
        self.folder
            .noted(FaultPlace::Name(name), self.folder.remove(name))
    }

    fn copy(&mut self, name: FileName) -> Result<(), FolderFault> {
        self.try_copy(name)
    }

    fn replace(&mut self, name: FileName) -> Result<(), FolderFault> {
        self.folder.noted(
            FaultPlace::Name(StoreName::Copy(name)),
            self.folder.replace(name),
        )
    }

    fn sync(&mut self) -> Result<(), FolderFault> {
        self.folder.noted(FaultPlace::Folder, self.folder.sync())
    }
}
