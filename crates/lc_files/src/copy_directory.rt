//! The folder of a copy of a store.
use crate::directory::Directory;
use crate::owned_file::OwnedFile;
use crate::store_folder::StoreFolder;
use crate::watch::StoreArea;
use lc_disk::Area;
use lc_folder::{FileName, Folder, FolderFault, MakeFault, NewFile, StoreFile, StoreName};
use lc_record::Geometry;
use std::fs::OpenFile;
use std::io;
use std::io::{Error, ErrorKind};
use std::os::unix::fs::FileExt;
use std::path::AsPath;
use std::rt::Files;

// How many bytes are copied at once.
const PIECE: usize = 4096;

/// A folder in which a store is made that begins as a copy of another one: each file has the bytes of the file of its
/// name there, where there is one, and then zeros. As of a `Directory`, contracts never see it as honest.
pub struct CopyDirectory<'a, R: Files, P: AsPath>
where
    R::File: OwnedFile,
{
    directory: Directory<'a, R, P>,
    // What is copied: the areas of a store of this size.
    areas: Vec<StoreArea<&'a StoreFolder<R, P>>>,
    geometry: Geometry,
}

impl<R: Files, P: AsPath> Drop for CopyDirectory<'_, R, P>
where
    R::File: OwnedFile,
{
    fn drop(self) {
        let CopyDirectory {
            directory: _directory,
            areas: _areas,
            geometry: _geometry,
        } = self;
    }
}

impl<'a, R: Files, P: AsPath> CopyDirectory<'a, R, P>
where
    R::File: OwnedFile,
{
    /// This folder, which is not held yet, for a copy of these areas of a store of this size.
    pub fn new(
        folder: &'a StoreFolder<R, P>,
        areas: Vec<StoreArea<&'a StoreFolder<R, P>>>,
        geometry: Geometry,
    ) -> CopyDirectory<'a, R, P> {
        CopyDirectory {
            directory: Directory::new(folder),
            areas,
            geometry,
        }
    }

    /// The folder itself.
    pub fn directory(&self) -> &Directory<'a, R, P> {
        &self.directory
    }

    fn make_area(&mut self, file: StoreFile) -> io::Result<()> {
        let made = self.directory.make_empty(StoreName::File(file.name))?;
        for at in (0..file.len).step_by(PIECE) {
            let mut piece = [0; PIECE];
            let count = (file.len - at).min(PIECE);
            self.fill(file.name, at, &mut piece[..count])?;
            made.write_all_at(&piece[..count], at as u64)?;
        }
        made.sync_all()
    }

    // Puts the bytes from a position on into a piece of zeros, so many as the file of this name has.
    fn fill(&mut self, name: FileName, at: usize, piece: &mut [u8]) -> io::Result<()> {
        let Some(place) = place_of(&self.geometry, name) else {
            return Ok(());
        };
        let Some(area) = self.areas.get_mut(place) else {
            return Ok(());
        };
        let len = area.len();
        if at >= len {
            return Ok(());
        }
        let count = (len - at).min(piece.len());
        match area.read(at, &mut piece[..count]) {
            Ok(()) => Ok(()),
            Err(_) => Err(Error::new(ErrorKind::Other, "not copied")),
        }
    }
}

// Where the area of this file stands in the order of a store.
fn place_of(geometry: &Geometry, name: FileName) -> Option<usize> {
    let nodes = geometry.nodes as usize;
    match name {
        FileName::Log(node) if node < geometry.nodes => Some(node as usize),
        FileName::Segment(segment) if 1 <= segment && segment <= geometry.segments => {
            Some(nodes + (segment as usize - 1))
        }
        _ => None,
    }
}

impl<R: Files, P: AsPath> Folder for CopyDirectory<'_, R, P>
where
    R::File: OwnedFile,
{
    ghost use Rattle.std.specs.Prelude.{None, false};

    ghost files = { λ _ _. None };

    ghost stable = { λ _ _. false };

    ghost honest = { λ _. false };

    fn is_taken(&mut self, name: StoreName) -> Result<bool, FolderFault> {
        self.directory.is_taken(name)
    }

    fn hold(&mut self) -> Result<(), FolderFault> {
        self.directory.hold()
    }

    fn make(&mut self, file: NewFile) -> Result<(), MakeFault> {
        match file {
            NewFile::Size(_) => self.directory.make(file),
            NewFile::Area(area) => {
                let made = self.make_area(area);
                self.directory.told(file.name(), made)
            }
        }
    }

    fn remove(&mut self, name: StoreName) -> Result<(), FolderFault> {
        self.directory.remove(name)
    }

    fn copy(&mut self, name: FileName) -> Result<(), FolderFault> {
        self.directory.copy(name)
    }

    fn replace(&mut self, name: FileName) -> Result<(), FolderFault> {
        self.directory.replace(name)
    }

    fn sync(&mut self) -> Result<(), FolderFault> {
        self.directory.sync()
    }
}
