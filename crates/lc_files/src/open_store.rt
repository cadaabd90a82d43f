//! The opening of a store in a folder.
use crate::directory::Directory;
use crate::folder_ref::FolderRef;
use crate::shared_file::SharedFile;
use crate::store_folder::{SharedFolder, StoreFolder, no_size};
use crate::watch::{FileWatch, StoreArea};
use lc_disk::{Area, FileArea, HeldFile};
use lc_folder::{
    FaultPlace, FileLens, FileName, FolderFault, LOGS, Misfit, SEGMENTS, SizeFault, SizeSource,
    StoreFile, StoreName, Unopened, agrees, renew_store, size_found,
};
use lc_record::{Geometry, MAX_NODE, MAX_SEGMENT};
use std::alloc::AllocError;
use std::fs::{OpenFile, OpenOptions};
use std::io;
use std::io::{Error, ErrorKind};
use std::path::AsPath;
use std::rt::Files;

// What a file is opened for.
#[derive(Clone, Copy, PartialEq, Eq)]
enum Access {
    // To be changed, by this opening alone.
    Change,
    // To be read, beside others that do so.
    Read,
}

/// A store in a folder that is open: its areas, and what keeps other processes from it.
pub struct OpenStore<F: FolderRef>
where
    <F::Runtime as Files>::File: HeldFile,
{
    /// The areas of its files, in the order of the store; where the folder has more files of a store, the first of
    /// those is one area more. No other process has a file of these open until its area is dropped.
    pub areas: Vec<StoreArea<F>>,
    /// The folder, locked until this is dropped.
    pub guard: <F::Runtime as Files>::File,
}

/// A store in a folder that is looked at: its size, and what keeps those from it that would change it.
pub struct Look<R: Files>
where
    R::File: HeldFile,
{
    /// The size, as `size_found`, or what of its files does not fit together.
    pub found: Result<Geometry, Misfit>,
    /// The folder, locked beside others that look at it, until this is dropped.
    pub guard: R::File,
}

impl<R: Files, P: AsPath> StoreFolder<R, P>
where
    R::File: SharedFile,
{
    /// Looks at the store in the folder: no other process changes it while the guard is kept.
    ///
    /// # Errors
    ///
    /// `Failed` where another process has the store open, or the system refused something; `fault` says what, and why.
    pub fn look(&self) -> Result<Look<R>, FolderFault> {
        let guard = self.noted(FaultPlace::Folder, self.lock_shared())?;
        match size_found(self.alloc, self) {
            Ok(geometry) => Ok(Look {
                found: Ok(geometry),
                guard,
            }),
            Err(SizeFault::Misfit(misfit)) => Ok(Look {
                found: Err(misfit),
                guard,
            }),
            Err(SizeFault::Folder(fault)) => Err(fault),
        }
    }

    /// The areas of the files of a store of this size, opened to be read alone, beside others that do so, and as they
    /// are after a fault too. It takes no lock of the folder.
    ///
    /// # Errors
    ///
    /// As of `open`.
    pub fn areas_to_read(
        &self,
        geometry: &Geometry,
    ) -> Result<Vec<StoreArea<&StoreFolder<R, P>>>, Unopened> {
        let beyond = self.first_beyond(geometry)?;
        let areas = open_areas(&self, geometry, beyond, Access::Read)?;
        if beyond.is_some() || !have_lengths(geometry, &areas) {
            self.note_misfit(geometry, beyond);
            return Ok(areas);
        }
        agrees(self.alloc, self, geometry)?;
        Ok(areas)
    }

    /// Looks that no fault has left its mark: after a fault what the system has of the files is not to be trusted.
    ///
    /// # Errors
    ///
    /// `Failed` where the mark stands, or the system refused the look; `fault` says what, and why.
    pub fn look_unmarked(&self) -> Result<(), FolderFault> {
        if self.stands(StoreName::Mark)? {
            return Err(self.note_fault(FaultPlace::Name(StoreName::Mark), marked()));
        }
        Ok(())
    }

    /// Opens the store of this size that is in the folder, for this process alone: no other opens the folder or one of
    /// the files, under whatever name, while the guard and the areas are kept. The names in the folder are stable, and
    /// so is the file of the size.
    ///
    /// A name of a store's file above those of the geometry (up to `log7` and `seg16`) that is taken is one area more
    /// than the geometry has. So a store is not run with fewer nodes or segments than it has. Where a fault has left
    /// its mark, each file is copied and the copy put in its place, so that only what is on the device is read; where
    /// the areas are not those of the geometry nothing is copied.
    ///
    /// # Errors
    ///
    /// `OtherSize` where all areas are those of the geometry, and the file of the size says another. `Failed` where
    /// another process has the store open, or the system refused something; `fault` says what, and why.
    pub fn open(&self, geometry: &Geometry) -> Result<OpenStore<&StoreFolder<R, P>>, Unopened> {
        open_at(&self, geometry)
    }

    // Syncs the folder, or the file of the size. A sync that fails leaves the mark: the system does not tell of it
    // again.
    fn make_stable(&self, place: FaultPlace, file: &R::File) -> Result<(), FolderFault> {
        let synced = file.sync_all();
        if synced.is_err() {
            self.mark(&self.noted(
                FaultPlace::Name(StoreName::Mark),
                self.path_of(StoreName::Mark),
            )?);
        }
        self.noted(place, synced)
    }

    // Notes why the areas are not those of a store of this size: it is another than the store's own file says, or a
    // file does not fit.
    fn note_misfit(&self, geometry: &Geometry, beyond: Option<FileName>) {
        if agrees(self.alloc, self, geometry).is_err() {
            return;
        }
        self.note_lacking(geometry);
        if let Some(name) = beyond {
            self.note_file(name, "is one file too many");
        }
    }
}

// The store of this size that is in the folder.
fn open_at<F: FolderRef>(at: &F, geometry: &Geometry) -> Result<OpenStore<F>, Unopened>
where
    <F::Runtime as Files>::File: SharedFile,
{
    let folder = at.folder();
    let guard = folder.noted(FaultPlace::Folder, folder.lock())?;
    let areas = renewed_areas(at, geometry)?;
    if let Some(file) = folder.noted(FaultPlace::Name(StoreName::Size), folder.size_file())? {
        folder.make_stable(FaultPlace::Name(StoreName::Size), &file)?;
    }
    folder.make_stable(FaultPlace::Folder, &guard)?;
    Ok(OpenStore { areas, guard })
}

// The areas of the store's files. Where a fault has left its mark the files are copied before.
fn renewed_areas<F: FolderRef>(at: &F, geometry: &Geometry) -> Result<Vec<StoreArea<F>>, Unopened>
where
    <F::Runtime as Files>::File: SharedFile,
{
    let folder = at.folder();
    let beyond = folder.first_beyond(geometry)?;
    let is_marked = folder.stands(StoreName::Mark)?;
    let areas = open_areas(at, geometry, beyond, Access::Change)?;
    if beyond.is_some() || !have_lengths(geometry, &areas) {
        folder.note_misfit(geometry, beyond);
        return Ok(areas);
    }
    agrees(folder.alloc, folder, geometry)?;
    if !is_marked {
        return Ok(areas);
    }
    drop(areas);
    renew_store(&mut Directory::new(folder), geometry)?;
    Ok(open_areas(at, geometry, None, Access::Change)?)
}

// The areas of a store's files, which are opened in the order of the areas, and after them that of this name.
fn open_areas<F: FolderRef>(
    at: &F,
    geometry: &Geometry,
    beyond: Option<FileName>,
    access: Access,
) -> Result<Vec<StoreArea<F>>, FolderFault>
where
    <F::Runtime as Files>::File: SharedFile,
{
    let mut areas = Vec::new(at.folder().alloc);
    for area in 0..geometry.nodes as usize + geometry.segments as usize {
        if let Some(file) = StoreFile::of_area(geometry, area) {
            add_area(at, &mut areas, file.name, access)?;
        }
    }
    if let Some(name) = beyond {
        add_area(at, &mut areas, name, access)?;
    }
    Ok(areas)
}

// Opens the file of this name as one area more.
fn add_area<F: FolderRef>(
    at: &F,
    areas: &mut Vec<StoreArea<F>>,
    name: FileName,
    access: Access,
) -> Result<(), FolderFault>
where
    <F::Runtime as Files>::File: SharedFile,
{
    let place = FaultPlace::Name(StoreName::File(name));
    let area = at.folder().noted(place, open_area(at, name, access))?;
    areas.push(area).map_err(AllocError::from)?;
    Ok(())
}

// The area of the file of this name, whose lock is taken.
fn open_area<F: FolderRef>(at: &F, name: FileName, access: Access) -> io::Result<StoreArea<F>>
where
    <F::Runtime as Files>::File: SharedFile,
{
    let folder = at.folder();
    let mark = folder.path_of(StoreName::Mark)?;
    let mut options = OpenOptions::new();
    options.read(true).write(access == Access::Change);
    let (file, len) = folder.open_file(name, &options)?;
    let tried = match access {
        Access::Change => file.try_lock(),
        Access::Read => file.try_lock_shared(),
    };
    folder.locked(&file, tried)?;
    let area = FileArea::of_file(file, len)?;
    Ok(area.witnessed_by(FileWatch::new(at.share()?, name, mark)))
}

impl<R: Files + Drop> StoreFolder<R, String>
where
    R::File: SharedFile,
{
    /// As `open`, with areas that are owners of the folder.
    ///
    /// # Errors
    ///
    /// As of `open`.
    pub fn open_shared(
        folder: &SharedFolder<R>,
        geometry: &Geometry,
    ) -> Result<OpenStore<SharedFolder<R>>, Unopened> {
        open_at(folder, geometry)
    }
}

impl<R: Files, P: AsPath> SizeSource for StoreFolder<R, P>
where
    R::File: HeldFile,
{
    ghost use Rattle.std.specs.Prelude.{None, [], false};

    ghost stated = { λ _. None };

    ghost logs = { λ _. [] };

    ghost segments = { λ _. [] };

    ghost honest = { λ _. false };

    fn stated(&self) -> Result<Option<Vec<u8>>, FolderFault> {
        self.noted(FaultPlace::Name(StoreName::Size), self.read_size())
    }

    fn file_lens(&self) -> Result<FileLens, FolderFault> {
        let mut lens = FileLens {
            logs: [None; LOGS],
            segments: [None; SEGMENTS],
        };
        for node in 0..LOGS {
            lens.logs[node] = self.noted_len(FileName::Log(node as u16))?;
        }
        for place in 0..SEGMENTS {
            lens.segments[place] = self.noted_len(FileName::Segment(place as u32 + 1))?;
        }
        Ok(lens)
    }

    fn says_no_size(&self) -> FolderFault {
        self.note_fault(FaultPlace::Name(StoreName::Size), no_size())
    }

    fn says_other_size(&self, stated: &Geometry) {
        self.note_size(stated);
        self.note_lacking(stated);
    }

    fn says_nothing(&self) {
        self.note_unstated();
    }
}

impl<R: Files, P: AsPath> StoreFolder<R, P>
where
    R::File: HeldFile,
{
    fn noted_len(&self, name: FileName) -> Result<Option<u64>, FolderFault> {
        self.noted(FaultPlace::Name(StoreName::File(name)), self.len_of(name))
    }

    // The first name of a store's file above those of the geometry that is taken.
    fn first_beyond(&self, geometry: &Geometry) -> Result<Option<FileName>, FolderFault> {
        for node in geometry.nodes..MAX_NODE + 1 {
            let name = FileName::Log(node);
            if self.stands(StoreName::File(name))? {
                return Ok(Some(name));
            }
        }
        for segment in geometry.segments + 1..MAX_SEGMENT + 1 {
            let name = FileName::Segment(segment);
            if self.stands(StoreName::File(name))? {
                return Ok(Some(name));
            }
        }
        Ok(None)
    }

    // Whether something stands under this name.
    fn stands(&self, name: StoreName) -> Result<bool, FolderFault> {
        self.noted(FaultPlace::Name(name), self.is_taken(name))
    }
}

// Why a store with the mark of a fault is not copied.
fn marked() -> Error {
    let why = "a file had failed: recover the store first";
    Error::new(ErrorKind::InvalidData, why)
}

// Whether these are as many areas as the geometry has, each as long as it says.
fn have_lengths<A: Area>(geometry: &Geometry, areas: &[A]) -> bool {
    for (place, area) in areas.iter().enumerate() {
        let len = area.len();
        match StoreFile::of_area(geometry, place) {
            Some(file) if file.len == len => {}
            _ => return false,
        }
    }
    true
}
