//! The folder of a store.
ghost use Rattle.std.specs.Arc.{arc_value};
ghost use Rattle.std.specs.Prelude.{◌≡◌, true, IfOk, string_bytes};
ghost use Rattle.std.specs.Fs.{asks_create_new, asks_write};
ghost use Rattle.lc_files.specs.Folders.{folder_path, folder_runtime};

use crate::lock_holder::{LockHolder, lock_holder};
use crate::shared_file::SharedFile;
use lc_disk::{HeldFile, open_regular};
use lc_folder::{FaultPlace, FileFault, FileName, FolderFault, StoreFile, StoreName};
use lc_record::Geometry;
use std::alloc::{AllocError, Global};
use std::fs::{File, Metadata, OpenFile, OpenOptions, TryLockError};
use std::io::{Error, ErrorKind};
use std::os::unix::fs::{FileExt, FileTypeExt};
use std::path::{AsPath, Path};
use std::rt::Files;
use std::sync::atomic::{AtomicBool, Ordering};
use std::sync::{Arc, OnceLock};
use std::{fs, io};

// More bytes than any size takes.
const LONGEST_SIZE_FILE: u64 = 128;

/// A folder with a path of its own that has several owners.
pub type SharedFolder<R> = Arc<StoreFolder<R, String>, Global>;

/// The folder of a store, by its path, with what went wrong in it: a fault that is answered does not say why. Threads
/// may share it, and areas of its files that note their faults in it.
#[derive(Drop)]
pub struct StoreFolder<R, P> {
    pub(crate) alloc: Global,
    pub(crate) rt: R,
    path: P,
    fault: OnceLock<FileFault>,
    holder: OnceLock<u32>,
    other_size: OnceLock<Geometry>,
    is_unmarked: AtomicBool,
    is_unstated: AtomicBool,
}

impl<R: Drop> StoreFolder<R, String> {
    /// The folder at this path, of which nothing is asked yet, for `open_shared`.
    ///
    /// # Errors
    ///
    /// Only where there is no memory.
    pub fn shared(alloc: Global, rt: R, path: &str) -> Result<SharedFolder<R>, AllocError>
        ensures runtime { IfOk result (λ folder. folder_runtime (arc_value folder) ≡ rt) }
        ensures path { IfOk result (λ folder. string_bytes (folder_path (arc_value folder)) ≡ path.now) }
    {
        let path = String::from_str(alloc, path)?;
        Ok(Arc::new(alloc, StoreFolder::new(alloc, rt, path))?)
    }
}

impl<R, P: AsPath> StoreFolder<R, P> {
    /// The folder at this path, of which nothing is asked yet.
    pub fn new(alloc: Global, rt: R, path: P) -> StoreFolder<R, P>
        ensures runtime { folder_runtime result ≡ rt }
        ensures path { folder_path result ≡ path }
    {
        StoreFolder {
            alloc,
            rt,
            path,
            fault: OnceLock::new(),
            holder: OnceLock::new(),
            other_size: OnceLock::new(),
            is_unmarked: AtomicBool::new(false),
            is_unstated: AtomicBool::new(false),
        }
    }

    /// What failed first, if anything did.
    pub fn fault(&self) -> Option<FileFault> {
        self.fault.get().copied()
    }

    // Notes what failed, unless something did before.
    pub(crate) fn note(&self, place: FaultPlace, error: Error) {
        let _ = self.fault.try_set(FileFault { place, error });
    }

    // Notes the size that the store's own file says, which is another than was asked for.
    pub(crate) fn note_size(&self, stated: &Geometry) {
        let _ = self.other_size.try_set(*stated);
    }

    // Notes that no file says the store's size.
    pub(crate) fn note_unstated(&self) {
        self.is_unstated.store(true, Ordering::SeqCst);
    }

    // What a call gave; its error is noted, unless there was no memory.
    pub(crate) fn noted<T>(
        &self,
        place: FaultPlace,
        given: io::Result<T>,
    ) -> Result<T, FolderFault> {
        match given {
            Ok(value) => Ok(value),
            Err(error) => Err(self.note_fault(place, error)),
        }
    }

    // The fault that this error is, which is noted unless there was no memory.
    pub(crate) fn note_fault(&self, place: FaultPlace, error: Error) -> FolderFault {
        if error.kind() == ErrorKind::OutOfMemory {
            return FolderFault::NoMemory;
        }
        self.note(place, error);
        FolderFault::Failed
    }

    // The path of a name in it. The empty text is the path of no folder.
    pub(crate) fn path_of(&self, name: StoreName) -> io::Result<String> {
        let folder = self.path.path_text();
        if folder.is_empty() {
            return Err(no_folder());
        }
        Ok(format!(in self.alloc; "{folder}/{name}")?)
    }

    // The path of the folder that it stands in.
    fn parent_path(&self) -> io::Result<String> {
        let folder = self.path.path_text();
        Ok(format!(in self.alloc; "{folder}/..")?)
    }

    // Who had the lock that was not to be had, where that is why this error came.
    fn holder_behind(&self, error: Error) -> LockHolder {
        LockHolder(match error.kind() {
            ErrorKind::WouldBlock => self.holder.get().copied(),
            _ => None,
        })
    }

    /// Says on standard error what failed first, that no mark of it could be made, and of the store's size that it is
    /// another than was asked for, or that no file says it.
    pub fn tell(&self)
    where
        R: Eprint,
    {
        let folder = self.path.path_text();
        if let Some(FileFault { place, error }) = self.fault() {
            let holder = self.holder_behind(error);
            let _ = match place {
                _ if folder.is_empty() => eprintln!(&self.rt; "lcrvm: '': {error}"),
                FaultPlace::Folder => eprintln!(&self.rt; "lcrvm: {folder}: {error}{holder}"),
                FaultPlace::Parent => eprintln!(&self.rt; "lcrvm: {folder}/..: {error}"),
                FaultPlace::Name(name) => eprintln!(&self.rt;
                    "lcrvm: {folder}/{name}: {error}{holder}"
                ),
            };
        }
        if self.is_unmarked.load(Ordering::SeqCst) {
            let mark = StoreName::Mark;
            let _ = eprintln!(&self.rt;
                "lcrvm: {folder}/{mark}: not made: unmount the file system before the store is opened again"
            );
        }
        self.tell_size();
    }

    fn tell_size(&self)
    where
        R: Eprint,
    {
        let folder = self.path.path_text();
        let name = StoreName::Size;
        if let Some(stated) = self.other_size.get() {
            let nodes = stated.nodes;
            let segments = stated.segments;
            let pages = stated.pages;
            let words = stated.words;
            let _ = eprintln!(&self.rt;
                "lcrvm: {folder}/{name}: nodes {nodes} segments {segments} pages {pages} words {words}"
            );
        }
        if self.is_unstated.load(Ordering::SeqCst) {
            let _ = eprintln!(&self.rt;
                "lcrvm: {folder}: the size is only as found: it has no {name}"
            );
        }
    }

    /// Says on standard error that something stands under a name, which kept a store from being made.
    pub fn tell_taken(&self, name: StoreName)
    where
        R: Eprint,
    {
        let folder = self.path.path_text();
        let _ = eprintln!(&self.rt; "lcrvm: {folder}/{name}: is there already");
    }
}

impl<R: Files, P: AsPath> StoreFolder<R, P>
where
    R::File: SharedFile,
{
    // The folder, which no other process can open for itself alone until this is closed.
    pub(crate) fn lock_shared(&self) -> io::Result<R::File> {
        let folder = self.opened()?;
        self.locked(&folder, folder.try_lock_shared())?;
        Ok(folder)
    }
}

impl<R: Files, P: AsPath> StoreFolder<R, P>
where
    R::File: HeldFile,
{
    // Says on standard error that a file stands, if one does.
    pub(crate) fn tell_standing(&self, name: StoreName)
    where
        R: Eprint,
    {
        let folder = self.path.path_text();
        if let Ok(true) = self.is_taken(name) {
            let _ = eprintln!(&self.rt; "lcrvm: {folder}/{name}: left in place");
        }
    }

    // The folder, opened.
    fn opened(&self) -> io::Result<R::File> {
        let folder = self.path.path_text();
        if folder.is_empty() {
            return Err(no_folder());
        }
        self.opened_at(folder)
    }

    fn opened_at<Q: AsPath + Copy + Drop>(&self, path: Q) -> io::Result<R::File> {
        if !fs::metadata(&self.rt, path)?.is_dir() {
            return Err(Error::new(ErrorKind::NotADirectory, "not a folder"));
        }
        File::open(&self.rt, path)?.beside_standard_streams()
    }

    // The folder, which no other process can open so until this is closed.
    pub(crate) fn lock(&self) -> io::Result<R::File> {
        let folder = self.opened()?;
        self.locked(&folder, folder.try_lock())?;
        Ok(folder)
    }

    // What became of a lock of this file. Who has it is noted, where that can be found.
    pub(crate) fn locked(&self, file: &R::File, tried: Result<(), TryLockError>) -> io::Result<()> {
        match tried {
            Ok(()) => Ok(()),
            Err(TryLockError::WouldBlock) => {
                self.note_holder(file);
                Err(Error::new(ErrorKind::WouldBlock, "store in use"))
            }
            Err(TryLockError::Error(error)) => Err(error),
        }
    }

    fn note_holder(&self, file: &R::File) {
        let Ok(metadata) = file.metadata() else {
            return;
        };
        if let Ok(Some(process)) = lock_holder(self.alloc, &self.rt, &metadata) {
            let _ = self.holder.try_set(process);
        }
    }

    // How long the file of this name is, where there is one.
    pub(crate) fn len_of(&self, name: FileName) -> io::Result<Option<u64>> {
        let path = self.path_of(StoreName::File(name))?;
        match fs::metadata(&self.rt, &path) {
            Ok(metadata) if !metadata.is_file() => Err(no_file(&metadata)),
            Ok(metadata) => Ok(Some(metadata.len())),
            Err(error) if error.kind() == ErrorKind::NotFound => Ok(None),
            Err(error) => Err(error),
        }
    }

    // Whether something stands under this name. A link counts, wherever it leads.
    pub(crate) fn is_taken(&self, name: StoreName) -> io::Result<bool> {
        let path = self.path_of(name)?;
        Ok(self.standing(&path)?.is_some())
    }

    // What stands at this path, if anything does. A link counts, wherever it leads.
    pub(crate) fn standing(&self, path: &str) -> io::Result<Option<Metadata>> {
        match fs::symlink_metadata(&self.rt, path) {
            Ok(metadata) => Ok(Some(metadata)),
            Err(error) if error.kind() == ErrorKind::NotFound => Ok(None),
            Err(error) => Err(error),
        }
    }

    // Takes away the file of this name, if there is one. What is no file stays, and is the error.
    pub(crate) fn remove(&self, name: StoreName) -> io::Result<()> {
        let path = match name {
            StoreName::Copy(file) => self.copy_path(file)?,
            _ => self.path_of(name)?,
        };
        match self.standing(&path)? {
            Some(metadata) if !metadata.is_file() => Err(no_file(&metadata)),
            Some(_) => fs::remove_file(&self.rt, &path),
            None => Ok(()),
        }
    }

    // Where the file of this name is: of a link that is where it leads to.
    fn file_path(&self, name: FileName) -> io::Result<String> {
        let path = self.path_of(StoreName::File(name))?;
        if fs::symlink_metadata(&self.rt, &path)?.is_symlink() {
            Ok(self.rt.canonicalize(self.alloc, &path)?.into_string())
        } else {
            Ok(path)
        }
    }

    // Where the copy of this file is made: beside it.
    pub(crate) fn copy_path(&self, name: FileName) -> io::Result<String> {
        self.beside(&self.file_path(name)?)
    }

    fn beside(&self, path: &str) -> io::Result<String> {
        Ok(format!(in self.alloc; "{path}.new")?)
    }

    // Puts the copy of a file in its place. Of a link the folder that it leads to is synced: it may be another one.
    pub(crate) fn replace(&self, name: FileName) -> io::Result<()> {
        let named = self.path_of(StoreName::File(name))?;
        let path = self.file_path(name)?;
        fs::rename(&self.rt, &self.beside(&path)?, &path)?;
        match Path::new(&path).parent() {
            Some(folder) if path != named => self.opened_at(folder)?.sync_all(),
            _ => Ok(()),
        }
    }

    // A file of the store, open to be copied, with its length, which no other process can open so until this is closed.
    // Some systems want a file that is locked so to be open for writing.
    pub(crate) fn open_to_copy(&self, name: FileName) -> io::Result<(R::File, u64)> {
        let mut options = OpenOptions::new();
        let (file, len) = self.open_file(name, options.read(true).write(true))?;
        self.locked(&file, file.try_lock())?;
        Ok((file, len))
    }

    // A regular file of the store, opened so, with its length.
    pub(crate) fn open_file(
        &self,
        name: FileName,
        options: &OpenOptions,
    ) -> io::Result<(R::File, u64)> {
        let path = self.path_of(StoreName::File(name))?;
        self.open_plain(&path, options)
    }

    fn open_plain(&self, path: &str, options: &OpenOptions) -> io::Result<(R::File, u64)> {
        let metadata = fs::metadata(&self.rt, path)?;
        if metadata.is_file() {
            open_regular(&self.rt, options, path)
        } else {
            Err(no_file(&metadata))
        }
    }

    // The bytes of the file that says the size, where there is one.
    pub(crate) fn read_size(&self) -> io::Result<Option<Vec<u8>>> {
        let path = self.path_of(StoreName::Size)?;
        if self.standing(&path)?.is_none() {
            return Ok(None);
        }
        let mut options = OpenOptions::new();
        let (file, len) = self.open_plain(&path, options.read(true))?;
        if len > LONGEST_SIZE_FILE {
            return Err(no_size());
        }
        let mut bytes = vec![in self.alloc; 0; len as usize]?;
        file.read_exact_at(&mut bytes, 0)?;
        Ok(Some(bytes))
    }

    // The file that says the size, where there is one, open to be made stable: who copied it may not have done so.
    pub(crate) fn size_file(&self) -> io::Result<Option<R::File>> {
        let path = self.path_of(StoreName::Size)?;
        if self.standing(&path)?.is_none() {
            return Ok(None);
        }
        let mut options = OpenOptions::new();
        let (file, _) = self.open_plain(&path, options.read(true))?;
        Ok(Some(file))
    }

    // The first file of a store of this size that is not there, or has another length, is noted.
    pub(crate) fn note_lacking(&self, geometry: &Geometry) {
        for area in 0..geometry.nodes as usize + geometry.segments as usize {
            if let Some(file) = StoreFile::of_area(geometry, area) {
                match self.len_of(file.name) {
                    Ok(Some(len)) if len == file.len as u64 => {}
                    Ok(Some(_)) => self.note_file(file.name, "has another length"),
                    Ok(None) => self.note_file(file.name, "is missing"),
                    Err(error) => self.note(FaultPlace::Name(StoreName::File(file.name)), error),
                }
            }
        }
    }

    pub(crate) fn note_file(&self, name: FileName, why: &'static str) {
        let place = FaultPlace::Name(StoreName::File(name));
        self.note(place, Error::new(ErrorKind::InvalidData, why));
    }

    // Makes the names in it stable, and then its own name. That the folder which it stands in cannot be synced is noted
    // alone.
    pub(crate) fn sync(&self) -> io::Result<()> {
        self.opened()?.sync_all()?;
        match self.sync_parent() {
            Ok(()) => Ok(()),
            Err(error) if error.kind() == ErrorKind::OutOfMemory => Err(error),
            Err(error) => {
                self.note(FaultPlace::Parent, error);
                Ok(())
            }
        }
    }

    fn sync_parent(&self) -> io::Result<()> {
        let path = self.parent_path()?;
        self.opened_at(&path)?.sync_all()
    }

    // Leaves the mark, so that who opens the store next copies its files first. What stands under its name is one.
    pub(crate) fn mark(&self, path: &str) {
        match exclusive().open(&self.rt, path) {
            Ok(_) => {}
            Err(error) if error.kind() == ErrorKind::AlreadyExists => {}
            Err(_) => self.is_unmarked.store(true, Ordering::SeqCst),
        }
    }
}

// The options by which a file is made that was not there: what stands under its name is neither opened nor followed.
pub(crate) fn exclusive() -> OpenOptions
    ensures new { asks_create_new result ≡ true }
    ensures write { asks_write result ≡ true }
{
    let mut options = OpenOptions::new();
    options.write(true).create_new(true);
    options
}

// Why the file of the size says none.
pub(crate) fn no_size() -> Error {
    Error::new(ErrorKind::InvalidData, "not the size of a store")
}

// Why the empty text is no folder.
fn no_folder() -> Error {
    Error::new(ErrorKind::NotFound, "the empty text names no folder")
}

// Why what stands under a name is no file of a store.
pub(crate) fn no_file(metadata: &Metadata) -> Error {
    let what = metadata.file_type();
    let why = if what.is_dir() {
        "a folder, and not a regular file"
    } else if what.is_symlink() {
        "a link, and not a regular file"
    } else if what.is_fifo() {
        "a pipe, and not a regular file"
    } else {
        "not a regular file"
    };
    Error::new(ErrorKind::InvalidInput, why)
}
