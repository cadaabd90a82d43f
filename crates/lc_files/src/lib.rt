//! The folder of a store in the system: it is opened for one process alone, and what failed in it is noted.
#![tactic(auto)]

mod copy_directory;
mod copying;
mod directory;
mod folder_ref;
mod lock_holder;
mod open_store;
mod owned_file;
mod shared_file;
mod store_folder;
mod watch;

pub use copy_directory::CopyDirectory;
pub use directory::Directory;
pub use folder_ref::FolderRef;
pub use lc_folder::{
    Cause, FaultPlace, FileFault, FileLens, FileName, Folder, FolderFault, MakeFault, Misfit,
    NewFile, SizeFault, SizeSource, StoreFile, StoreName, Unmade, Unopened, agrees, first_lacking,
    make_store, renew_store, size_found, write_misfit,
};
pub use open_store::{Look, OpenStore};
pub use owned_file::OwnedFile;
pub use shared_file::SharedFile;
pub use store_folder::{SharedFolder, StoreFolder};
pub use watch::{FileWatch, StoreArea};
