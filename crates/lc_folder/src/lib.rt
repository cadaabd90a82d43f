//! What a store has in a folder of any kind: names and a size, and files that are made and renewed whole or not at all.
#![tactic(auto)]

mod file_fault;
mod file_lens;
mod file_name;
mod file_row;
mod folder;
mod growth;
mod making;
mod misfit;
mod new_file;
mod renewing;
mod size_source;
mod size_text;
mod sizing;
mod store_file;
mod store_name;
mod want_of_memory;

pub use file_fault::{FaultPlace, FileFault};
pub use file_lens::{FileLens, LOGS, SEGMENTS};
pub use file_name::FileName;
pub use file_row::{FileRow, RowFault};
pub use folder::{Folder, FolderFault, MakeFault};
pub use growth::first_lacking;
pub use making::{Cause, Unmade, make_store};
pub use misfit::{Misfit, write_misfit};
pub use new_file::NewFile;
pub use renewing::renew_store;
pub use size_source::SizeSource;
pub use size_text::SizeText;
pub use sizing::{SizeFault, Unopened, agrees, size_found};
pub use store_file::StoreFile;
pub use store_name::StoreName;
