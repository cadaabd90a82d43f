//! A folder in which a store is made, or its files are renewed.
ghost use Rattle.std.specs.Prelude.{◌≡◌, ◌≢◌, true, Bool, IfOk, None, OnOk, OnErr, is_some};
ghost use Rattle.lc_folder.specs.Files.{Files};
ghost use Rattle.lc_folder.specs.Making.{ChangesAt, Puts, new_bytes, new_name};
ghost use Rattle.lc_folder.specs.Renewing.{Copies, Removes, Replaces};
ghost use Rattle.lc_folder.specs.declared.store_name.StoreName.{StoreName as Name};
ghost use Rattle.lc_folder.specs.declared.store_name.StoreName.TheVariants.{Copy as CopyOf};

use crate::file_name::FileName;
use crate::new_file::NewFile;
use crate::store_name::StoreName;

/// Why something in a folder could not be looked at, made or opened.
#[derive(Clone, Copy, PartialEq, Eq)]
pub enum FolderFault {
    /// The system refused it, a device failed, or another process has the folder.
    Failed,
    /// There is no memory.
    NoMemory,
}

/// Why a file was not made.
#[derive(Clone, Copy, PartialEq, Eq)]
pub enum MakeFault {
    /// Something stands under its name, and stays as it is.
    Exists,
    /// The system refused it: the file may have been begun.
    Begun(FolderFault),
}

/// A folder: what stands under the names of a store in it, and which of these names a stop leaves. While it is `honest`
/// nothing else changes what is there. Nothing is said of a folder that is not honest.
pub trait Folder {
    /// What stands under each name, with its bytes.
    ghost files: { Self → Files };

    /// The names that a stop leaves.
    ghost stable: { Self → Name → Bool };

    /// The folder keeps to this.
    ghost honest: { Self → Bool };

    /// Whether something stands under the name. A link counts, wherever it leads.
    fn is_taken(&mut self, name: StoreName) -> Result<bool, FolderFault>
        ensures honest { honest self.new ≡ honest self.old }
        ensures same { honest self.old ≡ true → files self.new ≡ files self.old }
        ensures told { IfOk result (λ taken. honest self.old ≡ true → taken ≡ is_some (files self.old name)) };

    /// Keeps other processes from making or opening a store in it.
    fn hold(&mut self) -> Result<(), FolderFault>
        ensures honest { honest self.new ≡ honest self.old }
        ensures same { honest self.old ≡ true → files self.new ≡ files self.old };

    /// Makes a file that was not there, and makes its bytes stable. Nothing that stands under its name is opened or
    /// followed.
    fn make(&mut self, file: NewFile) -> Result<(), MakeFault>
        ensures honest { honest self.new ≡ honest self.old }
        ensures made { OnOk result (honest self.old ≡ true
            → Puts (new_name file) (new_bytes file) (files self.old) (files self.new)) }
        ensures fault { OnErr result (honest self.old ≡ true
            → ChangesAt (new_name file) (files self.old) (files self.new)) }
        ensures exists { result ≡ Err MakeFault.Exists → honest self.old ≡ true
            → (files self.new ≡ files self.old) × (files self.old (new_name file) ≢ None) };

    /// Takes away what stands under a name, if anything does. Only a file is taken away, or a link.
    fn remove(&mut self, name: StoreName) -> Result<(), FolderFault>
        ensures honest { honest self.new ≡ honest self.old }
        ensures gone { OnOk result (honest self.old ≡ true → Removes name (files self.old) (files self.new)) }
        ensures fault { OnErr result (honest self.old ≡ true → files self.new ≡ files self.old) };

    /// Makes a stable copy of a file of the store under the name of its copy, where nothing stood.
    fn copy(&mut self, name: FileName) -> Result<(), FolderFault>
        ensures honest { honest self.new ≡ honest self.old }
        ensures copied { OnOk result (honest self.old ≡ true → Copies name (files self.old) (files self.new)) }
        ensures fault { OnErr result (honest self.old ≡ true
            → ChangesAt (CopyOf name) (files self.old) (files self.new)) };

    /// Puts the copy of a file in the file's place.
    fn replace(&mut self, name: FileName) -> Result<(), FolderFault>
        ensures honest { honest self.new ≡ honest self.old }
        ensures replaced { OnOk result (honest self.old ≡ true → Replaces name (files self.old) (files self.new)) }
        ensures fault { OnErr result (honest self.old ≡ true → files self.new ≡ files self.old) };

    /// Makes all names stable.
    fn sync(&mut self) -> Result<(), FolderFault>
        ensures honest { honest self.new ≡ honest self.old }
        ensures same { honest self.old ≡ true → files self.new ≡ files self.old }
        ensures stable { OnOk result (honest self.old ≡ true → (name : Name)
            → stable self.new name ≡ is_some (files self.new name)) };
}
