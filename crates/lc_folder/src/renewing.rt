//! Copies that take the place of files.
ghost use Rattle.std.specs.Prelude.{◌≡◌, true, None, OnOk};
ghost use Rattle.lc_folder.specs.Renewing.{KeepsFiles};
ghost use Rattle.lc_folder.specs.declared.store_name.StoreName.TheVariants.{Copy as CopyOf, Mark as MarkOf};

use crate::file_name::FileName;
use crate::folder::{Folder, FolderFault};
use crate::store_file::StoreFile;
use crate::store_name::StoreName;
use lc_record::Geometry;

/// Puts a stable copy in the place of each file of a store, makes the names stable, and takes the mark of a fault away.
/// What is left of an earlier copy is taken away first, and each copy is made of a file that was not there.
///
/// So what the system has of a file in its memory alone is then on the device, or it was lost and is read as such. A
/// page that could not be written is called clean by the system, and is not written again where it stands.
pub fn renew_store<F: Folder>(folder: &mut F, geometry: &Geometry) -> Result<(), FolderFault>
    // Whatever fails, each file has the bytes that it had.
    ensures keeps { F.honest folder.old ≡ true → KeepsFiles (F.files folder.old) (F.files folder.new) }
    ensures unmarked { OnOk result (F.honest folder.old ≡ true → F.files folder.new MarkOf ≡ None) }
{
    let mut area = 0;
    while let Some(file) = StoreFile::of_area(geometry, area) {
        renew_file(folder, file.name)?;
        area += 1;
    }
    folder.sync()?;
    folder.remove(StoreName::Mark)
}

// The same of one file.
fn renew_file<F: Folder>(folder: &mut F, name: FileName) -> Result<(), FolderFault>
    ensures honest { F.honest folder.new ≡ F.honest folder.old }
    ensures keeps { F.honest folder.old ≡ true → KeepsFiles (F.files folder.old) (F.files folder.new) }
    ensures no_copy { OnOk result (F.honest folder.old ≡ true → F.files folder.new (CopyOf name) ≡ None) }
{
    folder.remove(StoreName::Copy(name))?;
    folder.copy(name)?;
    folder.replace(name)
}
