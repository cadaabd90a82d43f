//! The making of a store's files.
ghost use Rattle.std.specs.Prelude.{◌≡◌, ◌≤◌, ◌<◌, ℕ, true, false, None, IfOk};
ghost use Rattle.std.specs.Prelude.{MatchOption};
ghost use Rattle.lc_folder.specs.Making.{Inits, IsOther, IsTaken, NoneTaken, new_count, new_name_at};
ghost use Rattle.lc_folder.specs.declared.store_name.StoreName.{StoreName as Name};

use crate::folder::{Folder, FolderFault, MakeFault};
use crate::new_file::NewFile;
use crate::store_name::StoreName;
use lc_record::Geometry;

/// Why the files of a store were not made.
#[derive(Clone, Copy, PartialEq, Eq)]
pub enum Cause {
    /// Something stands under this name, which some store gives in its folder.
    Exists(StoreName),
    /// The folder failed, another process has it, or there is no memory.
    Folder(FolderFault),
}

/// Why the files of a store were not made, and whether one of them is left that could not be taken away.
#[derive(Clone, Copy, PartialEq, Eq)]
pub struct Unmade {
    pub cause: Cause,
    pub is_left: bool,
}

/// Makes the files of a new store in a folder, unless something stands under a name that some store gives there: that
/// is looked at of all names before the first file is made, and then the folder is held. What was made before a fault
/// is taken away again.
pub fn make_store<F: Folder>(folder: &mut F, geometry: &Geometry) -> Result<(), Unmade>
    ensures inits { F.honest folder.old ≡ true
        → Inits geometry.now (F.files folder.old) (F.files folder.new) (F.stable folder.new) result }
{
    match first_taken(folder) {
        Ok(None) => make_held(folder, geometry),
        Ok(Some(name)) => Err(nothing_left(Cause::Exists(name))),
        Err(fault) => Err(nothing_left(Cause::Folder(fault))),
    }
}

// Nothing was made, or all that was made is taken away.
fn nothing_left(cause: Cause) -> Unmade
    ensures { result ≡ record { cause = cause; is_left = false } }
{
    Unmade {
        cause,
        is_left: false,
    }
}

// The first name that some store gives under which something stands.
fn first_taken<F: Folder>(folder: &mut F) -> Result<Option<StoreName>, FolderFault>
    ensures honest { F.honest folder.new ≡ F.honest folder.old }
    ensures same { F.honest folder.old ≡ true → F.files folder.new ≡ F.files folder.old }
    ensures told { IfOk result (λ found. F.honest folder.old ≡ true
        → MatchOption found (NoneTaken (F.files folder.old)) (λ name. IsTaken name (F.files folder.old))) }
{
    let mut place = 0;
    while let Some(name) = StoreName::at(place) {
        if folder.is_taken(name)? {
            return Ok(Some(name));
        }
        place += 1;
    }
    Ok(None)
}

// Holds the folder, and makes the files, where no name is taken.
fn make_held<F: Folder>(folder: &mut F, geometry: &Geometry) -> Result<(), Unmade>
    ensures inits { F.honest folder.old ≡ true → NoneTaken (F.files folder.old)
        → Inits geometry.now (F.files folder.old) (F.files folder.new) (F.stable folder.new) result }
{
    match folder.hold() {
        Ok(()) => make_all(folder, geometry),
        Err(fault) => Err(nothing_left(Cause::Folder(fault))),
    }
}

// Makes each file in turn, and then their names stable.
fn make_all<F: Folder>(folder: &mut F, geometry: &Geometry) -> Result<(), Unmade>
    ensures inits { F.honest folder.old ≡ true → NoneTaken (F.files folder.old)
        → Inits geometry.now (F.files folder.old) (F.files folder.new) (F.stable folder.new) result }
{
    let mut place = 0;
    while let Some(file) = NewFile::at(geometry, place) {
        match folder.make(file) {
            Ok(()) => place += 1,
            Err(MakeFault::Exists) => {
                let cause = Cause::Exists(file.name());
                return Err(taken_away(folder, geometry, place, cause));
            }
            Err(MakeFault::Begun(fault)) => {
                return Err(taken_away(folder, geometry, place + 1, Cause::Folder(fault)));
            }
        }
    }
    match folder.sync() {
        Ok(()) => Ok(()),
        Err(fault) => Err(taken_away(folder, geometry, place, Cause::Folder(fault))),
    }
}

// Takes away the first so many files, the last of them first. What cannot be taken away is left, and the others go.
fn taken_away<F: Folder>(folder: &mut F, geometry: &Geometry, count: usize, cause: Cause) -> Unmade
    requires { count ≤ new_count geometry.now }
    ensures cause { result.cause ≡ cause }
    ensures others { F.honest folder.old ≡ true → (other : Name) → IsOther geometry.now count other
        → F.files folder.new other ≡ F.files folder.old other }
    ensures gone { F.honest folder.old ≡ true → result.is_left ≡ false → (place : ℕ) → place < count
        → F.files folder.new (new_name_at geometry.now place) ≡ None }
{
    let mut is_left = false;
    let mut left = count;
    while left > 0 {
        left -= 1;
        if let Some(file) = NewFile::at(geometry, left) {
            is_left |= folder.remove(file.name()).is_err();
        }
    }
    Unmade { cause, is_left }
}
