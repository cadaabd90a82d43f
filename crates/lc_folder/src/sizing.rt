//! The size of the store that is in a folder.
ghost use Rattle.std.specs.Prelude.{◌≡◌, ◌↔◌, ℕ, true, IfErr, IfOk, IsTrue, OnOk, None, Some};
ghost use Rattle.lc_record.specs.declared.geometry.Geometry.{Geometry as Sizes};
ghost use Rattle.lc_folder.specs.Found.{IsMisfit};
ghost use Rattle.lc_folder.specs.SizeText.{IsSameSize, size_file_text};
ghost use Rattle.lc_folder.specs.Sizes.{Agrees, IsFirstDifference, IsSizeOf, SaysOther};
ghost use Rattle.lc_folder.specs.declared.misfit.Misfit.{Misfit as TheMisfit};
ghost use Rattle.lc_folder.specs.declared.sizing.SizeFault.TheVariants.{Misfit as HasMisfit};

use crate::folder::FolderFault;
use crate::misfit::Misfit;
use crate::size_source::SizeSource;
use crate::size_text::size_said;
use crate::store_file::StoreFile;
use lc_record::Geometry;
use std::alloc::Global;

/// Why a folder tells no size.
#[derive(Clone, Copy, PartialEq, Eq)]
pub enum SizeFault {
    /// No file says it, and the other files do not fit together.
    Misfit(Misfit),
    /// A file could not be looked at, or the file of the size says none.
    Folder(FolderFault),
}

/// Why a store of some size is not opened in a folder.
#[derive(Clone, Copy, PartialEq, Eq)]
pub enum Unopened {
    /// The folder or one of its files could not be opened, or another process has the store.
    Folder(FolderFault),
    /// The file of the size says another one: this is the first area at which the files of the two differ, or at which
    /// one of them has no more.
    OtherSize { area: u32 },
}

impl From<FolderFault> for Unopened {
    ghost use Rattle.lc_folder.specs.declared.sizing.Unopened.TheVariants.{Folder};

    ghost from_gives = { λ fault own. own ≡ Folder fault };

    fn from(fault: FolderFault) -> Unopened {
        Unopened::Folder(fault)
    }
}

/// The size of the store in a folder, with one thread a node: what the file of the size says, or, where there is none,
/// what the lengths of the other files tell.
pub fn size_found<F: SizeSource>(alloc: Global, folder: &F) -> Result<Geometry, SizeFault>
    ensures found { IfOk result (λ g. F.honest folder.now ≡ true
        → IsSizeOf (F.stated folder.now) (F.logs folder.now) (F.segments folder.now) g) }
    ensures misfit { IfErr result (λ fault. (its : TheMisfit) → fault ≡ HasMisfit its → F.honest folder.now ≡ true
        → (F.stated folder.now ≡ None) × IsMisfit (F.logs folder.now) (F.segments folder.now) its) }
{
    match size_stated(alloc, folder) {
        Ok(Some(geometry)) => Ok(geometry),
        Ok(None) => size_told(folder),
        Err(fault) => Err(SizeFault::Folder(fault)),
    }
}

// What the lengths of the files tell, where no file says it.
fn size_told<F: SizeSource>(folder: &F) -> Result<Geometry, SizeFault>
    ensures found { F.honest folder.now ≡ true → F.stated folder.now ≡ None
        → IfOk result (IsSizeOf (F.stated folder.now) (F.logs folder.now) (F.segments folder.now)) }
    ensures misfit { IfErr result (λ fault. (its : TheMisfit) → fault ≡ HasMisfit its → F.honest folder.now ≡ true
        → IsMisfit (F.logs folder.now) (F.segments folder.now) its) }
{
    folder.says_nothing();
    match folder.file_lens() {
        Ok(lens) => match lens.geometry() {
            Ok(geometry) => Ok(geometry),
            Err(misfit) => Err(SizeFault::Misfit(misfit)),
        },
        Err(fault) => Err(SizeFault::Folder(fault)),
    }
}

// What the file of the size says, where there is one.
fn size_stated<F: SizeSource>(alloc: Global, folder: &F) -> Result<Option<Geometry>, FolderFault>
    ensures none { IfOk result (λ said. said ≡ None → F.honest folder.now ≡ true → F.stated folder.now ≡ None) }
    ensures said { IfOk result (λ said. (g : Sizes) → said ≡ Some g → F.honest folder.now ≡ true
        → F.stated folder.now ≡ Some (size_file_text g)) }
    ensures threads { IfOk result (λ said. (g : Sizes) → said ≡ Some g → g.threads ≡ 1) }
{
    match folder.stated()? {
        Some(bytes) => match size_said(alloc, bytes.as_slice())? {
            Some(geometry) => Ok(Some(geometry)),
            None => Err(folder.says_no_size()),
        },
        None => Ok(None),
    }
}

/// Whether a store of this size is what the file of the size says, where there is one: all but its threads.
///
/// # Errors
///
/// `OtherSize` exactly where it says another size; `Folder` where it could not be read, or says none.
pub fn agrees<F: SizeSource>(alloc: Global, folder: &F, geometry: &Geometry) -> Result<(), Unopened>
    ensures agrees { OnOk result (F.honest folder.now ≡ true → Agrees (F.stated folder.now) geometry.now) }
    ensures other { IfErr result (λ fault. (area : ℕ) → fault ≡ Unopened.OtherSize area → F.honest folder.now ≡ true
        → SaysOther (F.stated folder.now) geometry.now area) }
{
    let Some(stated) = size_stated(alloc, folder)? else {
        return Ok(());
    };
    if is_same_size(&stated, geometry) {
        return Ok(());
    }
    folder.says_other_size(&stated);
    Err(Unopened::OtherSize {
        area: first_difference(geometry, &stated),
    })
}

// Whether two stores have as many of each thing but threads.
fn is_same_size(one: &Geometry, other: &Geometry) -> bool
    ensures { IsTrue result ↔ IsSameSize one.now other.now }
{
    one.nodes == other.nodes
        && one.segments == other.segments
        && one.pages == other.pages
        && one.words == other.words
}

// The first area at which the files of two stores differ, or at which one of them has no more.
fn first_difference(one: &Geometry, other: &Geometry) -> u32
    ensures { IsFirstDifference one.now other.now result }
{
    let mut area = 0;
    while let (Some(file), Some(another)) = (
        StoreFile::of_area(one, area as usize),
        StoreFile::of_area(other, area as usize),
    ) {
        if file.name != another.name || file.len != another.len {
            break;
        }
        area += 1;
    }
    area
}
