//! How the areas of a store have its folder.
ghost use Rattle.std.specs.Arc.{arc_value};
ghost use Rattle.std.specs.Prelude.{◌≡◌, Bool, true, false, IfOk, OnErr};
ghost use Rattle.lc_files.specs.declared.store_folder.StoreFolder.{StoreFolder as TheFolder};

use crate::store_folder::StoreFolder;
use std::alloc::{AllocError, Global};
use std::path::AsPath;
use std::rt::Files;
use std::sync::Arc;

/// What has a folder: a borrow, or one of several owners.
pub trait FolderRef: Drop {
    /// The runtime of the folder.
    type Runtime: Files;

    /// The path of the folder.
    type Path: AsPath;

    /// The folder that it has.
    ghost folder_of: { Self → TheFolder Self.Runtime Self.Path };

    /// Whether owners are counted: then there may be no memory for one more.
    ghost is_counted: { Bool };

    /// The folder.
    fn folder(&self) -> &StoreFolder<Self::Runtime, Self::Path>
        ensures { result.now ≡ folder_of self.now };

    /// Another that has the same folder.
    ///
    /// # Errors
    ///
    /// Only where there is no memory, or one owner more cannot be counted. A borrow is always shared.
    fn share(&self) -> Result<Self, AllocError>
        ensures same { IfOk result (λ other. folder_of other ≡ folder_of self.now) }
        ensures memory { OnErr result (is_counted ≡ true) };
}

impl<R: Files, P: AsPath> FolderRef for &StoreFolder<R, P> {
    type Runtime = R;

    type Path = P;

    ghost folder_of = { λ borrow. borrow.now };

    ghost is_counted = { false };

    fn folder(&self) -> &StoreFolder<R, P> {
        *self
    }

    fn share(&self) -> Result<Self, AllocError> {
        Ok(*self)
    }
}

impl<R: Files + Drop, P: AsPath> FolderRef for Arc<StoreFolder<R, P>, Global> {
    type Runtime = R;

    type Path = P;

    ghost folder_of = { λ owner. arc_value owner };

    ghost is_counted = { true };

    fn folder(&self) -> &StoreFolder<R, P> {
        &**self
    }

    fn share(&self) -> Result<Self, AllocError> {
        Arc::try_clone(self)
    }
}
