//! A store in a folder that is open.
ghost use Rattle.std.specs.Prelude.{◌≡◌, ◌≢◌, ◌↔◌, true, IfOk, Some};
ghost use Rattle.lc_record.specs.declared.geometry.Geometry.{Geometry as Sizes};
ghost use Rattle.lc_core.specs.Geometries.{phase_geometry};
ghost use Rattle.lc_core.specs.Observed.{observed};
ghost use Rattle.lc_store.specs.Opening.{IsNoThreadCount, IsOpenOnSome};

use crate::StoreOpenFault;
use crate::bringing_up::up_on;
use crate::finding::found;
use lc_core::World;
use lc_disk::Area;
use lc_files::{OpenStore, SharedFile, StoreArea, StoreFolder};
use lc_record::Geometry;
use std::alloc::Global;
use std::path::AsPath;
use std::rt::Files;

/// A store that is open, and what keeps other processes from it until this is dropped.
#[derive(Drop)]
pub struct Store<D: Area + Drop, G: Drop> {
    /// The store, which is up where it was opened. Its calls are those of a store in one thread.
    pub world: World<D>,
    guard: G,
}

/// A store in a folder: no other process opens the folder.
pub type FolderStore<'a, R, P> = Store<StoreArea<&'a StoreFolder<R, P>>, <R as Files>::File>;

impl<'a, R: Files, P: AsPath> Store<StoreArea<&'a StoreFolder<R, P>>, R::File>
where
    R::File: SharedFile,
{
    /// Opens the store of this size that is in the folder, and recovers it: it is up, and has the last content that was
    /// stable. What other processes do to the files, and whether the system keeps them, no proof can say.
    ///
    /// # Errors
    ///
    /// `Folder` where another process has the store open, or the system refused something: `folder.fault()` says what,
    /// and why. `BadGeometry` where the files are not those of this size. `NotUp` with what the recovery is refused
    /// for, a fault of a device, or `NoMemory`: opened again, it begins again.
    pub fn open(
        alloc: Global,
        folder: &'a StoreFolder<R, P>,
        geometry: Geometry,
    ) -> Result<FolderStore<'a, R, P>, StoreOpenFault>
        ensures up { IfOk result (λ store. (observed ⟦<StoreArea<&'a StoreFolder<R, P>> as Area>⟧ store.world).up
            ≡ true) }
        ensures geometry { IfOk result (λ store.
            phase_geometry ⟦<StoreArea<&'a StoreFolder<R, P>> as Area>⟧ store.world.phase ≡ Some geometry) }
        ensures opens { IfOk result (λ store.
            IsOpenOnSome ⟦<StoreArea<&'a StoreFolder<R, P>> as Area>⟧ geometry store.world) }
        ensures bad_threads { result ≢ Err StoreOpenFault.BadThreads }
    {
        let OpenStore { areas, guard } = folder.open(&geometry)?;
        let world = up_on(alloc, geometry, areas)?;
        Ok(Store { world, guard })
    }

    /// Opens the store that is in the folder, of the size that its own file says, or, where there is none, the lengths
    /// of its files tell. A node has so many threads, 1 to 16: the files do not tell these. Else as `open`.
    ///
    /// # Errors
    ///
    /// `BadThreads` exactly where the threads are 0 or more than 16, before the folder is asked anything; `NoStore`
    /// where the files are those of no store; and as of `open`.
    pub fn open_as_found(
        alloc: Global,
        folder: &'a StoreFolder<R, P>,
        threads: u16,
    ) -> Result<FolderStore<'a, R, P>, StoreOpenFault>
        ensures up { IfOk result (λ store. (observed ⟦<StoreArea<&'a StoreFolder<R, P>> as Area>⟧ store.world).up
            ≡ true) }
        ensures geometry { IfOk result (λ store. (g : Sizes)
            × (phase_geometry ⟦<StoreArea<&'a StoreFolder<R, P>> as Area>⟧ store.world.phase ≡ Some g)
            × (g.threads ≡ threads)) }
        ensures opens { IfOk result (λ store. (g : Sizes) × (g.threads ≡ threads)
            × IsOpenOnSome ⟦<StoreArea<&'a StoreFolder<R, P>> as Area>⟧ g store.world) }
        ensures bad_threads { (result ≡ Err StoreOpenFault.BadThreads) ↔ IsNoThreadCount threads }
    {
        Store::open(alloc, folder, found(alloc, folder, threads)?)
    }
}
