//! A store in a folder that is open for many threads.
ghost use Rattle.std.specs.Prelude.{◌≡◌, ◌≢◌, length, IfOk};
ghost use Rattle.lc_record.specs.declared.geometry.Geometry.{Geometry as Sizes};
ghost use Rattle.lc_stage.specs.Staging.{newcomer};
ghost use Rattle.lc_stage.specs.Seats.{commit_view, IsSeatOf};
ghost use Rattle.lc_store.specs.Running.{RunsOnSome};

use crate::StoreOpenFault;
use crate::finding::found;
use crate::running::node_on;
use lc_disk::Area;
use lc_files::{OpenStore, SharedFile, SharedFolder, StoreArea, StoreFolder};
use lc_node::Node;
use lc_record::Geometry;
use lc_stage::CommitSeat;
use std::alloc::Global;
use std::rt::Files;

// A running node has seats in place of numbered threads.
const ANY_THREADS: u16 = 1;

/// A store that is open as one running node, and what keeps other processes from it until this is dropped.
#[derive(Drop)]
pub struct Serving<D: Area + Drop, G: Drop> {
    /// The node, whose calls many threads make at once.
    pub node: Node<D>,
    guard: G,
}

/// A running node on a store in a folder, which no other process opens. Its areas own the folder, so it borrows
/// nothing. Threads of a scope can have it by reference. A thread by `thread::spawn` needs it in an `Arc`; the borrow
/// checker covers such a spawn in `main` alone.
pub type FolderServing<R> = Serving<StoreArea<SharedFolder<R>>, <R as Files>::File>;

impl<R: Files + Drop> Serving<StoreArea<SharedFolder<R>>, R::File>
where
    R::File: SharedFile,
{
    /// Opens the store of this size that is in the folder, recovers it, and lets its node run, as `node_on` does; with
    /// the first seat, which a thread gives to each of its transactions. Where the store has several nodes this is the
    /// first of them, with all segments.
    ///
    /// # Errors
    ///
    /// As of `Store::open`.
    pub fn open(
        alloc: Global,
        folder: &SharedFolder<R>,
        geometry: Geometry,
    ) -> Result<(FolderServing<R>, CommitSeat), StoreOpenFault>
        ensures seat { IfOk result (λ made. IsSeatOf made.0.node.stage made.1
            × (commit_view made.1 ≡ newcomer geometry.words)) }
        ensures number { IfOk result (λ made. made.0.node.number ≡ 0) }
        ensures room { IfOk result (λ made. made.0.node.stage.room ≡ geometry.words) }
        ensures segments { IfOk result (λ made. length made.0.node.segments.items ≡ geometry.segments) }
        ensures runs { IfOk result (λ made.
            RunsOnSome ⟦<StoreArea<SharedFolder<R>> as Area>⟧ geometry made.0.node made.1) }
        ensures bad_threads { result ≢ Err StoreOpenFault.BadThreads }
    {
        let OpenStore { areas, guard } = StoreFolder::open_shared(folder, &geometry)?;
        let (node, seat) = node_on(alloc, geometry, areas)?;
        Ok((Serving { node, guard }, seat))
    }

    /// Opens the store that is in the folder, of the size that its own file says, or, where there is none, the lengths
    /// of its files tell. Else as `open`.
    ///
    /// # Errors
    ///
    /// As of `open`; and `NoStore` where the files are those of no store.
    pub fn open_as_found(
        alloc: Global,
        folder: &SharedFolder<R>,
    ) -> Result<(FolderServing<R>, CommitSeat), StoreOpenFault>
        ensures seat { IfOk result (λ made. IsSeatOf made.0.node.stage made.1
            × (commit_view made.1 ≡ newcomer made.0.node.stage.room)) }
        ensures number { IfOk result (λ made. made.0.node.number ≡ 0) }
        ensures runs { IfOk result (λ made. (geometry : Sizes) × (geometry.threads ≡ 1)
            × RunsOnSome ⟦<StoreArea<SharedFolder<R>> as Area>⟧ geometry made.0.node made.1) }
        ensures bad_threads { result ≢ Err StoreOpenFault.BadThreads }
    {
        Serving::open(alloc, folder, found(alloc, &**folder, ANY_THREADS)?)
    }
}
