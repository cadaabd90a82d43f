//! The memory of the nodes of a recovered store, taken before the store is taken apart.
ghost use Rattle.std.specs.Prelude.{◌≡◌, ◌≤◌, ◌<◌, vec_len, IfOk};
ghost use Rattle.lc_recover.specs.Reads.{HaveLengths};
ghost use Rattle.lc_recover.specs.Recovered.{AreFinished};
ghost use Rattle.lc_node.specs.FreshNode.{AreFreshNodes};
ghost use Rattle.lc_node.specs.Rooms.{AreRoomsFor, IsStoreRoom};

use crate::areas::{Areas, end_places};
use crate::fresh_node::FreshNode;
use crate::node_room::NodeRoom;
use crate::share::Share;
use lc_disk::Area;
use lc_recover::Recovered;
use std::alloc::{AllocError, Global};

/// The memory of some nodes of a store, with the places for the areas of its segments. It is never dropped: it ends in
/// `fill`.
pub(crate) struct StoreRoom<D: Area + Drop> {
    pub(crate) nodes: Vec<NodeRoom<D>>,
    pub(crate) places: Vec<Option<D>>,
    pub(crate) fresh: Vec<FreshNode<D>>,
}

impl<D: Area + Drop> StoreRoom<D> {
    /// That of so many nodes.
    pub(crate) fn new(
        alloc: Global,
        recovered: &Recovered<D>,
        nodes: u16,
    ) -> Result<StoreRoom<D>, AllocError>
        ensures { IfOk result (IsStoreRoom recovered.now nodes) }
    {
        let places = Vec::with_capacity(alloc, recovered.geometry().segments as usize)?;
        let fresh = Vec::with_capacity(alloc, nodes as usize)?;
        match rooms_for(alloc, recovered, nodes) {
            Ok(nodes) => Ok(StoreRoom {
                nodes,
                places,
                fresh,
            }),
            Err(fault) => {
                fresh.destroy_empty();
                Err(fault)
            }
        }
    }

    /// The nodes as they come up, from node 0 on, each on the area of its log. They share the tokens, and with them the
    /// areas of the segments, so that none is left. The areas of other nodes' logs are dropped. It takes no memory.
    pub(crate) fn fill(self, recovered: Recovered<D>) -> Vec<FreshNode<D>>
        requires room { IsStoreRoom recovered (vec_len self.nodes) self }
        requires some { 0 < vec_len self.nodes }
        requires within { vec_len self.nodes ≤ recovered.geometry.nodes }
        requires few { vec_len self.nodes ≤ 8 }
        requires lengths { HaveLengths D.Area recovered.geometry recovered.areas }
        requires finished { AreFinished D.Area recovered }
        ensures { AreFreshNodes recovered (vec_len self.nodes) result.items }
    {
        let StoreRoom {
            nodes: mut rooms,
            places,
            mut fresh,
        } = self;
        let count = rooms.len() as u32;
        let geometry = recovered.geometry();
        let Areas {
            mut logs,
            mut pages,
        } = Areas::new(recovered, places);
        for number in 0..count {
            let room = rooms.remove(0);
            let log = logs.remove(0);
            let share = Share::new(number, count);
            fresh.push_reserved(room.fill(geometry, share, log, pages.as_mut_slice()));
        }
        rooms.destroy_empty();
        end_places(pages);
        fresh
    }
}

// The memory of so many nodes.
fn rooms_for<D: Area + Drop>(
    alloc: Global,
    recovered: &Recovered<D>,
    nodes: u16,
) -> Result<Vec<NodeRoom<D>>, AllocError>
    ensures count { IfOk result (λ rooms. vec_len rooms ≡ nodes) }
    ensures each { IfOk result (λ rooms. AreRoomsFor recovered.now rooms.items) }
{
    let mut rooms = Vec::with_capacity(alloc, nodes as usize)?;
    for _ in 0..nodes {
        match NodeRoom::new(alloc, recovered) {
            Ok(room) => rooms.push_reserved(room),
            Err(fault) => {
                discard_rooms(rooms);
                return Err(fault);
            }
        }
    }
    Ok(rooms)
}

// No node comes up.
fn discard_rooms<D: Area + Drop>(rooms: Vec<NodeRoom<D>>) {
    let mut rooms = rooms;
    while let Some(room) = rooms.pop() {
        room.discard();
    }
    rooms.destroy_empty();
}
