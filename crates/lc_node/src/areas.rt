//! The areas of a recovered store, those of its logs apart from those of its segments.
ghost use Rattle.std.specs.Prelude.{◌≡◌, ◌≤◌, [], vec_capacity, vec_len};
ghost use Rattle.lc_recover.specs.Reads.{HaveLengths};
ghost use Rattle.lc_node.specs.Shares.{AreAllTaken, AreLogs, ArePages};

use lc_disk::Area;
use lc_recover::Recovered;

/// The areas of the logs of a store, in the order of its nodes, and of the pages of its segments, each in a place from
/// which it can be taken.
#[derive(Drop)]
pub(crate) struct Areas<D: Area + Drop> {
    pub(crate) logs: Vec<D>,
    pub(crate) pages: Vec<Option<D>>,
}

impl<D: Area + Drop> Areas<D> {
    /// Those of a store, in the room that is there for the places. It takes no memory.
    pub(crate) fn new(recovered: Recovered<D>, places: Vec<Option<D>>) -> Areas<D>
        requires lengths { HaveLengths D.Area recovered.geometry recovered.areas }
        requires empty { places.items ≡ [] }
        requires room { recovered.geometry.segments ≤ vec_capacity places }
        ensures log_count { vec_len result.logs ≡ recovered.geometry.nodes }
        ensures logs { AreLogs recovered result.logs.items }
        ensures page_count { vec_len result.pages ≡ recovered.geometry.segments }
        ensures pages { ArePages recovered result.pages.items }
    {
        let geometry = recovered.geometry();
        let nodes = geometry.nodes as usize;
        let mut logs = recovered.areas();
        let mut pages = places;
        for _ in 0..geometry.segments {
            pages.push_reserved(Some(logs.remove(nodes)));
        }
        Areas { logs, pages }
    }
}

/// Ends the places of the areas of segments, each of which a node has taken.
pub(crate) fn end_places<D: Area + Drop>(places: Vec<Option<D>>)
    requires { AreAllTaken places.items }
{
    let _places = places;
}
