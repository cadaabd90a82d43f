//! The places of a node's peers.
ghost use Rattle.std.specs.Prelude.{◌≡◌, ◌≢◌, ◌+◌, ◌<◌, ℕ};
ghost use Rattle.lc_cluster.specs.Peers.{place_of};

/// Where a node has what is for a peer: its peers are the other nodes, in the order of their numbers, from 0.
pub(crate) fn place_of(node: u16, peer: u16) -> usize
    requires { node ≢ peer }
    ensures place { result ≡ place_of node peer }
    ensures within { (nodes : ℕ) → node < nodes → peer < nodes → result + 1 < nodes }
{
    let place = usize::from(peer);
    if peer < node { place } else { place - 1 }
}
