//! Running nodes that keep one another current.
ghost use Rattle.std.specs.Prelude.{◌≡◌, ◌≤◌, ℕ, false, All, Some, slice_get, vec_len};
ghost use Rattle.lc_cluster.specs.Keys.{AreWiredAs, HasOwnKey, wired_by};
ghost use Rattle.lc_cluster.specs.declared.member.Member.{Member as TheMember};

use crate::dropped::Dropped;
use crate::member::Member;
use lc_disk::Area;
use lc_lock::TicketLock;
use lc_record::Geometry;

/// The nodes of a store, numbered from 0, which keep one another's segments current by the records of their logs, and
/// hand segments to one another, each with its token. From each node to each other there is a line of its own. The
/// locks are got in one order: receiving ends, segments ascending, the log, sending ends, the numbers of what was
/// dropped. Log-based coherency: Feeley et al., OSDI 1994.
#[derive(Drop)]
pub struct Cluster<D: Area + Drop> {
    pub(crate) geometry: Geometry,
    pub(crate) members: Vec<Member<D>>,
    pub(crate) dropped: TicketLock<Dropped, ()>,
    ghost wired: { AreWiredAs (vec_len members) (wired_by members.items) },
    ghost one_key: { All HasOwnKey members.items },
    ghost numbered: { (place : ℕ) (member : TheMember D) → slice_get members.items place ≡ Some member
        → member.node.number ≡ place },
    ghost peers: { (place : ℕ) (member : TheMember D) → slice_get members.items place ≡ Some member
        → member.node.is_alone ≡ false },
    ghost few: { vec_len members ≤ 65535 },
    ghost all_nodes: { vec_len members ≡ geometry.nodes },
    ghost all_segments: { (place : ℕ) (member : TheMember D) → slice_get members.items place ≡ Some member
        → vec_len member.node.segments ≡ geometry.segments },
}
