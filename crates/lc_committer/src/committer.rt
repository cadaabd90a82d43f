//! A node and a seat on it.
ghost use Rattle.std.specs.Prelude.{◌≡◌};
ghost use Rattle.lc_stage.specs.Seats.{commit_view, IsSeatOf, IsIdle};
ghost use Rattle.lc_stage.specs.Staging.{newcomer, joining};
ghost use Rattle.lc_committer.specs.Committer.{IsOfSameStage, Sits, view_in};

use lc_disk::Area;
use lc_node::Node;
use lc_stage::CommitSeat;
use std::marker::Model;

/// What a thread commits with: a running node and a seat on it, which has no open reservation. The seat goes out only
/// within a call.
#[derive(Drop)]
pub struct Committer<'a, D: Area + Drop> {
    pub(crate) node: &'a Node<D>,
    pub(crate) seat: Option<CommitSeat>,
}

impl<'a, D: Area + Drop> Model for Committer<'a, D> {
    ghost use Rattle.lc_committer.specs.Committer.{Committing, committing, IsSeated};

    ghost Value = { Committing D };

    ghost view = { committing };

    ghost invariant = { IsSeated };
}

impl<'a, D: Area + Drop> Committer<'a, D> {
    /// One that commits on this node with this seat, which `Node::open` gave, or `split`.
    pub fn new(node: &'a Node<D>, seat: CommitSeat) -> Committer<'a, D>
        requires own { IsSeatOf node.now.stage seat }
        requires idle { IsIdle (commit_view seat) }
        ensures { result ≡ record { node = node.now; view = commit_view seat } }
    {
        Committer {
            node,
            seat: Some(seat),
        }
    }

    /// Its seat.
    pub fn into_seat(self) -> CommitSeat
        ensures own { IsSeatOf self.entry.node.stage result }
        ensures seat { commit_view result ≡ self.entry.view }
        ensures idle { IsIdle (commit_view result) }
    {
        self.seat.unwrap()
    }

    /// The node on which it commits.
    pub fn node(&self) -> &'a Node<D>
        ensures { result.now ≡ self.now.node }
    {
        self.node
    }

    /// A further one on the same node, for another thread, which has no record yet and no receipt.
    pub fn split(&mut self) -> Committer<'a, D>
        ensures same { self.new ≡ self.old }
        ensures new { result ≡ record { node = self.old.node; view = newcomer self.old.node.stage.room } }
    {
        let mut seat = take_out(self.node, &mut self.seat);
        let other = self.node.split(&mut seat);
        self.seat = Some(seat);
        Committer::new(self.node, other)
    }

    /// It takes over the records and receipts of another one of the same node.
    pub fn join(&mut self, other: Committer<'_, D>)
        requires { IsOfSameStage self.old.node other.node }
        ensures { self.new ≡ record self.old { view = joining self.old.view other.entry.view } }
    {
        let mut seat = take_out(self.node, &mut self.seat);
        self.node.join(&mut seat, other.into_seat());
        self.seat = Some(seat);
    }
}

/// Takes the seat out, for a call of the node: it is there.
pub(crate) fn take_out<D: Area + Drop>(node: &Node<D>, seat: &mut Option<CommitSeat>) -> CommitSeat
    requires there { Sits node.now seat.old }
    ensures own { IsSeatOf node.now.stage result }
    ensures idle { IsIdle (commit_view result) }
    ensures view { commit_view result ≡ view_in seat.old }
{
    seat.take().unwrap()
}
