//! The decision at a map before a node moves.
ghost use Rattle.std.specs.Prelude.{◌≡◌, ◌≤◌, [], length};
ghost use Rattle.peering.specs.inner.Arriving.{after_move, log_after};

use crate::node::GroupNode;
use group_world::{GroupMap, Packet, Status};
use pg_log::Classes;
use placement::NodeId;

/// A node's step at a map: its new status if it moves, the members that have installed then, and
/// the messages that it sends.
pub(crate) struct Arrival {
    pub status: Option<Status>,
    pub joined: Vec<NodeId>,
    pub sent: Vec<Packet>,
}

// Written out, so that each way out drops it with one call.
impl Drop for Arrival {
    fn drop(self) {
        let Arrival {
            status: _,
            joined,
            sent,
        } = self;
        drop(joined);
        drop(sent);
    }
}

impl Arrival {
    /// Moves a node to the map, or lets it stay, and gives the messages that it sends. It takes no
    /// memory.
    pub(crate) fn moves<C: Classes>(self, node: &mut GroupNode<C>, map: GroupMap) -> Vec<Packet>
        requires { node.old.state.committed ≤ length (log_after node.old.state self.status) }
        ensures number { node.new.number ≡ node.old.number }
        ensures state { node.new.state ≡ after_move node.old.state map self.status self.joined.items }
        ensures sent { result.items ≡ self.sent.items }
    {
        let Arrival {
            status,
            joined,
            sent,
        } = self;
        node.move_to(map, status, joined);
        sent
    }

    /// Has a node install the list that it took as its log, and gives the messages that it sends.
    /// It takes no memory.
    pub(crate) fn installs<C: Classes>(self, node: &mut GroupNode<C>) -> Vec<Packet>
        ensures number { node.new.number ≡ node.old.number }
        ensures state { node.new.state ≡ record
            (node.old.state) { status = Status.Installing; joined = self.joined.items; acked = [] } }
        ensures sent { result.items ≡ self.sent.items }
    {
        let Arrival {
            status: _,
            joined,
            sent,
        } = self;
        node.status = Status::Installing;
        node.joined = joined;
        node.acked.clear();
        sent
    }
}
