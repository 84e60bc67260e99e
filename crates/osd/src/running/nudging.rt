//! Sending again what may have been lost.

ghost use Rattle.std.specs.Prelude.{◌≡◌, ◌<◌};
ghost use Rattle.op_shards.specs.Passes.{Grew};
ghost use Rattle.osd.specs.Sent.{OnlySent, IsInternalTo};

use crate::cause::Cause;
use crate::delivery::Origin;
use crate::name::ClusterName;
use crate::nudges::Nudge;
use crate::running::Running;
use crate::sends::Sends;
use carried::{Carried, Operation};
use group_cell::Outgoing;
use placement::{NodeId, REPLICA_LIMIT};
use std::sync::Wait;

impl<N: ClusterName, R: Wait> Running<N, R> {
    /// Hands the newest map of the group to each acting node of a lower interval, then submits what
    /// each acting node sends again. A stopped node sends nothing. What it submits is of that
    /// group, and no request of a client.
    ///
    /// It does nothing if there is no such group, if another nudge of the group is under way,
    /// and if an operation isn't served yet that goes back to the last one: what that submitted,
    /// what nodes sent on it, and so on. What goes to a node isn't submitted if fewer than 256
    /// places of the queue are free, nor what comes after it.
    pub fn nudge(&self, sends: &mut Sends<N>, group: usize)
        ensures grew { Grew sends.old sends.new }
        ensures only { OnlySent sends.old sends.new (IsInternalTo group) }
    {
        if group >= self.config.groups as usize {
            return;
        }
        let Some(nudge) = self.nudges.begin(group) else {
            return;
        };
        for place in 0..REPLICA_LIMIT {
            self.tell_if_behind(sends, &nudge, group, place);
        }
        for place in 0..REPLICA_LIMIT {
            self.send_again(sends, &nudge, group, place);
        }
        nudge.end();
    }

    /// The node that acts at that place of the group's newest map.
    pub(crate) fn acting(&self, group: usize, place: usize) -> Option<NodeId>
        requires { group < N.config.groups }
    {
        self.newest.lock(&self.rt).acting(group, place)
    }

    /// Hands the newest map to the node that acts at that place, if its interval is lower.
    fn tell_if_behind(&self, sends: &mut Sends<N>, _nudge: &Nudge<'_>, group: usize, place: usize)
        requires { group < N.config.groups }
        ensures { OnlySent sends.old sends.new (IsInternalTo group) }
    {
        let Some(node) = self.acting(group, place) else {
            return;
        };
        if !self.is_behind(group, node) {
            return;
        }
        if !self.has_room(sends, group) {
            return;
        }
        self.tell_map(sends, Cause::Nudge, group, node);
    }

    /// True if a node's interval is lower than the newest map's.
    fn is_behind(&self, group: usize, node: NodeId) -> bool
        requires { group < N.config.groups }
    {
        let Some(cell) = self.cell(node, group) else {
            return false;
        };
        let reached = cell.lock(&self.rt).node().epoch();
        reached.get() < self.newest.lock(&self.rt).interval(group).get()
    }

    /// Hands the newest map to a node. It is lost if memory is refused.
    pub(crate) fn tell_map(&self, sends: &mut Sends<N>, cause: Cause, group: usize, node: NodeId)
        requires { group < N.config.groups }
        ensures { OnlySent sends.old sends.new (IsInternalTo group) }
    {
        let Ok(map) = self.newest.lock(&self.rt).map(self.alloc, group) else {
            return;
        };
        let _ = self.submit(
            sends,
            cause,
            Operation {
                group,
                node,
                carried: Carried::Map(map),
            },
        );
    }

    /// Submits what the node that acts at that place sends again, up to the first message that finds
    /// no room: for those after it there is none either.
    fn send_again(&self, sends: &mut Sends<N>, _nudge: &Nudge<'_>, group: usize, place: usize)
        requires { group < N.config.groups }
        ensures { OnlySent sends.old sends.new (IsInternalTo group) }
    {
        let Some(sender) = self.acting(group, place) else {
            return;
        };
        let origin = Origin {
            cause: Cause::Nudge,
            group,
            sender,
        };
        // Few go to the monitors, and these go out in any case.
        let room = self.room(sends, group);
        let most = room.max(REPLICA_LIMIT);
        for outgoing in self.unanswered(group, sender, most) {
            if !self.may_go_out(sends, group, &outgoing) {
                return;
            }
            self.deliver(sends, &origin, outgoing);
        }
    }

    /// The first `most` of the messages that a node sent and whose answers it still waits for, if it
    /// isn't stopped. A message is lost if memory is refused.
    fn unanswered(&self, group: usize, node: NodeId, most: usize) -> Vec<Option<Outgoing<N>>> {
        let nothing = Vec::new(self.alloc);
        let Some(mut cell) = self.awake(node, group) else {
            return nothing;
        };
        match cell.resend(self.alloc, &self.board, most) {
            Ok(sent) => sent,
            Err(_) => nothing,
        }
    }

    /// True if it takes none of the places that a nudge leaves to the nodes. A message to the
    /// monitors may always go out, since it may end a peering.
    fn may_go_out(&self, sends: &mut Sends<N>, group: usize, outgoing: &Option<Outgoing<N>>) -> bool
        ensures { sends.new ≡ sends.old }
    {
        match outgoing {
            Some(Outgoing::ToNode(_, _)) => self.has_room(sends, group),
            Some(Outgoing::ToMonitor(_) | Outgoing::ToClient(_, _)) | None => true,
        }
    }
}
