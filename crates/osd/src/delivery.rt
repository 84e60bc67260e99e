use crate::cause::Cause;
use crate::name::ClusterName;
use group_cell::{Outgoing, Post};
use placement::NodeId;
use std::alloc::Global;

/// The origin of a message: the node of a group that sends it, and its first cause.
#[derive(Clone, Copy)]
pub(crate) struct Origin {
    pub cause: Cause,
    pub group: usize,
    pub sender: NodeId,
}

/// A message that a node of a group sends, on its way.
#[derive(Drop)]
pub(crate) struct Delivery<N: ClusterName> {
    pub origin: Origin,
    pub outgoing: Outgoing<N>,
}

/// True of a refusal, over which a fate has no power.
pub(crate) fn is_refusal<N: ClusterName>(outgoing: &Outgoing<N>) -> bool {
    matches!(outgoing, Outgoing::ToClient(_, Post::Refused(_)))
}

/// The same once more, if memory isn't refused. Of an answer there is none.
pub(crate) fn once_more<N: ClusterName>(
    alloc: Global,
    outgoing: &Outgoing<N>,
) -> Option<Outgoing<N>> {
    match outgoing {
        Outgoing::ToNode(node, message) => {
            Some(Outgoing::ToNode(*node, message.copy(alloc).ok()?))
        }
        Outgoing::ToMonitor(interval) => Some(Outgoing::ToMonitor(*interval)),
        Outgoing::ToClient(_, _) => None,
    }
}
