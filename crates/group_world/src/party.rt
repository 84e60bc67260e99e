use pg_log::ClientId;
use placement::NodeId;

/// A sender or receiver of a message.
#[derive(Clone, Copy, PartialEq, Eq, Drop)]
pub enum Party {
    /// A node of the cluster.
    Node(NodeId),
    /// The monitor.
    Monitor,
    /// A client, who only receives replies.
    Client(ClientId),
}
