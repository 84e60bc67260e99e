use placement::{Epoch, NodeId};

/// A member's log has this length in an epoch.
#[derive(Clone, Copy, PartialEq, Eq, Drop)]
pub struct Ack {
    /// The sender's epoch.
    pub epoch: Epoch,
    /// The member.
    pub sender: NodeId,
    /// The number of entries of its log.
    pub length: usize,
}
