use crate::node_id::NodeId;

/// The map of a cluster in an epoch. Its numbers are tested only when `acting` is called.
#[derive(Drop)]
pub struct ClusterMap {
    /// The map's number, 1 to 2^32 - 1.
    // Not an `Epoch`: `acting` refuses a number of 2^32 and above, which an `Epoch` can't have.
    pub epoch: u64,
    /// The nodes that are up, each of 0 to 15 at most once, in any order.
    pub up: Vec<NodeId>,
    /// The number of nodes that act for a group, 1 to 3. If fewer are up, all of them act.
    pub replicas: usize,
    /// The number of groups, 1 to 64, a power of two.
    pub groups: u64,
}
