//! How many nodes, replicas and groups a cluster may have.

/// The nodes of a cluster have the numbers below this.
pub const NODE_LIMIT: u64 = 16;

/// The most replicas of a group.
pub const REPLICA_LIMIT: usize = 3;

/// The most groups of a cluster.
pub const GROUP_LIMIT: u64 = 64;
