ghost use Rattle.std.specs.Prelude.{◌≡◌};
ghost use Rattle.osd.specs.Limits.{is_between, is_within_limits};
ghost use Rattle.placement.specs.Placement.{is_group_count};

use crate::limits::{SHARD_LIMIT, WORKER_LIMIT};
use placement::{NODE_LIMIT, REPLICA_LIMIT};

/// The numbers that a cluster is made of.
#[derive(Clone, Copy, Debug, PartialEq, Eq)]
pub struct Config {
    /// The number of nodes, 1 to 16; they are numbered from 0 on.
    pub nodes: u64,
    /// The number of nodes that act for a group, 1 to 3, if that many are up.
    pub replicas: usize,
    /// The number of groups, 1 to 64, a power of two.
    pub groups: u64,
    /// The number of queues, 1 to 64.
    pub shards: usize,
    /// The number of workers that may serve, 1 to 16; they are numbered from 0 on.
    pub workers: usize,
    /// The most looks and submits of a client's call, 1 to 2^32 - 1.
    pub tries: u32,
}

impl Config {
    /// True if each number is within its limits.
    pub fn is_within_limits(&self) -> bool
        ensures { result ≡ is_within_limits self.now }
    {
        is_between(1, NODE_LIMIT, self.nodes)
            && is_between(1, REPLICA_LIMIT as u64, self.replicas as u64)
            && is_group_count(self.groups)
            && is_between(1, SHARD_LIMIT as u64, self.shards as u64)
            && is_between(1, WORKER_LIMIT as u64, self.workers as u64)
            && 1 <= self.tries
    }
}

/// True if a number is between two others, or one of them.
fn is_between(low: u64, high: u64, n: u64) -> bool
    ensures { result ≡ is_between low high n }
{
    low <= n && n <= high
}

/// True for a power of two from 1 to `GROUP_LIMIT`. They are written out as in the definition, and
/// no proof about powers is needed.
fn is_group_count(groups: u64) -> bool
    ensures { result ≡ is_group_count groups }
{
    groups == 1
        || groups == 2
        || groups == 4
        || groups == 8
        || groups == 16
        || groups == 32
        || groups == 64
}
