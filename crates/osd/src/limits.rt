//! The limits of a cluster in threads. Those of nodes, replicas and groups are the placement's.

/// The most queues, as many as a schedule has.
pub(crate) const SHARD_LIMIT: usize = 64;

/// The most workers.
pub(crate) const WORKER_LIMIT: usize = 16;

/// The sessions that are ever opened. Each has a pass and a mailbox, which are made with the
/// cluster, so that no session is refused for want of memory.
pub(crate) const SESSION_LIMIT: usize = 64;

/// The senders that are no workers: the sessions, and the monitors, which send under their lock.
pub(crate) const OTHER_SENDERS: usize = SESSION_LIMIT + 1;

/// The places of a queue.
pub(crate) const QUEUE_PLACES: usize = 1024;

/// The places of a queue that clients and nudges leave to what nodes send to one another: above all
/// to what ends a peering, which nobody sends again before the next nudge.
pub(crate) const KEPT_PLACES: usize = 256;
