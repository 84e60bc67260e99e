//! Threads on a new cluster.
ghost use Rattle.std.specs.Prelude.{◌≡◌};

use osd::{ClusterName, ClusterParts, Running, running_crosses};
use pg_log::ClassTable;
use rados_client::{Cluster, Config};
use std::alloc::Global;
use std::marker::Brand;
use std::sync::Wait;
use std::thread::{Threads, map_indices};

/// A cluster of one of each.
pub const ONE: Config = Config {
    nodes: 1,
    replicas: 1,
    groups: 1,
    shards: 1,
    workers: 1,
    tries: 1_000,
};

/// A cluster of three nodes that all act for the one group.
pub const THREE: Config = Config {
    nodes: 3,
    replicas: 3,
    ..ONE
};

/// The tries of a call that is to be answered.
pub const MANY: u32 = 100_000_000;

/// A play of some threads with a cluster, each with its part.
pub trait Play {
    /// The number of threads.
    fn parts(&self) -> usize;

    /// Runs what comes before the threads. Returns true if it went as it should.
    fn begins<N: ClusterName, R: Wait>(&self, running: &Running<N, R>) -> bool;

    /// Runs the part of the thread `number`, from 0 on. Returns true if it went as it should.
    fn part<N: ClusterName, R: Wait>(&self, running: &Running<N, R>, number: usize) -> bool;

    /// Runs what comes after the threads. Returns true if it went as it should.
    fn ends<N: ClusterName, R: Wait>(&self, running: &Running<N, R>) -> bool;
}

/// Plays on a new cluster, which has the classes `lock` and `obj`. True if all parts come out as
/// they should; None if memory is refused.
fn played<P: Play + Sync, R: Threads + Wait + Sync + Drop>(
    rt: R,
    alloc: Global,
    config: Config,
    play: &P,
) -> Option<bool> {
    let mut cluster = Cluster::new(alloc, config).ok()?;
    let (parts, table) = cluster.start()?;
    played_on::<Brand, P, R>(rt, alloc, parts, table, play)
}

fn played_on<N: ClusterName + Send + Sync, P: Play + Sync, R: Threads + Wait + Sync + Drop>(
    rt: R,
    alloc: Global,
    parts: ClusterParts,
    table: ClassTable,
    play: &P,
) -> Option<bool>
    requires board { parts.board ≡ N.board }
    requires queues { parts.queues ≡ N.queues }
    requires config { parts.config ≡ N.config }
    requires table { table ≡ N.classes }
{
    // For the proof: threads may share what is running.
    running_crosses::<N, R>();
    let running = Running::<N, R>::named(alloc, rt, parts, table).ok()?;
    if !play.begins(&running) {
        return Some(false);
    }
    let part = |number: usize| -> bool { play.part(&running, number) };
    let done = map_indices(running.runtime(), alloc, play.parts(), &part).ok()?;
    Some(done.iter().all(|done| *done) && play.ends(&running))
}

/// True if all parts come out as they should on a new cluster.
pub fn is_played<P: Play + Sync, R: Threads + Wait + Sync + Drop>(
    rt: R,
    alloc: Global,
    config: Config,
    play: &P,
) -> bool {
    played(rt, alloc, config, play) == Some(true)
}
