//! Rows of `Cluster::new`, 2 NoMemory, and `load_class`, 4 NoMemory.

use rados_client::{Cluster, Config, ConfigError, LoadError};
use std::alloc::Global;
use tests_memory_table::Ending;

/// A method `f`: `mov r0, 0`, `exit`.
const IMAGE: [u8; 33] = [
    0x52, 0x43, 0x4c, 0x31, 1, 0, 0, 0, 1, 0x66, 1, 0, 0, 0, 0, 2, 0, 0xb7, 0, 0, 0, 0, 0, 0, 0,
    0x95, 0, 0, 0, 0, 0, 0, 0,
];

/// A cluster of that many nodes and groups, with one queue and one worker. A call has two tries: it
/// submits, and looks once.
pub fn config(nodes: u64, groups: u64) -> Config {
    Config {
        nodes,
        replicas: 1,
        groups,
        shards: 1,
        workers: 1,
        tries: 2,
    }
}

/// `Cluster::new`. The classes `lock` and `obj` are loaded, so the next one gets the id 2.
pub fn new(alloc: Global) -> Option<Ending> {
    match Cluster::new(alloc, config(2, 2)) {
        Ok(mut cluster) => {
            let id = cluster.load_class(&IMAGE).ok()?;
            Some(Ending::of(id.get() == 2))
        }
        Err(error) => {
            let is_named = error == ConfigError::NoMemory && error.number() == 2;
            Some(Ending::refused(is_named))
        }
    }
}

/// The next class has the id 2: a refusal loads none.
fn load_end(cluster: &mut Cluster) -> Ending {
    match cluster.load_class(&IMAGE) {
        Ok(id) => Ending::of(id.get() == 2),
        Err(error) => Ending::refused(error == LoadError::NoMemory && error.number() == 4),
    }
}

/// `Cluster::load_class`.
pub fn load(alloc: Global) -> Option<Ending> {
    let mut cluster = Cluster::new(alloc, config(1, 1)).ok()?;
    Some(match load_end(&mut cluster) {
        Ending::Refused => Ending::Refused.then(Some(load_end(&mut cluster))),
        ending => ending,
    })
}
