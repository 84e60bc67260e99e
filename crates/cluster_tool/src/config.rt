//! From a file's first line to the cluster that is made of it.

ghost use Rattle.std.specs.Prelude.{◌≡◌};
ghost use Rattle.cluster_tool.specs.Config.{config_of};

use cluster_file::ClusterNumbers;
use osd::Config;

/// The cluster that a first line's numbers make, if each is within its limits.
pub(crate) fn config_of(numbers: ClusterNumbers) -> Option<Config>
    ensures { result ≡ config_of numbers }
{
    if numbers.tries > u64::from(u32::MAX) {
        return None;
    }
    let config = Config {
        nodes: numbers.nodes,
        replicas: numbers.replicas as usize,
        groups: numbers.groups,
        shards: numbers.shards as usize,
        workers: numbers.workers as usize,
        tries: numbers.tries as u32,
    };
    if config.is_within_limits() {
        Some(config)
    } else {
        None
    }
}
