//! The names that tie all parts of one cluster together in proofs.

use group_cell::BoardName;
use std::marker::Brand;

/// The names of a cluster: its queues, what it is made of, its board and its classes. They are
/// known to proofs alone, and each call that plays on a cluster picks them; no code computes with
/// them. What lies under a lock is known by its type alone, so each such type takes the names.
pub trait ClusterName: BoardName {
    ghost use Rattle.op_shards.specs.Passes.{Queues};
    ghost use Rattle.osd.specs.declared.config.Config.{Config};

    ghost queues: { Queues };

    ghost config: { Config };
}

impl ClusterName for Brand {
    ghost use Rattle.std.specs.Prelude.{[]};
    ghost use Rattle.op_shards.specs.Passes.{queues_of};

    ghost queues = { queues_of [] 0 0 };

    ghost config = { record { nodes = 0; replicas = 0; groups = 0; shards = 0; workers = 0; tries = 0 } };
}
