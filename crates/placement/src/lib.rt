//! The group of an object, and the acting set of a group: formulas over whole numbers modulo 2^64,
//! which every node and client computes alike, without asking anybody. `group_of` is the object's
//! group by the hash of its name, `score` the score of a node for a group, and `acting` the group's
//! acting set: the up nodes by falling score, cut to the number of replicas. Its first is the
//! primary. `is_acting` tests if a list may act, as each acting set may (`acting_sets`).
#![tactic(auto)]

mod acting_set;
mod cluster_map;
mod epoch;
mod group;
mod laws;
mod limits;
mod node_id;
mod placement_error;
mod weight;

pub use acting_set::{acting, are_nodes, has, is_acting};
pub use cluster_map::ClusterMap;
pub use epoch::Epoch;
pub use group::group_of;
pub use laws::{acting_sets, ranking};
pub use limits::{GROUP_LIMIT, NODE_LIMIT, REPLICA_LIMIT};
pub use node_id::NodeId;
pub use placement_error::PlacementError;
pub use weight::score;
