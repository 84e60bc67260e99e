//! The nodes of a group and its monitor, which carry out the rules of `group_world`: `GroupNode`
//! takes requests, maps and messages and answers with messages; `Monitor` makes maps and activates
//! intervals. Each of their calls is proved to be a step of the world (`local_step`, `unanswered`,
//! `next_map`), so the theorem, `agreement`, holds of them.
#![tactic(auto)]

mod crossing;
mod monitor;
mod node;

pub use crossing::{monitor_crosses, node_crosses};
pub use group_world::{agreement, nothing_is_cut};
pub use monitor::Monitor;
pub use node::GroupNode;
