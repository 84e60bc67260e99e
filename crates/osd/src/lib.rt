//! A cluster in threads: the nodes of all groups, each node of a group under a lock of its own, and
//! the workers that serve them. It starts no thread: who plays on a `Running` cluster brings the
//! threads, and `play` lends it one.
//!
//! - Every token of the board, every pass and every answer is of the one cluster, by type
//!   (`ClusterName`).
//! - A worker takes operations (`Running::serve`), and does with each what `GroupCell::turn` does
//!   under the group's lock.
//! - A client asks by `Running::ask`, and finds the answer that came last by `Running::mail`.
//! - A pass only grows: `ask` says that the whole request was submitted, `nudge` that only
//!   operations of its group were.
#![tactic(auto)]

mod ask_error;
mod cause;
mod cluster_parts;
mod config;
mod crossing;
mod delivery;
mod desk;
mod fate;
mod gate;
mod limits;
mod logged;
mod mailbox;
mod monitors;
mod name;
mod newest;
mod no_node;
mod node;
mod nudges;
mod primaries;
mod queued;
mod running;
mod scenario;
mod sends;
mod worker;

pub use ask_error::AskError;
pub use cluster_parts::ClusterParts;
pub use commit_board::NoMemory;
pub use config::Config;
pub use crossing::running_crosses;
pub use desk::OpenedSession;
pub use fate::{DeliveryMode, Fate, PassAll};
pub use gate::{Gate, Open};
pub use logged::{LoggedEntry, LoggedError};
pub use name::ClusterName;
pub use no_node::NoNode;
pub use running::Running;
pub use scenario::{Scenario, play};
pub use sends::Sends;
