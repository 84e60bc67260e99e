//! Does the command `radoscls cluster` once its words are read: `cluster` loads the built-in
//! classes and the tenants', reads a file of calls and maps whole, makes the cluster that its first
//! line names, and plays the rest: each client and each worker in a thread of its own, each map
//! once all calls above it have ended. Each call's line tells how `exec` ended it: a reply is true
//! of a legal list of requests to these classes (`specs/Answers.antt`). Nothing is
//! said of how long that takes (`Figures` measures it), that it ends, or of the order of calls of
//! several clients.
#![tactic(auto)]

mod asked;
mod caller;
mod config;
mod crossing;
mod figures;
mod latencies;
mod meter;
mod played;
mod playing;
mod refused;
mod shown;
mod tool;

pub use asked::Clustering;
pub use figures::Figures;
pub use meter::Meter;
pub use tool::{ClusteringEnd, cluster};
