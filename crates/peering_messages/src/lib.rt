//! The messages of a group's node: Queries, Installs, Reps and Replies with their receivers, and
//! tests of lists of nodes and of requests. `peering` decides when a node sends them. Each fails
//! for want of memory alone; a list that it was extending is then of no further use.
#![tactic(auto)]

mod compare;
mod packets;
mod replying;

pub use compare::{are_among, are_same, is_same_request, leads};
pub use packets::{
    InstallRef, PrimaryLog, RepRef, adoption, ask_if, install_to_missing, packet, query_to_all,
    rep_to_others, reps_to, send,
};
pub use replying::Replier;
