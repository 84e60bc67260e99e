//! Cluster files as text: `read_plan` reads a whole file, its cluster, its clients' calls and its
//! maps, or finds its first malformed line; `push_head`, `push_asked`, `push_replied`,
//! `push_refused`, `bad_line` and `refused_line` give the printed text. The rules are
//! `specs/Plan.antt` and `specs/Text.antt`; each call's result is pinned by them, and it fails only
//! if memory is refused. `cluster_tool` runs a plan in threads.
#![tactic(auto)]

mod cluster_numbers;
mod plan;
mod planned_call;
mod planned_step;
mod text;

pub use cluster_numbers::ClusterNumbers;
pub use plan::{Plan, Reading, read_plan};
pub use planned_call::PlannedCall;
pub use planned_step::PlannedStep;
pub use text::{bad_line, push_asked, push_head, push_refused, push_replied, refused_line};
