//! Classes whose methods may loop, for hosts. `verify_loops` judges each method once: one that
//! declares no loops as `verify` does, one that does by its heads. Every run of an accepted method is
//! never stuck, and reaches its exit; one with loops may use up its budget before.
#![tactic(auto)]

mod class;
mod laws;
mod method;

pub use class::{LoopClass, verify_loops};
pub use laws::without_loops;
pub use method::{LoopClassMethod, MethodRun};
