//! Calls of classes whose methods may loop on bytes, for a host that keeps the objects itself: what
//! `class_calls` is to classes that `verify` accepts. A `LoopHandle` holds a class that `verify_loops`
//! accepts, none of whose methods declares a greater budget than the host gives; a `HeldClass` is
//! either kind of handle. A method that declares no loops answers as there, one that does by its budget.
#![tactic(auto)]

mod call;
mod class;
mod handle;
mod held;
mod part_call;

pub use class::{LoopClassError, OverBudget, load_loops};
pub use handle::LoopHandle;
pub use held::HeldClass;
