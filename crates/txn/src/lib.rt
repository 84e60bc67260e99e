//! Changes of one object that a call stages. Reads of a staged object are reads of the object as
//! `finish` and `apply` leave it. A change is the object before and after, which share all that the
//! call didn't touch: so the cost of staging, finishing, applying and undoing is that of the parts
//! touched, never of the whole object. `undo` restores all objects as they were before `apply`.
#![tactic(auto)]

mod change;
mod edit;
mod no_memory;
mod staged;

pub use change::{Change, apply, undo};
pub use edit::Edit;
pub use no_memory::NoMemory;
pub use staged::{Staged, note_edits};
