//! The footprint of a method: the parts of an object that it can see or change. `needed` reads it
//! off the code. By `frame` a run on the object without the other parts is the run on the whole
//! object, which leaves those parts as they were.
//! By `answers_decide_lists` what a run's helpers answer decides the list of its edits, and
//! `list_lengths` says how long that is.
#![tactic(auto)]

mod laws;
mod parts;
mod scan;

pub use laws::{answers_decide_lists, frame, list_lengths};
pub use parts::Parts;
pub use scan::needed;
