//! Loops as bytes, which stand after a method's code in an image.
//!
//! `push_loops` writes the one spelling of specs/HeadBytes, and `read_loops` reads exactly those
//! spellings whose heads are at instructions; each refusal is the first that specs/Reading meets from
//! left to right.
#![tactic(auto)]

mod fields;
mod heads_error;
mod laws;
mod reading;
mod writing;

pub use heads_error::HeadsError;
pub use laws::round_trip;
pub use reading::{LOOPS_LIMIT, ReadLoops, read_loops};
pub use writing::{fits, push_loops};
