//! The note below the line that refuses a method: the method, the instruction, what is known of the
//! registers that it reads and of the stack's slots that it touches, what the rule wants, and what
//! would do in its place (`Advice`). A bound that advice names makes the access or the range fit
//! (`Room`); that the rest is right is tested, by texts that are mended as they say.
#![tactic(auto)]

mod advice;
mod advise;
mod calls;
mod known;
mod note;
mod read;
mod room;
mod touched;
mod ways;

pub use note::refusal_note;
