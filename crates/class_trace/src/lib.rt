//! A call's run, step by step: the slot and the registers of each executed instruction are those of
//! the flat machine's chain of steps in the first layout, up to the exit, with `call`'s outcome. A
//! line of text says what each instruction changed; what the text says is tested.
#![tactic(auto)]

mod changes;
mod helper_text;
mod layouts;
mod lines;
mod paired;
mod steps;
mod text;
mod values;

pub use flat_machine::RunStart;
pub use lines::slot_lines;
pub use steps::{TraceLine, trace};
pub use text::trace_text;
