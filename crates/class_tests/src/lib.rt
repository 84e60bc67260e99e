//! Tests of a class, as a file of lines has them: each line sets up an object, makes a call, or
//! says what the call's answer or the object must be. `run_tests` finds the first line that is
//! malformed, or that says what isn't so, and what there is instead; of none it gives the number of
//! lines that hold. A call's answer is the outcome of the method's bytes (`specs/Tests.antt`), and in
//! `run_loop_tests`, of a class whose methods may loop, that of their run by a budget. `of_kind` reads
//! a text or numbers as an input.
#![tactic(auto)]

mod called;
mod calls;
mod case;
mod checks;
mod laws;
mod lines;
mod setting;
mod spelled;
mod step;
mod test_bytes;
mod test_said;
mod tested;
mod tests;
mod text;

pub use called::call_at;
pub use case::Case;
pub use spelled::of_kind;
pub use test_bytes::TestBytes;
pub use test_said::TestSaid;
pub use tests::{TestEnd, run_loop_tests, run_tests};
pub use text::end_text;
