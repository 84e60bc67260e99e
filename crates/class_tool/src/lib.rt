//! Does what the words of the program `radoscls` ask for: `find` tells whether a class is safe,
//! calls a method of one, writes the image of a text or of raw code, or gives the text of a class.
//! Its answer, whose lines are those of `result_text`, is true of the files as they were; a failure
//! is the first reason in a stated order, and `Explain` says more. `verify_each` tells it of each
//! method, and `packed_class` gives the class of raw code that isn't written yet. Only an image or a
//! call's object is written, to the file named for it, if it is right.
#![tactic(auto)]

mod action;
mod action_result;
mod each;
mod explain;
mod input;
mod large_run;
mod log;
mod packing;
mod run;
mod run_report;
mod tool;
mod traced;

pub use action::{Action, Packing, RawMethod};
pub use action_result::ActionResult;
pub use class_trace::RunStart;
pub use each::{Verdicts, verify_each};
pub use explain::Explain;
pub use input::decode_input;
pub use packing::packed_class;
pub use run::{begun, keep, report_beside};
pub use run_report::{Holdings, RunReport};
pub use tool::find;
pub use traced::traced_call;
