//! The program `radoscls` on words, files and two writers: does what a command line asks for by
//! `class_tool`, `loop_tool`, `class_tests`, `sim` and `cluster_tool`, and prints it. `program` says
//! what each of its endings means: what was printed, which file was written, and why not. `start`
//! runs it on the words and files of the process, and gives what that ends with. The command
//! `cluster` starts threads and waits for them; the others do neither.
#![tactic(auto)]

mod actions;
mod asked;
mod entry;
mod error_stream;
mod folders;
mod inputs;
mod judging;
mod looping;
mod mistake;
mod number;
mod perform;
mod process;
mod raw_method;
mod showing;
mod status;
mod task;
mod telling;
mod tenant_class;
mod testing;
mod threads;
mod unplayed;
mod values;

pub use perform::program;
pub use process::{end_of, start};
pub use program_files::Printer;
pub use status::ExitStatus;
