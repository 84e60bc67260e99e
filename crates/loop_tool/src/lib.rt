//! Classes whose methods may loop, for the program `radoscls`. `verify_files_by_loops` judges files
//! by the heads that their methods declare: each file, in the order given, and a file is accepted only
//! if each of its methods is safe, to its exit or by its budget. `run_by_loops` calls a method of such
//! a class, on an object that words or a file spell; `load_by_loops` gives the class alone.
//! `write_heads` finds heads for the loops of a file's class, and writes the image of the same class
//! with them, `pack_with_heads` for those of raw code; nothing rests on what is found, since the
//! verdict checks it. No other file changes, and on a failure none.
#![tactic(auto)]

mod asked;
mod found;
mod heads;
mod load;
mod loop_report;
mod loop_reports;
mod no_heads;
mod note;
mod packed_heads;
mod run;
mod write_heads_error;

pub use asked::{HeadedPacking, HeadsAsked, LoopsAsked};
pub use heads::write_heads;
pub use load::load_by_loops;
pub use loop_reports::{LoopReports, verify_files_by_loops};
pub use no_heads::NoHeads;
pub use note::note_of;
pub use packed_heads::pack_with_heads;
pub use run::run_by_loops;
pub use write_heads_error::WriteHeadsError;
