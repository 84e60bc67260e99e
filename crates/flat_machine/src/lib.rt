//! The flat machine as a program, slow and plain: it runs a method's bytes on plain addresses, in a
//! given layout. It computes the definition, for all instructions and all helpers.
#![tactic(auto)]

mod calls;
mod entry;
mod fields;
mod layout;
mod machine;
mod memory;
mod regions;
mod rows;
mod run;
mod state;
mod stepping;

pub use entry::RunStart;
pub use layout::{Layout, is_layout};
pub use machine::Machine;
pub use regions::Regions;
pub use run::{Ending, flat_run};
pub use state::FlatState;
pub use stepping::Stepped;
