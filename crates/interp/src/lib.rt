//! Calls of verified methods: `call` gives the machine's outcome and the change of the object, a
//! `Room` does so for one call after the other, and its `call_listed` gives the edits that the method's
//! helpers left too; and the table of loaded classes. `turn` does one instruction for a runner of
//! another kind.
#![tactic(auto)]

mod act;
mod answer;
mod ask;
mod calls;
mod class_table;
mod execute;
mod limits;
mod memory;
mod outcome;
mod registers;
mod room;
mod run;
mod step;

pub use answer::cut;
pub use bpf_machine::{Region, Value};
pub use calls::{CallError, call, call_method};
pub use class_table::{ClassTable, TableError};
pub use limits::CLASS_LIMIT;
pub use outcome::{Listed, Outcome};
pub use registers::Registers;
pub use room::{Room, are_bytes, lay_out};
pub use step::{After, Next, turn};
pub use verifier::{VerifiedClass, VerifiedMethod};
