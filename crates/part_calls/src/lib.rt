//! Calls of verified methods on parts of objects: a host hands in what it knows of an object, by limits
//! of its own, and gets the method's answer on every object that this may be, or what the call needs
//! besides. A run is the interpreter's, instruction by instruction, but for the helpers, which look at
//! what is known. `PartRun`, `part_step` and `part_answer` serve a runner of another kind.
#![tactic(auto)]

mod answer;
mod ask;
mod execute;
mod laws;
mod room;
mod run;
mod step;

pub use answer::{PartAnswer, part_answer};
pub use laws::more_is_enough;
pub use parts::{StagedPart, Stop};
pub use room::PartRoom;
pub use run::PartRun;
pub use step::part_step;
