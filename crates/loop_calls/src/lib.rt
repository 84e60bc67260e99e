//! Calls of methods with loops on parts of objects, by a budget: each instruction takes its weight, and
//! where less is left than the one that is due weighs, the call fails and nothing is changed. Else the
//! answer is the method's on every object that the part may be, or what the call needs besides. A run is
//! the interpreter's, instruction by instruction, but for the helpers, which look at what is known.
#![tactic(auto)]

mod answer;
mod execute;
mod laws;
mod method;
mod room;
mod weight;

pub use answer::SPENT_CODE;
pub use laws::more_is_enough_by_budget;
pub use method::BudgetedMethod;
pub use part_calls::PartAnswer;
pub use parts::{StagedPart, Stop};
pub use room::LoopRoom;
