//! Calls of the methods of a class whose methods may loop, on objects by the limits of all objects,
//! as `interp` calls those of other classes: `call_loops` gives the machine's outcome and the
//! change of the object. A method with loops runs by its budget on a part that has all of the object, and
//! the edits that it leaves are made of the object.
#![tactic(auto)]

mod calls;
mod edits;
mod laws;
mod run;
mod whole;

pub use calls::{budgeted, call_loops};
pub use laws::answers_without_loops;
pub use run::{ClientInput, run_by_budget};
