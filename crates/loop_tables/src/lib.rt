//! The theorem on methods with loops: if no rule refuses a method by its heads, its typed runs by
//! its budget are never stuck, whatever the heads say of the loops. What frames such a method has,
//! and which rule refuses which of its slots, is in specs/: there is one frame a slot, found in one
//! pass, and what goes back to a head has to be below the frame there.
#![tactic(auto)]

mod laws;

pub use laws::accepted_loops;
