//! Runs of a method with loops, by a budget: what an instruction takes of it, and what a method that
//! is safe by it is. The law: a method whose typed runs are never stuck is safe by its budget, on
//! the flat machine, wherever the regions lie.
#![tactic(auto)]

mod budget;
mod laws;

pub use budget::{CALL_WEIGHT, weight};
pub use laws::{budgets, one_end};
