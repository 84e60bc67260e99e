//! The verdict on methods with loops. `verify_by_heads` follows a method once, slot by slot, as `verify`
//! does; at a head it joins what is declared there, and what jumps back has to be below the frame at its
//! head. Every run of an accepted method by its budget is never stuck, and reaches its exit or uses up
//! the budget. A refusal is the verdict by the rules of `loop_tables`, the first refused slot and there
//! the lowest rule.
#![tactic(auto)]

mod code;
mod flows;
mod heads;
mod method;
mod pass;
mod rules;
mod verified;

pub use code::LoopCode;
pub use flows::{Back, Flows};
pub use method::verify_by_heads;
pub use pass::first_refusal_by_heads;
pub use rules::refusing_rule;
pub use verified::LoopMethod;
