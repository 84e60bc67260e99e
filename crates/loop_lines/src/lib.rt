//! Loops as lines of a class's text: what stands after `.budget` and `.head`.
//!
//! `push_budget` and `push_head` write the one canonical text of specs/HeadText. `budget_of` and
//! `places_of` read exactly the texts of specs/Grammar; a fault is the first that specs/Reading
//! meets from left to right. Where the lines stand is for the reader of a whole text.
#![tactic(auto)]

mod laws;
mod number;
mod place;
mod print;
mod reading;

pub use laws::{content_of_lines, grammar, round_trip};
pub use print::{push_budget, push_head};
pub use reading::{budget_of, places_of};
