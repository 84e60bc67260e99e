//! Finds heads for a method with loops: a budget is given, and at the target of each jump that goes back
//! the kinds of the places that the loop changes are found, by passes over the method whose bounds move to
//! the code's own numbers. Nothing rests on what is found: the verdict on loops checks it, and may refuse
//! it. What is proved is that the search ends, and that heads stand at such targets alone.
#![tactic(auto)]

mod find_error;
mod finder;
mod growth;
mod guess;
mod guesses;
mod places;
mod targets;
mod thresholds;

pub use find_error::FindError;
pub use finder::find_heads;
pub use targets::back_target;
