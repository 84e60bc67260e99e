//! What a method declares of its loops: a budget, and at each head, the target of a backward jump, the
//! kinds of the places that the loop changes. A verdict only checks them; nothing rests on who made
//! them.
#![tactic(auto)]

mod head;
mod limits;
mod loops;
mod loops_error;
mod place;

pub use head::Head;
pub use limits::{BUDGET_LIMIT, HEAD_LIMIT, PLACE_LIMIT};
pub use loops::Loops;
pub use loops_error::LoopsError;
pub use place::{HeadPlace, PlaceKind};
