//! Objects of which a part is known, as a call of a method stages them. Each helper that reads or
//! changes the object has one function here: what it answers is what the helper answers on every
//! object that agrees with what is known, by the host's limits, and what is known afterwards stands
//! for each of those after the helper. Where that isn't known it says what is needed. After a `Stop`
//! the call is over, and what is staged is dropped.
#![tactic(auto)]

mod changes;
mod laws;
mod names;
mod of_part;
mod reads;
mod staged_part;
mod stop;

pub use staged_part::StagedPart;
pub use stop::Stop;
