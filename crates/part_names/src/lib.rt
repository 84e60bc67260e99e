//! Names and values of an object, its xattrs or its omap, of which only some are known: entries,
//! and intervals of strings in which no other name is. `PartNames` answers reads and takes changes;
//! each answer holds of every map of names that agrees with what is known, and each change is the
//! same change of every such map. Where an answer isn't known, it is said so, and `above` gives the
//! first place that is missing. After a refusal all is as before.
#![tactic(auto)]

mod above;
mod interval;
mod intervals;
mod known;
mod order;
mod part_names;
mod place;
mod set_error;
mod stored_value;

pub use above::Above;
pub use known::Known;
pub use part_names::PartNames;
pub use place::{PLACE_LIMIT, Place};
pub use set_error::SetError;
