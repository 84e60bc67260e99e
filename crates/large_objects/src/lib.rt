//! Objects by an OSD's limits: at most 134,217,728 bytes of data, and any number of xattrs and keys.
//! `LargeObject` holds one, `make` applies an edit, and `call_large` calls a method on one: code,
//! output, steps and the object afterwards are those of the method's run on the flat machine by these
//! limits, in every layout. It hands the object in by parts, as much as a call asks for.
#![tactic(auto)]

mod agreed;
mod call;
mod edits;
mod fetched;
mod large_object;
mod large_value;
mod limits;
mod slices;

pub use call::{LargeAnswer, LargeCall, LargeCallError, call_large};
pub use edits::{make, make_all};
pub use large_object::{LargeNames, LargeObject};
pub use large_value::LargeValue;
pub use limits::{LARGE_LIMIT, large_limits};
