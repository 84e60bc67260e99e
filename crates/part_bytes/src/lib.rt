//! Parts of objects as bytes, for a host that gives a call what the call asks for and not whole objects. `read_part`
//! reads what is known of an object (its size, some blocks of its data, and intervals of its xattrs and keys) from
//! the one spelling of it, and refuses all other bytes. `need_form` spells what a call needs next.
#![tactic(auto)]

mod blocks;
mod fields;
mod laws;
mod limits;
mod names;
mod need;
mod part;
mod part_error;
#[cfg(test)]
mod tests;

pub use blocks::Block;
pub use laws::{need_is_short, one_need, one_part};
pub use limits::{BLOCK, BLOCK_LIMIT, INTERVAL_LIMIT, NEED_LIMIT, PLACE_LIMIT};
pub use names::{Interval, NamedValue, Names, is_begun, past};
pub use need::{Need, NeededName, need_form, needed_name};
pub use part::{ObjectPart, read_part};
pub use part_error::PartError;
