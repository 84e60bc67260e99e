//! Frames: the kinds of the eleven registers, and of the stack's slots, before an instruction of a
//! method, and after it.
//!
//! A `Kind` says that a register or a slot is a number, points into a region, or nothing; a `Frame`
//! has those of the registers and, from rule set 2 on, of the slots, and in rule set 3 links
//! between places whose numbers come from one. `Frame::flow` takes a frame over an instruction, by
//! the table of specs/Flow, and gives the frame along each of its edges: none along a dead one. If
//! a frame holds the values before the instruction, one along an edge holds those after it.
//! `Frame::join` is an upper bound of two frames. Both take no memory and can't fail.
#![tactic(auto)]

mod bounds;
mod content;
mod edges;
mod flat_laws;
mod flow;
mod frame;
mod kind;
mod laws;
mod link;
mod linking;
mod links;
mod slots;
mod stack_span;
mod telling;

pub use bounds::{access_fits, range_fits};
pub use content::Content;
pub use edges::{Compared, Edges};
pub use flat_laws::registers_as_numbers;
pub use frame::Frame;
pub use kind::{Kind, Kinds};
pub use laws::{holding_laws, join_laws, links_stay, slots_known, slots_stay};
pub use link::{Link, LinkForm};
