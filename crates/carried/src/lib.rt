//! An operation of a queue, which carries a request, a map, or a message to a node. A message that
//! carries a list is packed: the list goes without what its receiver has committed, as the
//! receiver's question for it said. `pack` makes of a message what is carried, `event_of` makes of
//! that the event that comes to the node, and neither copies a whole log. What they give is
//! `specs/Carried.antt`. `operation_crosses` says that an operation may go to another thread.
#![tactic(auto)]

mod copies;
mod crossing;
mod message;
mod operation;
mod packing;
mod unpacking;

pub use crossing::operation_crosses;
pub use message::{CarriedKind, CarriedMessage};
pub use operation::{Carried, Operation};
pub use packing::pack;
pub use unpacking::{event_of, message_of};
