//! The value under a group's lock, and the values that leave it. No function here waits, and none
//! starts a thread. `GroupCell` is a node of a group with the writer of its row on the board: by
//! its type, the row's list is the list that the node has committed, in any schedule of the threads
//! that hold other rows. `handle` is the node's step, and commits to the row exactly what became
//! committed. A `Reply` is made of a cell alone: by its type the whole request stands at the named
//! place, once, in a legal list that its note knows of the row, and is answered so there. A
//! `Refused` is true of its request and the loaded classes. A `Post` is either, and tells which
//! request it answers. `turn` is what a worker does with one operation while it holds the lock:
//! what goes out is exactly what the step sent, packed, or the refusal.
#![tactic(auto)]

mod board_name;
mod cell;
mod crossing;
mod outgoing;
mod post;
mod refused;
mod reply;
mod turn;

pub use board_name::BoardName;
pub use cell::GroupCell;
pub use crossing::{cell_crosses, post_crosses};
pub use outgoing::Outgoing;
pub use post::Post;
pub use refused::Refused;
pub use reply::Reply;
