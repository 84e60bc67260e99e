//! The agreement of a group of nodes, whatever the network loses, repeats or reorders and whichever
//! nodes stop. The crate has the types that a node and the monitor handle (maps, events, messages,
//! refusals), the rules of the protocol as definitions over lists (`specs/Rules.antt`, one
//! definition a rule, and `specs/World.antt`, from the world to the agreed world), and the theorem:
//! `agreement`. The crate above proves that its code carries out these rules.
#![tactic(auto)]

mod answer;
mod crossing;
mod event;
mod group_map;
mod handle_error;
mod laws;
mod message;
mod messages;
mod monitor_error;
mod party;
mod runs;
mod status;

pub use answer::CallReply;
pub use crossing::{event_crosses, map_crosses, message_crosses};
pub use event::Event;
pub use group_map::GroupMap;
pub use handle_error::HandleError;
pub use laws::{
    agreement, kept_stays_activated, nothing_is_cut, refusals_are_deserved, replies_are_committed,
};
pub use message::{Message, MessageKind, Packet, Place};
pub use messages::Messages;
pub use monitor_error::MonitorError;
pub use party::Party;
pub use pg_log::Requests;
pub use placement::Epoch;
pub use runs::worked_runs;
pub use status::Status;
