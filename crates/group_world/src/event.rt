use crate::group_map::GroupMap;
use crate::message::Message;
use pg_log::Request;

/// An event at a node.
#[derive(Drop)]
pub enum Event {
    /// A client's request.
    Request(Request),
    /// A map, which the node learns.
    Map(GroupMap),
    /// A message.
    Message(Message),
}
