ghost use Rattle.std.specs.Prelude.{◌≡◌};
ghost use Rattle.carried.specs.Carried.{reported_of};

use crate::message::CarriedMessage;
use group_world::GroupMap;
use pg_log::Request;
use placement::NodeId;

/// An operation for a group at a node.
#[derive(Drop)]
pub struct Operation {
    /// The group.
    pub group: usize,
    /// The node that it is for.
    pub node: NodeId,
    /// The request, map or message for the group there.
    pub carried: Carried,
}

/// A request, a map or a message for a group at a node.
#[derive(Drop)]
pub enum Carried {
    /// A client's request.
    Request(Request),
    /// A map, which the node learns.
    Map(GroupMap),
    /// A message.
    Message(CarriedMessage),
}

impl Carried {
    /// The number of entries that the sender of a question says it has committed; 0 of anything
    /// else.
    pub fn reported(&self) -> usize
        ensures { result ≡ reported_of self.now }
    {
        match self {
            Carried::Request(_) => 0,
            Carried::Map(_) => 0,
            Carried::Message(message) => message.reported(),
        }
    }
}
