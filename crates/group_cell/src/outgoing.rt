use crate::board_name::BoardName;
use crate::post::Post;
use carried::CarriedMessage;
use group_world::Epoch;
use pg_log::ClientId;
use placement::NodeId;

/// A message on its way out of a cell.
#[derive(Drop)]
pub enum Outgoing<N: BoardName> {
    /// A message for another node of the group, or for the node itself.
    ToNode(NodeId, CarriedMessage),
    /// The node asks the monitor to activate that interval.
    ToMonitor(Epoch),
    /// A client is answered or refused.
    ToClient(ClientId, Post<N>),
}
