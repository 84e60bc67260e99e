//! The values of the protocol that may go to another thread, and those that threads may share, for
//! the proofs of the crates above. Each function does nothing.
ghost use denote.Param.Send.{IsSend, IsSync};
ghost use Rattle.group_world.specs.contracts.event.Event as event;
ghost use Rattle.group_world.specs.contracts.group_map.GroupMap as map;
ghost use Rattle.group_world.specs.contracts.message.Message as message;
ghost use Rattle.group_world.specs.contracts.message.Packet as packet;

use crate::event::Event;
use crate::group_map::GroupMap;
use crate::message::{Message, Packet};
use pg_log::request_crosses;

/// Values of the type may go to another thread.
fn sends<T: Send>()
    ensures { IsSend T.row }
{}

/// Threads may share values of the type.
fn shares<T: Sync>()
    ensures { IsSync T.row }
{}

/// A map may go to another thread, and threads may share it.
pub fn map_crosses()
    ensures sent { IsSend map.the_row }
    ensures shared { IsSync map.the_row }
{
    sends::<GroupMap>();
    shares::<GroupMap>()
}

/// A message may go to another thread, also with its receiver.
pub fn message_crosses()
    ensures message { IsSend message.the_row }
    ensures packet { IsSend packet.the_row }
{
    request_crosses();
    map_crosses();
    sends::<Message>();
    sends::<Packet>()
}

/// An event may go to another thread.
pub fn event_crosses()
    ensures { IsSend event.the_row }
{
    request_crosses();
    map_crosses();
    message_crosses();
    sends::<Event>()
}
