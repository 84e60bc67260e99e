use crate::answer::CallReply;
use crate::group_map::GroupMap;
use crate::party::Party;
use pg_log::{ClientId, Request, RequestNumber, Requests};
use placement::Epoch;

/// A place in a log, from 0 on, as `pg_log` counts them.
pub type Place = usize;

/// The content of a message. Epochs are those in which an interval began.
#[derive(Drop)]
pub enum MessageKind {
    /// The primary of the map asks a member of the interval before for its list.
    Query(GroupMap),
    /// A member's list, for the primary of that interval.
    Log(Epoch, Requests),
    /// The list that the map's primary adopted, for another member.
    Install(GroupMap, Requests),
    /// A member has installed that interval's list.
    Installed(Epoch),
    /// The primary of that interval asks the monitor to activate it.
    AskActivate(Epoch),
    /// The monitor has activated that interval.
    Activated(Epoch),
    /// The primary of that interval has this request at that place.
    Rep(Epoch, Place, Request),
    /// A member of that interval has a list of that length.
    Ack(Epoch, usize),
    /// The request of that client and number is at that place of the log, and has that answer.
    Reply(ClientId, RequestNumber, Place, CallReply),
}

/// A message with its sender.
#[derive(Drop)]
pub struct Message {
    /// The sender.
    pub sender: Party,
    /// The content.
    pub kind: MessageKind,
}

/// A message on its way.
#[derive(Drop)]
pub struct Packet {
    /// The receiver.
    pub receiver: Party,
    /// The message.
    pub message: Message,
}
